//! Works whose parties are paid to too many payees.

ghost use Rattle.std.specs.Prelude.{◌≡◌, ◌<◌, ℕ, List, All, IfOk, IfSome, IsTrue, Some, false, length, zip};
ghost use Rattle.cwr_share.specs.Payees.{payee_of};
ghost use Rattle.cwr_share.specs.Registered.{HasFewPayees};
ghost use Rattle.cwr_share.specs.Registrations.{ShareLine, find_work};
ghost use Rattle.linked_works.specs.Linked.{finds_among};
ghost use Rattle.linked_works.specs.ManyPayees.{HasManyPayees, HaveFewPayees, IsFirstMany, SomeHasMany};
ghost use Rattle.linked_works.specs.Rows.{CanBeLinked, links_by, names_by};

use crate::linking::{Link, link_all};
use cwr_share::{InForce, Name, Payees, ShareRecord, Sought};
use indexmap::IndexSet;
use line_split::MOST_CLAIMS;
use std::alloc::{AllocError, Global};

/// Whether the parties of share lines are paid to no more payees than a usage line can have claims.
fn has_few_payees(
    alloc: Global,
    payees: &Payees,
    shares: &[ShareRecord],
) -> Result<bool, AllocError>
    ensures few { IfOk result (λ few. IsTrue few → HasFewPayees (payee_of payees.now) shares.now) }
    ensures many { IfOk result (λ few. few ≡ false → HasManyPayees (payee_of payees.now) shares.now) }
{
    if shares.len() <= MOST_CLAIMS {
        return Ok(true);
    }
    let mut found: IndexSet<Name> = IndexSet::new(alloc);
    for share in shares {
        let payee = payees.payee_of(share.party());
        found.insert(Name::of(alloc, payee)?)?;
        if found.len() > MOST_CLAIMS {
            return Ok(false);
        }
    }
    Ok(true)
}

/// Whether that holds of each work that links name, where these works have these share lines.
pub(crate) fn have_few_payees(
    alloc: Global,
    works: &InForce,
    links: &[Link],
    payees: &Payees,
) -> Result<bool, AllocError>
    ensures few { IfOk result (λ few. IsTrue few
        → All (λ link. IfSome (find_work link.work works.now) (HasFewPayees (payee_of payees.now))) links.now) }
    ensures many { IfOk result (λ few. few ≡ false → (work : List ℕ) × (shares : List ShareLine)
        × (find_work work works.now ≡ Some shares) × HasManyPayees (payee_of payees.now) shares) }
{
    let mut seen: IndexSet<Name> = IndexSet::new(alloc);
    for link in links {
        let work = link.work.as_slice();
        if seen.contains(Sought(work)) {
            continue;
        }
        if !work_has_few_payees(alloc, works, work, payees)? {
            return Ok(false);
        }
        seen.insert(Name::of(alloc, work)?)?;
    }
    Ok(true)
}

/// Whether that holds of a work.
fn work_has_few_payees(
    alloc: Global,
    works: &InForce,
    work: &[u8],
    payees: &Payees,
) -> Result<bool, AllocError>
    ensures few { IfOk result (λ few. IsTrue few
        → IfSome (find_work work.now works.now) (HasFewPayees (payee_of payees.now))) }
    ensures many { IfOk result (λ few. few ≡ false → (shares : List ShareLine)
        × (find_work work.now works.now ≡ Some shares) × HasManyPayees (payee_of payees.now) shares) }
{
    match works.find(work) {
        Some(shares) => has_few_payees(alloc, payees, shares),
        None => Ok(true),
    }
}

/// The place of the first link with which the parties of its work have too many payees, where with all of them those of
/// some work have.
pub(crate) fn first_many(
    alloc: Global,
    names: &[Vec<u8>],
    files: &[InForce],
    links: &[Link],
    payees: &Payees,
) -> Result<usize, AllocError>
    requires linkable { CanBeLinked names.now files.now links.now }
    requires many { SomeHasMany (payee_of payees.now) (finds_among (zip (names_by names.now) files.now))
        (links_by (names_by names.now) links.now) }
    ensures within { IfOk result (λ place. place < length links.now) }
    ensures first { IfOk result (IsFirstMany (payee_of payees.now) (finds_among (zip (names_by names.now) files.now))
        (links_by (names_by names.now) links.now)) }
{
    let mut few = 0;
    let mut many = links.len();
    while few + 1 < many {
        let middle = few + (many - few) / 2;
        if linked_have_few_payees(alloc, names, files, &links[..middle], payees)? {
            few = middle;
        } else {
            many = middle;
        }
    }
    Ok(few)
}

/// Whether the parties of each work have few payees, by these links alone.
fn linked_have_few_payees(
    alloc: Global,
    names: &[Vec<u8>],
    files: &[InForce],
    links: &[Link],
    payees: &Payees,
) -> Result<bool, AllocError>
    requires { CanBeLinked names.now files.now links.now }
    ensures few { IfOk result (λ few. IsTrue few
        → HaveFewPayees (payee_of payees.now) (finds_among (zip (names_by names.now) files.now))
        (links_by (names_by names.now) links.now)) }
    ensures many { IfOk result (λ few. few ≡ false
        → SomeHasMany (payee_of payees.now) (finds_among (zip (names_by names.now) files.now))
        (links_by (names_by names.now) links.now)) }
{
    let works = link_all(alloc, names, files, links)?;
    have_few_payees(alloc, &works, links, payees)
}
