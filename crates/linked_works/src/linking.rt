//! The registrations of each work, put together from the files of all submitters.

ghost use Rattle.std.specs.Prelude.{◌≡◌, ◌≤◌, ◌*◌, ℕ, List, IfOk, OnOk, Some, length, zip};
ghost use Rattle.cwr_share.specs.InForce.{IsOneRegistration};
ghost use Rattle.cwr_share.specs.Registrations.{ShareLine, find_work};
ghost use Rattle.cwr_share.specs.declared.TheConstants.{MOST_SHARES};
ghost use Rattle.cwr_share.specs.declared.numbers.TheConstants.{MOST_WORK_NAME_BYTES};
ghost use Rattle.linked_works.specs.Linked.{finds_among, shares_linked};
ghost use Rattle.linked_works.specs.Rows.{CanBeLinked, links_by, names_by, with_registration};
ghost use Rattle.linked_works.specs.Submitters.{IsSubmitter};

use cwr_share::{InForce, Name};
use std::alloc::{AllocError, Global};

/// A registration of a work: the place of its submitter, and its number.
#[derive(Drop)]
pub(crate) struct Link {
    /// The name of the work, as usage lines have it.
    pub(crate) work: Name,
    /// The place of the submitter among the names.
    pub(crate) submitter: usize,
    /// The submitter work number.
    pub(crate) number: Name,
}

/// The works that links name, each with its registrations in force, one behind the other in the order of the links, by
/// what the submitters of these names have in force.
pub(crate) fn link_all(
    alloc: Global,
    names: &[Vec<u8>],
    files: &[InForce],
    links: &[Link],
) -> Result<InForce, AllocError>
    requires { CanBeLinked names.now files.now links.now }
    ensures works { IfOk result (λ joined. (work : List ℕ) → find_work work joined
        ≡ shares_linked (finds_among (zip (names_by names.now) files.now))
        (links_by (names_by names.now) links.now) work) }
    ensures lines { IfOk result (λ joined. (work : List ℕ) (shares : List ShareLine)
        → find_work work joined ≡ Some shares → length shares ≤ MOST_SHARES * length links.now) }
{
    let mut joined = InForce::none(alloc);
    for link in links {
        let name = names[link.submitter].as_slice();
        add_link(alloc, &mut joined, name, &files[link.submitter], link)?;
    }
    Ok(joined)
}

/// Adds the registration of a link to its work, where its submitter has it in force.
fn add_link(
    alloc: Global,
    joined: &mut InForce,
    name: &[u8],
    file: &InForce,
    link: &Link,
) -> Result<(), AllocError>
    requires work { length link.now.work ≤ MOST_WORK_NAME_BYTES }
    requires name { IsSubmitter name.now }
    requires registrations { (number : List ℕ) (shares : List ShareLine) → find_work number file.now ≡ Some shares
        → IsOneRegistration shares }
    ensures works { OnOk result ((work : List ℕ) → find_work work joined.new
        ≡ with_registration (find_work link.now.number file.now) link.now.work name.now
        (find_work work joined.old) work) }
{
    match file.find(link.number.as_slice()) {
        Some(shares) => joined.append(alloc, link.work.as_slice(), name, shares),
        None => Ok(()),
    }
}
