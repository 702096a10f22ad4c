//! What the share lines of a registration come to in a land.

ghost use Rattle.std.specs.Prelude.{◌≡◌, ◌≤◌, ◌<◌, ◌+◌, ℕ, List, IfOk, drop, length, map, slice_index_or};
ghost use Rattle.cwr_share.specs.ClaimsOn.{claim_of as claim_by};
ghost use Rattle.cwr_share.specs.Payees.{payee_of};
ghost use Rattle.cwr_share.specs.Registrations.{ShareLine};
ghost use Rattle.cwr_share.specs.declared.TheConstants.{MOST_SHARE_LINES};
ghost use Rattle.explain_line.specs.Claimed.{ArePayeesOf, claimed_by};

use cwr_share::{Registry, ShareRecord, decides};
use line_split::Right;
use std::alloc::{AllocError, Global};
use tis_tree::{Code, TisTable};

/// The payee of a party: itself, where the registrations name none.
pub(crate) fn payee_by<'a>(registry: &'a Registry, party: &'a [u8]) -> &'a [u8]
    ensures { result.now ≡ payee_of registry.now.payees party.now }
{
    match registry.payee_of(party) {
        Some(payee) => payee,
        None => party,
    }
}

/// The payee of each of these share lines.
pub(crate) fn payees_by<'a>(
    alloc: Global,
    registry: &'a Registry,
    shares: &'a [ShareRecord],
) -> Result<Vec<&'a [u8]>, AllocError>
    ensures { IfOk result (λ payees. ArePayeesOf (payee_of registry.now.payees) (map (λ payee. payee.now) payees.items) shares.now) }
{
    let mut payees = Vec::with_capacity(alloc, shares.len())?;
    for share in shares {
        payees.push(payee_by(registry, share.party()))?;
    }
    Ok(payees)
}

/// What a payee claims in a land, in hundredths of a per cent, where these are the payees of the share lines.
pub(crate) fn claim_of(
    tis: &TisTable,
    land: Code,
    right: Right,
    shares: &[ShareRecord],
    payees: &[&[u8]],
    payee: &[u8],
) -> u64
    requires few { length shares.now ≤ MOST_SHARE_LINES }
    requires payees { length payees.now ≡ length shares.now }
    ensures { (pay : List ℕ → List ℕ) → ArePayeesOf pay (map (λ p. p.now) payees.now) shares.now → result ≡ claim_by tis.now land right pay shares.now payee.now }
{
    let mut claim: u64 = 0;
    for place in 0..shares.len() {
        claim += claimed_at(tis, land, right, shares, payees, payee, place);
    }
    claim
}

/// What the share line at a place adds to it.
fn claimed_at(
    tis: &TisTable,
    land: Code,
    right: Right,
    shares: &[ShareRecord],
    payees: &[&[u8]],
    payee: &[u8],
    place: usize,
) -> u64
    requires place { place < length shares.now }
    requires payees { length payees.now ≡ length shares.now }
    ensures claimed { (pay : List ℕ → List ℕ) (d : ShareLine) → ArePayeesOf pay (map (λ p. p.now) payees.now) shares.now
        → result ≡ claimed_by tis.now land right pay payee.now (slice_index_or shares.now place d) (drop (place + 1) shares.now) }
    ensures small { result ≤ u16.MAX }
{
    if payees[place] == payee && decides(tis, land, shares, place) {
        u64::from(shares[place].collected(right))
    } else {
        0
    }
}
