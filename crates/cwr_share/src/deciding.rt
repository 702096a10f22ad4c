//! Which share lines of a registration decide in a land, and what they come to.

ghost use Rattle.std.specs.Prelude.{◌≡◌, ◌≤◌, ◌<◌, ◌+◌, ◌*◌, ◌&&◌, drop, if◌then◌else◌, length, slice_index_or};
ghost use Rattle.std.specs.List.{list_any};
ghost use Rattle.cwr_share.specs.ClaimsOn.{claimed_in as claimed_by, covers, decides as is_deciding, is_alike, share_for};
ghost use Rattle.cwr_share.specs.Registrations.{ShareLine};
ghost use Rattle.cwr_share.specs.declared.TheConstants.{MOST_SHARE_LINES};

use crate::share_line::ShareRecord;
use line_split::Right;
use tis_tree::{Code, TisTable};

/// What the share lines of a registration claim in a land for a right, in hundredths of a per cent, whoever is paid it.
pub fn claimed_in(tis: &TisTable, land: Code, right: Right, shares: &[ShareRecord]) -> u64
    requires few { length shares.now ≤ MOST_SHARE_LINES }
    ensures claimed { result ≡ claimed_by tis.now land right shares.now }
    ensures small { result ≤ u16.MAX * length shares.now }
{
    let mut claim: u64 = 0;
    for place in 0..shares.len() {
        claim += claimed_at(tis, land, right, shares, place);
    }
    claim
}

/// What the share line at a place adds to it.
fn claimed_at(tis: &TisTable, land: Code, right: Right, shares: &[ShareRecord], place: usize) -> u64
    requires { place < length shares.now }
    ensures claimed { (d : ShareLine) → result ≡ (if is_deciding tis.now land (slice_index_or shares.now place d) (drop (place + 1) shares.now)
        then share_for right (slice_index_or shares.now place d) else 0) }
    ensures small { result ≤ u16.MAX }
{
    if decides(tis, land, shares, place) {
        u64::from(shares[place].collected(right))
    } else {
        0
    }
}

/// Whether the share line at a place decides what its interest and party have in a land: its territory contains the land, and
/// that of no later line of theirs does.
pub fn decides(tis: &TisTable, land: Code, shares: &[ShareRecord], place: usize) -> bool
    requires { place < length shares.now }
    ensures { (d : ShareLine) → result ≡ is_deciding tis.now land (slice_index_or shares.now place d) (drop (place + 1) shares.now) }
{
    let share = &shares[place];
    covers_land(tis, land, share) && !is_overruled(tis, land, share, &shares[place + 1..])
}

/// Whether the territory of a share line contains a land.
pub fn covers_land(tis: &TisTable, land: Code, share: &ShareRecord) -> bool
    ensures { result ≡ covers tis.now land share.now }
{
    tis.contains(share.territory(), land)
}

/// Whether a later line of the same interest and party covers the land too.
fn is_overruled(tis: &TisTable, land: Code, share: &ShareRecord, later: &[ShareRecord]) -> bool
    ensures { result ≡ list_any (λ other. is_alike share.now other && covers tis.now land other) later.now }
{
    for other in later {
        if share.is_alike(other) && covers_land(tis, land, other) {
            return true;
        }
    }
    false
}
