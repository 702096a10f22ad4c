//! The definition of the size of a portion, computed as it stands: slow, and what explains a portion and the tests compare with.

ghost use Rattle.std.specs.Prelude.{◌≡◌, ◌+◌, ◌<◌, ◌≤◌, length};
ghost use Rattle.line_split.specs.declared.TheConstants.{MOST_AMOUNT, MOST_CLAIMED, MOST_CLAIMS};
ghost use Rattle.line_split.specs.Claims.{AreClaims, base_of, counted_claims, participants_of, total_of};
ghost use Rattle.line_split.specs.FairSplit.{value_at};
ghost use Rattle.line_split.specs.LargestRemainder.{comes_before, contenders_of, portion_of, portions_of, quota_of, rank_of, remainder_of, units_left};

use crate::portions::total;
use crate::{Account, Claims, FULL_SHARE, MOST_CLAIMED};

/// How a participant comes to the size of its portion.
#[derive(Clone, Copy, Debug, PartialEq, Eq)]
pub struct Working {
    /// Its share of the base, in hundredths of a per cent.
    pub share: u64,
    /// This share of the amount, rounded down, in minor units.
    pub quota: u64,
    /// What is rounded off, in parts of a unit of which the base makes one.
    pub remainder: u64,
    /// How many participants come before it where units are left.
    pub rank: u64,
    /// In minor units.
    pub portion: u64,
}

/// The size of the portion of the participant at `place`, where an amount of this size is divided. The place after the
/// last claim's is the residue's.
pub fn portion_by_rank(amount: u64, claims: &Claims, place: usize) -> u64
    requires in_range { amount ≤ MOST_AMOUNT }
    requires place { place ≤ length claims.now.list }
    ensures { result ≡ value_at (portions_of amount claims.now.list) place }
{
    working_of(amount, claims, place).portion
}

/// How the participant at `place` comes to it, by counting who comes before it.
pub fn working_of(amount: u64, claims: &Claims, place: usize) -> Working
    requires in_range { amount ≤ MOST_AMOUNT }
    requires place { place ≤ length claims.now.list }
    ensures share { result.share ≡ value_at (participants_of claims.now.list) place }
    ensures quota { result.quota ≡ quota_of amount (base_of claims.now.list) result.share }
    ensures remainder { result.remainder ≡ remainder_of amount (base_of claims.now.list) result.share }
    ensures rank { result.rank ≡ rank_of (contenders_of amount (base_of claims.now.list) (participants_of claims.now.list)) (place, result.remainder) }
    ensures portion { result.portion ≡ portion_of amount (base_of claims.now.list) (participants_of claims.now.list) place result.share }
    ensures few { result.rank ≤ MOST_CLAIMS + 1 }
    ensures small { result.portion ≤ amount }
{
    let base = u64::from(base_for(claims));
    let claims = claims.list();
    let share = share_at(claims, place);
    let quota = amount * share / base;
    let rank = rank_at(amount, base, claims, place);
    let has_unit = rank < left(amount, base, claims);
    Working {
        share,
        quota,
        remainder: amount * share % base,
        rank,
        portion: quota + u64::from(has_unit),
    }
}

/// What a share is a share of, in hundredths of a per cent.
pub fn base_for(claims: &Claims) -> u32
    ensures { result ≡ base_of claims.now.list }
{
    counted(claims.list()).max(FULL_SHARE)
}

/// How many units the quotas leave, where an amount of this size is divided.
pub fn units_left_of(amount: u64, claims: &Claims) -> u64
    requires { amount ≤ MOST_AMOUNT }
    ensures { result ≡ units_left amount (base_of claims.now.list) (participants_of claims.now.list) }
{
    left(amount, u64::from(base_for(claims)), claims.list())
}

/// How many units the quotas leave.
fn left(amount: u64, base: u64, claims: &[(Account, u32)]) -> u64
    requires in_range { amount ≤ MOST_AMOUNT }
    requires claims { AreClaims claims.now }
    requires base { base ≡ base_of claims.now }
    ensures { result ≡ units_left amount base (participants_of claims.now) }
{
    let mut left = amount;
    for place in 0..claims.len() + 1 {
        left -= amount * share_at(claims, place) / base;
    }
    left
}

/// How many participants come before the one at `place`.
fn rank_at(amount: u64, base: u64, claims: &[(Account, u32)], place: usize) -> u64
    requires in_range { amount ≤ MOST_AMOUNT }
    requires claims { AreClaims claims.now }
    requires base { base ≡ base_of claims.now }
    requires place { place ≤ length claims.now }
    ensures rank { result ≡ rank_of (contenders_of amount base (participants_of claims.now))
        (place, remainder_of amount base (value_at (participants_of claims.now) place)) }
    ensures few { result ≤ length claims.now + 1 }
{
    let remainder = amount * share_at(claims, place) % base;
    let mut rank = 0;
    for other in 0..claims.len() + 1 {
        let other_remainder = amount * share_at(claims, other) % base;
        rank += u64::from(comes_before((other, other_remainder), (place, remainder)));
    }
    rank
}

/// Whether a place with its remainder comes before another.
fn comes_before(contender: (usize, u64), other: (usize, u64)) -> bool
    ensures { result ≡ comes_before contender other }
{
    contender.1 > other.1 || (contender.1 == other.1 && contender.0 < other.0)
}

/// A participant's share of the base.
fn share_at(claims: &[(Account, u32)], place: usize) -> u64
    requires claims { AreClaims claims.now }
    requires place { place ≤ length claims.now }
    ensures share { result ≡ value_at (participants_of claims.now) place }
    ensures small { result ≤ MOST_CLAIMED }
{
    let share = if place == claims.len() {
        let counted = counted(claims);
        counted.max(FULL_SHARE) - counted
    } else if total(claims) <= MOST_CLAIMED {
        claims[place].1
    } else {
        0
    };
    u64::from(share)
}

/// What the claims that count come to.
fn counted(claims: &[(Account, u32)]) -> u32
    requires { AreClaims claims.now }
    ensures { result ≡ total_of (counted_claims claims.now) }
{
    let claimed = total(claims);
    if claimed <= MOST_CLAIMED { claimed } else { 0 }
}
