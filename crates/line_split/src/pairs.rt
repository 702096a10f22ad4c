//! Lists of an account and its claim, as they are handed in.

ghost use Rattle.std.specs.Prelude.{ℕ, ◌+◌, ◌<◌, ◌↔◌, length, IfSome, IfNone, IsTrue};
ghost use Rattle.std.specs.List.Sorted.{IsPermutation, IsNonDecreasingBy};
ghost use Rattle.line_split.specs.FirstPlace.{IsFirstPlace};
ghost use Rattle.line_split.specs.ClaimFault.{IsOver, StandsBefore};

use crate::{Account, FULL_SHARE};

/// The first pair whose claim is over 100.00 per cent.
pub fn first_over(list: &[(Account, u32)]) -> Option<usize>
    ensures found { IfSome result (λ place. (place < length list.now) × IsFirstPlace (IsOver list.now) (place + 1)) }
    ensures none { IfNone result ((i : ℕ) → ¬ IsOver list.now i) }
{
    for place in 0..list.len() {
        if list[place].1 > FULL_SHARE {
            return Some(place);
        }
    }
    None
}

/// The first pair whose account stands at an earlier place.
pub fn first_twice(list: &[(Account, u32)]) -> Option<usize>
    ensures found { IfSome result (λ place. (place < length list.now) × IsFirstPlace (StandsBefore list.now) (place + 1)) }
    ensures none { IfNone result ((i : ℕ) → ¬ StandsBefore list.now i) }
{
    for place in 0..list.len() {
        if stands_before(list, place) {
            return Some(place);
        }
    }
    None
}

/// Whether the account at a place stands at an earlier one too.
fn stands_before(list: &[(Account, u32)], place: usize) -> bool
    requires { place < length list.now }
    ensures { IsTrue result ↔ StandsBefore list.now place }
{
    for earlier in 0..place {
        if list[earlier].0 == list[place].0 {
            return true;
        }
    }
    false
}

/// The pairs by account.
pub fn by_account(mut pairs: Vec<(Account, u32)>) -> Vec<(Account, u32)>
    ensures same { IsPermutation pairs.items result.items }
    ensures rising { IsNonDecreasingBy (λ pair. pair.0) result.items }
{
    pairs.sort_unstable_by_key(|pair| pair.0);
    pairs
}
