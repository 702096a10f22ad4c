//! Who contends for the units that rounding down leaves.

ghost use Rattle.std.specs.Prelude.{◌≡◌, ◌<◌, ◌≤◌};
ghost use Rattle.line_split.specs.declared.TheConstants.{MOST_CLAIMED};
ghost use Rattle.line_split.specs.LargestRemainder.{comes_before};
ghost use Rattle.line_split.specs.Contenders.{place_of, place_and_remainder};

use std::cmp::Reverse;

/// How many places there can be.
pub const PLACES: u64 = 512;

/// A participant that contends for a unit, by its remainder and its place: a greater remainder comes first,
/// and among equal ones the earlier place. Its precedence is one number, so that one test tells which of two
/// comes first: the remainder times `PLACES`, and how many places come after its own.
#[derive(Clone, Copy, PartialEq, Eq, PartialOrd, Ord)]
pub struct Contender {
    pub precedence: Reverse<u64>,
}

impl Contender {
    /// The contender at a place, with its remainder.
    #[inline]
    pub fn of(remainder: u64, place: usize) -> Contender
        requires remainder { remainder ≤ MOST_CLAIMED }
        requires place { place < PLACES }
        ensures { place_and_remainder result ≡ (place, remainder) }
    {
        Contender {
            precedence: Reverse(remainder * PLACES + (PLACES - 1 - place as u64)),
        }
    }

    /// Its place among the participants.
    #[inline]
    pub fn place(self) -> usize
        ensures { result ≡ place_of self }
    {
        (PLACES - 1 - self.precedence.0 % PLACES) as usize
    }

    /// Whether it comes before another.
    #[inline]
    pub fn comes_before(self, other: Contender) -> bool
        ensures { result ≡ comes_before (place_and_remainder self) (place_and_remainder other) }
    {
        self.precedence.0 > other.precedence.0
    }
}
