//! Why words cannot be split by.

ghost use Rattle.std.specs.Prelude.{◌≡◌};

use thiserror::Error;

/// Why the words cannot be split by. Places count from 1.
#[derive(Clone, Copy, Debug, PartialEq, Eq, Error)]
pub enum PairFault {
    /// The word at this place is not PARTY=SHARE.
    #[error("word {0} is not PARTY=SHARE")]
    Pair(u64),
    /// The party at this place was named before.
    #[error("the party of word {0} was named before")]
    Name(u64),
    /// The share at this place is over 100.00 per cent.
    #[error("the share of word {0} is over 10000, which is 100.00 per cent")]
    Share(u64),
    /// There are more than 256 pairs.
    #[error("there are more than 256 pairs")]
    Many,
    /// A growth of memory was refused.
    #[error("memory ran out")]
    Memory,
}

impl PairFault {
    ghost use Rattle.pair_split.specs.PairFault.{number_of_fault, place_of_fault};

    /// The fault's number: 1 to 5, in the order above.
    pub fn number(&self) -> u8
        ensures { result ≡ number_of_fault self.now }
    {
        match self {
            PairFault::Pair(_) => 1,
            PairFault::Name(_) => 2,
            PairFault::Share(_) => 3,
            PairFault::Many => 4,
            PairFault::Memory => 5,
        }
    }

    /// The place of the word at fault, from 1, where it is one word's.
    pub fn place(&self) -> Option<u64>
        ensures { result ≡ place_of_fault self.now }
    {
        match *self {
            PairFault::Pair(place) => Some(place),
            PairFault::Name(place) => Some(place),
            PairFault::Share(place) => Some(place),
            PairFault::Many | PairFault::Memory => None,
        }
    }
}
