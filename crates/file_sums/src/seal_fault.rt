//! Why a text is no seal.

use csv_table::FileFault;
use std::alloc::AllocError;
use thiserror::Error;

/// Why a text is no seal.
#[derive(Clone, Copy, Debug, PartialEq, Eq, Error)]
pub enum SealFault {
    /// This line, from 1, is neither a comment above all sums nor the sum of a file, or has no line feed at its end.
    #[error("line {0} is no sum of a file, and no comment above the sums")]
    Line(u64),
    /// A growth of memory was refused.
    #[error("memory ran out")]
    Memory,
}

impl FileFault for SealFault {
    ghost use Rattle.file_sums.specs.Shown.{number_of_fault, place_of_fault};

    ghost number_in = { number_of_fault };

    ghost place_in = { place_of_fault };

    // The number is 1 or 2, in the order above.
    fn number(&self) -> u8 {
        match self {
            SealFault::Line(_) => 1,
            SealFault::Memory => 2,
        }
    }

    fn place(&self) -> Option<u64> {
        match *self {
            SealFault::Line(line) => Some(line),
            SealFault::Memory => None,
        }
    }
}

impl From<AllocError> for SealFault {
    ghost use Rattle.std.specs.Prelude.{◌≡◌};
    ghost use Rattle.file_sums.specs.declared.seal_fault.SealFault.TheVariants.{Memory};

    ghost from_gives = { λ _ fault. fault ≡ Memory };

    fn from(_: AllocError) -> SealFault {
        SealFault::Memory
    }
}
