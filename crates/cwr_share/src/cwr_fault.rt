//! Why bytes are no CWR file.

use csv_table::FileFault;
use std::alloc::{AllocError, AllocFailed};
use thiserror::Error;

/// Why bytes are no CWR file. Every line is counted, from 1, whatever its type.
#[derive(Clone, Copy, Debug, PartialEq, Eq, Error)]
pub enum CwrFault {
    /// The line ends before the last field that has to be in it: NWR and REV before byte 82, SPT before
    /// byte 54, SWT before byte 48.
    #[error("line {0} is too short")]
    Short(u64),
    /// A collection share is no number up to 100.00 per cent, and no blank.
    #[error("a share of line {0} is not five digits from 00000 to 10000 or five spaces")]
    Share(u64),
    /// The inclusion/exclusion indicator is another letter.
    #[error("the indicator of line {0} is not I, E or a space")]
    Mark(u64),
    /// The TIS numeric code is no number from 1 on.
    #[error("the territory of line {0} is not four digits from 0001 on")]
    Land(u64),
    /// There is no interested party number, or it has bytes that cannot be printed.
    #[error("the party number of line {0} is blank or not printable")]
    Party(u64),
    /// There is no submitter work number, or it has bytes that cannot be printed.
    #[error("the work number of line {0} is blank or not printable")]
    Work(u64),
    /// The registration has 256 share lines before this one.
    #[error("line {0} is the 257th share line of its registration")]
    Many(u64),
    /// The parties of the registrations in force are paid to more than 16,383 accounts.
    #[error("there are more than 16383 payees")]
    Accounts,
    /// Memory ran out.
    #[error("memory ran out")]
    Memory,
}

impl FileFault for CwrFault {
    ghost use Rattle.cwr_share.specs.CwrFile.{number_of_fault, place_of_fault};

    ghost number_in = { number_of_fault };

    ghost place_in = { place_of_fault };

    // The number is 1 to 9, in the order above.
    fn number(&self) -> u8 {
        match self {
            CwrFault::Short(_) => 1,
            CwrFault::Share(_) => 2,
            CwrFault::Mark(_) => 3,
            CwrFault::Land(_) => 4,
            CwrFault::Party(_) => 5,
            CwrFault::Work(_) => 6,
            CwrFault::Many(_) => 7,
            CwrFault::Accounts => 8,
            CwrFault::Memory => 9,
        }
    }

    fn place(&self) -> Option<u64> {
        match *self {
            CwrFault::Short(line)
            | CwrFault::Share(line)
            | CwrFault::Mark(line)
            | CwrFault::Land(line)
            | CwrFault::Party(line)
            | CwrFault::Work(line)
            | CwrFault::Many(line) => Some(line),
            CwrFault::Accounts | CwrFault::Memory => None,
        }
    }
}

impl From<AllocError> for CwrFault {
    ghost use Rattle.std.specs.Prelude.{◌≡◌};
    ghost use Rattle.cwr_share.specs.declared.cwr_fault.CwrFault.TheVariants.{Memory};

    ghost from_gives = { λ _ fault. fault ≡ Memory };

    fn from(_: AllocError) -> CwrFault {
        CwrFault::Memory
    }
}

impl<T: Drop> From<AllocFailed<T>> for CwrFault {
    ghost use Rattle.std.specs.Prelude.{◌≡◌};
    ghost use Rattle.cwr_share.specs.declared.cwr_fault.CwrFault.TheVariants.{Memory};

    ghost from_gives = { λ _ fault. fault ≡ Memory };

    fn from(_: AllocFailed<T>) -> CwrFault {
        CwrFault::Memory
    }
}
