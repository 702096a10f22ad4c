//! Why bytes are no table of payees.

use csv_table::FileFault;
use std::alloc::AllocError;
use thiserror::Error;

/// Why bytes are no table of payees. Rows count from 0, the header's.
#[derive(Clone, Copy, Debug, PartialEq, Eq, Error)]
pub enum PayeeFault {
    /// Row 0 is missing or is not the header, or another row has more or fewer fields than the header.
    #[error("row {0} has not the fields of the header")]
    Csv(u64),
    /// The party or the payee of this row, without the spaces at its ends, is not 1 to 64 bytes of
    /// printable ASCII.
    #[error("a field of row {0} is not 1 to 64 bytes of printable ASCII")]
    Fields(u64),
    /// An earlier row has the party of this one.
    #[error("the party of row {0} has a row already")]
    Twice(u64),
    /// There are more rows than a table may have.
    #[error("there are too many rows")]
    Rows,
    /// In a table of several submitters' payees: no file is of the submitter of this row.
    #[error("no file is of the submitter of row {0}")]
    Submitter(u64),
    /// A growth of memory was refused.
    #[error("memory ran out")]
    Memory,
}

impl FileFault for PayeeFault {
    ghost use Rattle.cwr_share.specs.PayeeTable.{number_of_fault, place_of_fault};

    ghost number_in = { number_of_fault };

    ghost place_in = { place_of_fault };

    // The number is 1 to 6, in the order above.
    fn number(&self) -> u8 {
        match self {
            PayeeFault::Csv(_) => 1,
            PayeeFault::Fields(_) => 2,
            PayeeFault::Twice(_) => 3,
            PayeeFault::Rows => 4,
            PayeeFault::Submitter(_) => 5,
            PayeeFault::Memory => 6,
        }
    }

    fn place(&self) -> Option<u64> {
        match *self {
            PayeeFault::Csv(row)
            | PayeeFault::Fields(row)
            | PayeeFault::Twice(row)
            | PayeeFault::Submitter(row) => Some(row),
            PayeeFault::Rows | PayeeFault::Memory => None,
        }
    }
}

impl From<AllocError> for PayeeFault {
    ghost use Rattle.std.specs.Prelude.{◌≡◌};
    ghost use Rattle.cwr_share.specs.declared.payee_fault.PayeeFault.TheVariants.{Memory};

    ghost from_gives = { λ _ fault. fault ≡ Memory };

    fn from(_: AllocError) -> PayeeFault {
        PayeeFault::Memory
    }
}
