//! Why bytes are no table of names of territories.

use csv_table::FileFault;
use std::alloc::AllocError;
use thiserror::Error;

/// Why bytes are no table of names of territories. Rows count from 0, the header's.
#[derive(Clone, Copy, Debug, PartialEq, Eq, Error)]
pub enum NameFault {
    /// Row 0 is missing or is not the header, or another row has more or fewer than two fields.
    #[error("row {0} is not code,name")]
    Csv(u64),
    /// The code of this row is not a TIS numeric code.
    #[error("the code of row {0} is not a number from 1 to 9999 of one to four digits")]
    Code(u64),
    /// An earlier row has the code of this one.
    #[error("the code of row {0} has a row already")]
    Twice(u64),
    /// There are more than 9,999 rows.
    #[error("there are more than 9999 rows")]
    Rows,
    /// A growth of memory was refused.
    #[error("memory ran out")]
    Memory,
}

impl FileFault for NameFault {
    ghost use Rattle.document_names.specs.Territories.{number_of_fault, place_of_fault};

    ghost number_in = { number_of_fault };

    ghost place_in = { place_of_fault };

    // The number is 1 to 5, in the order above.
    fn number(&self) -> u8 {
        match self {
            NameFault::Csv(_) => 1,
            NameFault::Code(_) => 2,
            NameFault::Twice(_) => 3,
            NameFault::Rows => 4,
            NameFault::Memory => 5,
        }
    }

    fn place(&self) -> Option<u64> {
        match *self {
            NameFault::Csv(row) | NameFault::Code(row) | NameFault::Twice(row) => Some(row),
            NameFault::Rows | NameFault::Memory => None,
        }
    }
}

impl From<AllocError> for NameFault {
    ghost use Rattle.std.specs.Prelude.{◌≡◌};
    ghost use Rattle.document_names.specs.declared.name_fault.NameFault.TheVariants.{Memory};

    ghost from_gives = { λ _ fault. fault ≡ Memory };

    fn from(_: AllocError) -> NameFault {
        NameFault::Memory
    }
}
