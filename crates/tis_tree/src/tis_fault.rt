//! Why bytes are no table of territories.

use csv_table::FileFault;
use std::alloc::AllocError;
use thiserror::Error;

/// Why bytes are no table of territories. Rows count from 0, the header's.
#[derive(Clone, Copy, Debug, PartialEq, Eq, Error)]
pub enum TisFault {
    /// Row 0 is missing or is not the header, or another row has more or fewer than two fields.
    #[error("row {0} is not code,groups")]
    Csv(u64),
    /// The code of this row is not one to four digits with a value from 1 on.
    #[error("the code of row {0} is not a number from 1 to 9999")]
    Code(u64),
    /// An earlier row has the code of this one.
    #[error("the code of row {0} has a row already")]
    Twice(u64),
    /// A group of this row is not a code, or not the code of an earlier row.
    #[error("a group of row {0} is not the code of an earlier row")]
    Group(u64),
    /// There are more than 2048 rows.
    #[error("there are more than 2048 rows")]
    Rows,
    /// A growth of memory was refused.
    #[error("memory ran out")]
    Memory,
}

impl FileFault for TisFault {
    ghost use Rattle.tis_tree.specs.TisRows.{number_of_fault, place_of_fault};

    ghost number_in = { number_of_fault };

    ghost place_in = { place_of_fault };

    // The number is 1 to 6, in the order above.
    fn number(&self) -> u8 {
        match self {
            TisFault::Csv(_) => 1,
            TisFault::Code(_) => 2,
            TisFault::Twice(_) => 3,
            TisFault::Group(_) => 4,
            TisFault::Rows => 5,
            TisFault::Memory => 6,
        }
    }

    fn place(&self) -> Option<u64> {
        match *self {
            TisFault::Csv(row)
            | TisFault::Code(row)
            | TisFault::Twice(row)
            | TisFault::Group(row) => Some(row),
            TisFault::Rows | TisFault::Memory => None,
        }
    }
}

impl From<AllocError> for TisFault {
    ghost use Rattle.std.specs.Prelude.{◌≡◌};
    ghost use Rattle.tis_tree.specs.declared.tis_fault.TisFault.TheVariants.{Memory};

    ghost from_gives = { λ _ fault. fault ≡ Memory };

    fn from(_: AllocError) -> TisFault {
        TisFault::Memory
    }
}
