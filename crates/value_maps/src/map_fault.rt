//! Why bytes are no table of values.

use csv_table::FileFault;
use std::alloc::AllocError;
use thiserror::Error;

/// Why bytes are no table of values. Rows count from 0, the header's.
#[derive(Clone, Copy, Debug, PartialEq, Eq, Error)]
pub enum MapFault {
    /// Row 0 is missing or is not the header, or another row has more or fewer than two fields.
    #[error("row {0} is not from,to")]
    Csv(u64),
    /// The value of this row becomes no work.
    #[error("the work of row {0} is not 1 to 64 printable bytes")]
    Work(u64),
    /// The value of this row becomes no territory.
    #[error("the territory of row {0} is not a number from 1 to 9999 of one to four digits")]
    Territory(u64),
    /// The value of this row becomes no right.
    #[error("the right of row {0} is not P, M or S")]
    Right(u64),
    /// An earlier row is of the same value.
    #[error("the value of row {0} has a row already")]
    Twice(u64),
    /// There are more than 4,194,304 rows.
    #[error("there are more than 4194304 rows")]
    Rows,
    /// A growth of memory was refused.
    #[error("memory ran out")]
    Memory,
}

impl FileFault for MapFault {
    ghost use Rattle.value_maps.specs.Maps.{number_of_fault, place_of_fault};

    ghost number_in = { number_of_fault };

    ghost place_in = { place_of_fault };

    // The number is 1 to 7, in the order above.
    fn number(&self) -> u8 {
        match self {
            MapFault::Csv(_) => 1,
            MapFault::Work(_) => 2,
            MapFault::Territory(_) => 3,
            MapFault::Right(_) => 4,
            MapFault::Twice(_) => 5,
            MapFault::Rows => 6,
            MapFault::Memory => 7,
        }
    }

    fn place(&self) -> Option<u64> {
        match *self {
            MapFault::Csv(row)
            | MapFault::Work(row)
            | MapFault::Territory(row)
            | MapFault::Right(row)
            | MapFault::Twice(row) => Some(row),
            MapFault::Rows | MapFault::Memory => None,
        }
    }
}

impl From<AllocError> for MapFault {
    ghost use Rattle.std.specs.Prelude.{◌≡◌};
    ghost use Rattle.value_maps.specs.declared.map_fault.MapFault.TheVariants.{Memory};

    ghost from_gives = { λ _ fault. fault ≡ Memory };

    fn from(_: AllocError) -> MapFault {
        MapFault::Memory
    }
}
