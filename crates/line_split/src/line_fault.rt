//! Why bytes are no table of usage lines.

use crate::MOST_LINES;
use csv_table::FileFault;
use std::alloc::AllocError;
use thiserror::Error;

/// Why bytes are no table of usage lines. Rows count from 0, the header's.
#[derive(Clone, Copy, Debug, PartialEq, Eq, Error)]
pub enum LineFault {
    /// Row 0 is missing or is not the header, or another row has more or fewer than five fields.
    #[error("row {0} is not usage,work,territory,right,amount")]
    Csv(u64),
    /// The usage or the work of this row is not 1 to 64 printable ASCII bytes.
    #[error("the usage or the work of row {0} is not 1 to 64 printable characters")]
    Fields(u64),
    /// The territory of this row is not one to four digits with a value from 1 on.
    #[error("the territory of row {0} is not a number from 1 to 9999")]
    Territory(u64),
    /// The right of this row is not `P`, `M` or `S`.
    #[error("the right of row {0} is not P, M or S")]
    Right(u64),
    /// The amount of this row is not digits after at most one `-`, or its size is over 1000000000000.
    #[error("the amount of row {0} is not a number from -1000000000000 to 1000000000000")]
    Amount(u64),
    /// There are more than 1000000 lines.
    #[error("there are more than 1000000 lines")]
    Lines,
    /// A growth of memory was refused.
    #[error("memory ran out")]
    Memory,
}

impl FileFault for LineFault {
    ghost use Rattle.line_split.specs.UsageTable.{number_of_fault, place_of_fault};

    ghost number_in = { number_of_fault };

    ghost place_in = { place_of_fault };

    // The number is 1 to 7, in the order above.
    fn number(&self) -> u8 {
        match self {
            LineFault::Csv(_) => 1,
            LineFault::Fields(_) => 2,
            LineFault::Territory(_) => 3,
            LineFault::Right(_) => 4,
            LineFault::Amount(_) => 5,
            LineFault::Lines => 6,
            LineFault::Memory => 7,
        }
    }

    fn place(&self) -> Option<u64> {
        match *self {
            LineFault::Csv(row)
            | LineFault::Fields(row)
            | LineFault::Territory(row)
            | LineFault::Right(row)
            | LineFault::Amount(row) => Some(row),
            LineFault::Lines | LineFault::Memory => None,
        }
    }
}

impl LineFault {
    ghost use Rattle.std.specs.Prelude.{◌≤◌};
    ghost use Rattle.line_split.specs.UsageParts.{IsBehind};

    /// The same fault, of a row that has so many more before it.
    pub(crate) fn behind(self, rows: u64) -> LineFault
        requires { rows ≤ MOST_LINES }
        ensures { IsBehind rows self result }
    {
        let Some(row) = self.place() else {
            return self;
        };
        if row > MOST_LINES - rows {
            return LineFault::Lines;
        }
        let row = rows + row;
        match self {
            LineFault::Csv(_) => LineFault::Csv(row),
            LineFault::Fields(_) => LineFault::Fields(row),
            LineFault::Territory(_) => LineFault::Territory(row),
            LineFault::Right(_) => LineFault::Right(row),
            LineFault::Amount(_) => LineFault::Amount(row),
            LineFault::Lines => LineFault::Lines,
            LineFault::Memory => LineFault::Memory,
        }
    }
}

impl From<AllocError> for LineFault {
    ghost use Rattle.std.specs.Prelude.{◌≡◌};
    ghost use Rattle.line_split.specs.declared.line_fault.LineFault.TheVariants.{Memory};

    ghost from_gives = { λ _ fault. fault ≡ Memory };

    fn from(_: AllocError) -> LineFault {
        LineFault::Memory
    }
}
