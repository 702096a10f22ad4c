//! Why bytes are no table of works, or one that a run cannot take.

use csv_table::FileFault;
use std::alloc::AllocError;
use thiserror::Error;

/// Why bytes are no table of works, or one that a run cannot take. Rows count from 0, the header's.
#[derive(Clone, Copy, Debug, PartialEq, Eq, Error)]
pub enum WorksFault {
    /// Row 0 is missing or is not the header, or another row has more or fewer than four fields.
    #[error("row {0} is not work,submitter,number,title")]
    Csv(u64),
    /// The work of this row is not 1 to 64 bytes of printable ASCII.
    #[error("the work of row {0} is not 1 to 64 bytes of printable ASCII")]
    Work(u64),
    /// No file is of the submitter of this row.
    #[error("no file is of the submitter of row {0}")]
    Submitter(u64),
    /// The number of this row, without the spaces at its ends, is not 1 to 14 bytes of printable ASCII.
    #[error("the number of row {0} is not 1 to 14 bytes of printable ASCII")]
    Number(u64),
    /// An earlier row links the registration of this one.
    #[error("the registration of row {0} is of a work already")]
    Twice(u64),
    /// There are more than 1,048,576 rows.
    #[error("there are more than 1048576 rows")]
    Rows,
    /// With this row, the parties of the registrations in force of its work have more than 256 payees.
    #[error("with row {0} its work has more than 256 payees")]
    Many(u64),
    /// The parties of all linked registrations in force have more than 16,383 payees.
    #[error("there are more than 16383 payees")]
    Accounts,
    /// A growth of memory was refused.
    #[error("memory ran out")]
    Memory,
}

impl FileFault for WorksFault {
    ghost use Rattle.linked_works.specs.WorksTable.{number_of_fault, place_of_fault};

    ghost number_in = { number_of_fault };

    ghost place_in = { place_of_fault };

    // The number is 1 to 9, in the order above.
    fn number(&self) -> u8 {
        match self {
            WorksFault::Csv(_) => 1,
            WorksFault::Work(_) => 2,
            WorksFault::Submitter(_) => 3,
            WorksFault::Number(_) => 4,
            WorksFault::Twice(_) => 5,
            WorksFault::Rows => 6,
            WorksFault::Many(_) => 7,
            WorksFault::Accounts => 8,
            WorksFault::Memory => 9,
        }
    }

    fn place(&self) -> Option<u64> {
        match *self {
            WorksFault::Csv(row)
            | WorksFault::Work(row)
            | WorksFault::Submitter(row)
            | WorksFault::Number(row)
            | WorksFault::Twice(row)
            | WorksFault::Many(row) => Some(row),
            WorksFault::Rows | WorksFault::Accounts | WorksFault::Memory => None,
        }
    }
}

impl From<AllocError> for WorksFault {
    ghost use Rattle.std.specs.Prelude.{◌≡◌};
    ghost use Rattle.linked_works.specs.declared.works_fault.WorksFault.TheVariants.{Memory};

    ghost from_gives = { λ _ fault. fault ≡ Memory };

    fn from(_: AllocError) -> WorksFault {
        WorksFault::Memory
    }
}
