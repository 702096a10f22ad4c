//! Why an import ends before its rows do.

use export_rows::RowFault;
use sales_lines::ColumnFault;
use std::alloc::AllocError;
use std::io;
use thiserror::Error;

/// Why an import ends before its rows do.
#[derive(Debug, Drop, Error)]
pub enum ImportFault {
    /// A read of the export was refused.
    #[error("{0}")]
    Read(io::Error),
    /// A write of the usage lines was refused.
    #[error("{0}")]
    Lines(io::Error),
    /// A write of the rejected rows was refused.
    #[error("{0}")]
    Rejects(io::Error),
    /// The export has no first row, and so no header.
    #[error("there is no header")]
    Headless,
    /// A word does not say where a value stands.
    #[error("{fault}: {word}")]
    Column { fault: ColumnFault, word: String },
    /// A growth of memory was refused.
    #[error("memory ran out")]
    Memory,
}

impl From<AllocError> for ImportFault {
    ghost use Rattle.std.specs.Prelude.{◌≡◌};
    ghost use Rattle.sales_import.specs.declared.import_fault.ImportFault.TheVariants.{Memory};

    ghost from_gives = { λ _ fault. fault ≡ Memory };

    fn from(_: AllocError) -> ImportFault {
        ImportFault::Memory
    }
}

impl From<RowFault> for ImportFault {
    ghost use Rattle.sales_import.specs.SoFar.{IsOfRows};

    ghost from_gives = { λ _ fault. IsOfRows fault };

    fn from(fault: RowFault) -> ImportFault {
        match fault {
            RowFault::Refused(error) => ImportFault::Read(error),
            RowFault::Memory => ImportFault::Memory,
        }
    }
}
