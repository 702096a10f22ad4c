//! Why a word names no column.

use std::alloc::AllocError;
use thiserror::Error;

/// Why a word names no column of an export.
#[derive(Clone, Copy, Debug, PartialEq, Eq, Error)]
pub enum ColumnFault {
    /// It is the name of a column, and there is no header.
    #[error("a column is named, and there is no header")]
    NoHeader,
    /// No field of the header has this name.
    #[error("the header has no such column")]
    None,
    /// More than one field of the header has this name.
    #[error("the header has more than one such column")]
    Many,
    /// A growth of memory was refused.
    #[error("memory ran out")]
    Memory,
}

impl From<AllocError> for ColumnFault {
    ghost use Rattle.std.specs.Prelude.{◌≡◌};
    ghost use Rattle.sales_lines.specs.declared.column_fault.ColumnFault.TheVariants.{Memory};

    ghost from_gives = { λ _ fault. fault ≡ Memory };

    fn from(_: AllocError) -> ColumnFault {
        ColumnFault::Memory
    }
}
