//! Why there is no next row.

use std::io;
use thiserror::Error;

/// Why there is no next row of an export.
#[derive(Debug, Drop, Error)]
pub enum RowFault {
    /// A read was refused.
    #[error("{0}")]
    Refused(io::Error),
    /// A growth of memory was refused.
    #[error("memory ran out")]
    Memory,
}
