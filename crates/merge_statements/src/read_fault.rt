//! Why there is no next line.

use std::io;
use thiserror::Error;

/// Why there is no next line of a text.
#[derive(Debug, Drop, Error)]
pub enum ReadFault {
    /// A read was refused.
    #[error("{0}")]
    Refused(io::Error),
    /// No line feed ends the last line.
    #[error("the last line has no line feed at its end")]
    Unended,
    /// No line feed stands in the next 32,768 bytes.
    #[error("a line has more than 32767 bytes")]
    TooLong,
}
