//! Why a run has no statements.

ghost use Rattle.std.specs.Prelude.{◌≡◌, None};

use std::alloc::AllocError;
use thiserror::Error;

/// Why a run has no statements. Its inputs are as they were.
#[derive(Clone, Copy, Debug, PartialEq, Eq, Error)]
pub enum RunFault {
    /// Memory or a thread was refused.
    #[error("out of room")]
    Room,
}

impl RunFault {
    /// The fault's number, 1.
    pub fn number(&self) -> u8
        ensures { result ≡ 1 }
    {
        match self {
            RunFault::Room => 1,
        }
    }

    /// The row or line at fault: there is none.
    pub fn place(&self) -> Option<u64>
        ensures { result ≡ None }
    {
        None
    }
}

impl From<AllocError> for RunFault {
    fn from(_: AllocError) -> RunFault {
        RunFault::Room
    }
}
