//! Why a text is refused, or cannot be merged.

ghost use Rattle.std.specs.Prelude.{◌≡◌};
ghost use Rattle.merge_statements.specs.Refused.{number_of_fault, refusal_of_field, refusal_of_line, row_of_fault};

use crate::read_fault::ReadFault;
use crate::walk::Wrong;
use std::alloc::AllocError;
use std::io;
use thiserror::Error;

/// What is wrong with a text, and in which row, counted from 1.
#[derive(Clone, Copy, Debug, PartialEq, Eq, Error)]
pub enum StatementFault {
    /// It is no row of four fields, as a run writes them, with a line feed at its end.
    #[error("row {0} is no row of four fields")]
    Row(u64),
    /// A row of this kind cannot stand there: `L`, `S`, `M`, `T` and `R` have an order, and nothing stands behind `R`.
    #[error("row {0} is of a kind that cannot stand there")]
    Kind(u64),
    /// The payee is no name, or is not behind the one before, or is another than the row belongs to; or there is no
    /// reason.
    #[error("row {0} is not of this payee, or has no reason")]
    PayeeOrReason(u64),
    /// The use has no name, or the count is not that of the rows.
    #[error("row {0} has no use, or another count than its rows")]
    UsageOrCount(u64),
    /// The amount is none, or 0, or out of range, or that of a portion after 1,000,000,000,000,000,000 others; or the
    /// total is not that of the rows.
    #[error("row {0} has no amount in range, or another total than its rows")]
    AmountOrTotal(u64),
    /// The text ends before this row.
    #[error("row {0} is missing")]
    End(u64),
}

impl StatementFault {
    /// Its number, by which messages tell it: 1 for the first of the list above, and so on.
    pub fn number(&self) -> u8
        ensures { result ≡ number_of_fault self.now }
    {
        match self {
            StatementFault::Row(_) => 1,
            StatementFault::Kind(_) => 2,
            StatementFault::PayeeOrReason(_) => 3,
            StatementFault::UsageOrCount(_) => 4,
            StatementFault::AmountOrTotal(_) => 5,
            StatementFault::End(_) => 6,
        }
    }

    /// The row that it is in, counted from 1.
    pub fn row(&self) -> u64
        ensures { result ≡ row_of_fault self.now }
    {
        match self {
            StatementFault::Row(row)
            | StatementFault::Kind(row)
            | StatementFault::PayeeOrReason(row)
            | StatementFault::UsageOrCount(row)
            | StatementFault::AmountOrTotal(row)
            | StatementFault::End(row) => *row,
        }
    }
}

/// Why texts cannot be merged.
#[derive(Debug, Drop, Error)]
pub enum Refusal {
    /// A text is refused.
    #[error("{0}")]
    Fault(StatementFault),
    /// Memory was refused.
    #[error("out of room")]
    Memory,
    /// All texts together have more portions, or are of more usage lines, than are counted: 1,000,000,000,000,000,000.
    /// Of one text a portion more than that has no amount in range, so one alone is never refused for this.
    #[error("too many")]
    Many,
    /// A read was refused.
    #[error("{0}")]
    Read(io::Error),
    /// A write was refused.
    #[error("{0}")]
    Write(io::Error),
}

impl Refusal {
    /// What a wrong field of a row is refused for.
    pub(crate) fn of_field(wrong: Wrong, row: u64) -> Refusal
        ensures { result ≡ refusal_of_field wrong row }
    {
        match wrong {
            Wrong::Kind => Refusal::Fault(StatementFault::Kind(row)),
            Wrong::PayeeOrReason => Refusal::Fault(StatementFault::PayeeOrReason(row)),
            Wrong::UsageOrCount => Refusal::Fault(StatementFault::UsageOrCount(row)),
            Wrong::AmountOrTotal => Refusal::Fault(StatementFault::AmountOrTotal(row)),
            Wrong::Memory => Refusal::Memory,
        }
    }

    /// Why there is no next line.
    pub(crate) fn of_line(fault: ReadFault, row: u64) -> Refusal
        ensures { result ≡ refusal_of_line fault row }
    {
        match fault {
            ReadFault::Refused(error) => Refusal::Read(error),
            ReadFault::Unended | ReadFault::TooLong => Refusal::Fault(StatementFault::Row(row)),
        }
    }
}

impl From<AllocError> for Refusal {
    ghost use Rattle.std.specs.Prelude.{◌≡◌};
    ghost use Rattle.merge_statements.specs.declared.refusal.Refusal.TheVariants.{Memory};

    ghost from_gives = { λ _ refusal. refusal ≡ Memory };

    fn from(_: AllocError) -> Refusal {
        Refusal::Memory
    }
}
