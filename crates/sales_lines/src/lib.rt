//! What becomes of a row of a sales report: a usage line, a reason to reject it, or nothing.
#![tactic(auto)]

mod column_fault;
mod columns;
mod outcome;
mod reason;
mod settings;
mod source;

pub use column_fault::ColumnFault;
pub use columns::MOST_COLUMNS;
pub use outcome::{Outcome, SalesLine};
pub use reason::Reason;
pub use settings::{Condition, Settings};
pub use source::Source;
