//! What is unusual in the form of a file, and does not keep a run from reading it: control counts of a CWR file that do
//! not agree with it, record types that CWR 2.2 does not have, columns that may be shifted, line ends, and quotes.
#![tactic(auto)]

mod controls;
mod ends;
mod quotes;
mod shifted;
mod types;

pub use controls::{Controls, Counted, Difference, control_counts};
pub use ends::has_returns_alone;
pub use quotes::open_quote;
pub use shifted::shifted_records;
pub use types::{ForeignType, ForeignTypes, foreign_types};
