//! Works that several submitters have registered: which registrations are of which work, and what they come to
//! together.
#![tactic(auto)]

pub mod laws;
mod linking;
mod many_payees;
mod passed_over;
mod payee_rows;
mod submitters;
mod works;
mod works_fault;

pub use csv_table::FileFault;
pub use payee_rows::{MOST_SUBMITTER_PAYEES, SubmitterPayees, read_payees};
pub use submitters::{Submitters, is_submitter};
pub use works::{Works, WorksRow};
pub use works_fault::WorksFault;

/// The most rows that a table of works has below its header.
pub const MOST_LINKS: usize = 1_048_576;
