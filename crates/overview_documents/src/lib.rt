//! The overview of a distribution: what came in, what became of it, all payees, and the residue by reason.
#![tactic(auto)]

mod balance;
mod heads;
mod lines;
mod page;
mod payees;

pub use lines::{LineSum, sum_of_lines, sum_of_reversals, sum_of_right};
pub use page::{Overview, page_of};
pub use payees::PayeeLine;
