//! The document of the residue: what is held back and why, the works with most money first, and what to do.
#![tactic(auto)]

mod page;
mod parts;
mod reasons;
mod sums;
mod tables;

pub use page::{Residue, page_of, sums_of};
pub use reasons::{ReasonSums, add_reasons, amount_of, lines_of};
pub use sums::{HeldSum, sum_of_reason};
