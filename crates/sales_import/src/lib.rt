//! The rows of a sales report made into usage lines, and into a table of those that are rejected.
#![tactic(auto)]

mod exporting;
mod going;
mod import_fault;
mod importing;
pub mod laws;
mod mapping;
mod page;
mod reasons;
mod summary;
mod tally;
mod telling;

pub use exporting::import_export;
pub use import_fault::ImportFault;
pub use importing::import;
pub use mapping::{Mapping, Maps, Wanted};
pub use reasons::{REASON_COUNT, all_reasons, words};
pub use summary::Summary;
pub use tally::Tally;
pub use telling::summary_text;
