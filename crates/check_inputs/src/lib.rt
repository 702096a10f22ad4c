//! A report on the inputs of a run: every fault of every file, what is in the files that have none, and what a run
//! makes of the usage lines where none has.
#![tactic(auto)]

mod form;
pub mod laws;
mod links;
mod lists;
mod messages;
mod over;
mod reading;
mod remarks;
mod report;
mod submitted;
mod submitted_files;
mod submitted_messages;
mod submitted_sources;
mod submitted_tables;
mod summary;
mod told;
mod unlinked;
mod words;

pub use report::{Checked, File, check};
pub use submitted::check_submitted;
