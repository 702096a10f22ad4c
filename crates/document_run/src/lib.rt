//! The documents of a run: its inputs in, all documents of the distribution out, written to a folder.
#![tactic(auto)]

mod names;
mod one_file;
mod submitters;
mod tables;
mod wording;

pub use one_file::document_files;
pub use submitters::{SubmittedRun, document_submitted};
pub use wording::Wording;
