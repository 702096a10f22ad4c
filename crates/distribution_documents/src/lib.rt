//! All documents of a distribution, written to a folder: the overview, the residue, and the statement and the sheet
//! of each payee, beside the statements for programs.
#![tactic(auto)]

mod documents;
mod folder;
pub mod laws;
mod names;
mod overview;
mod payee_files;
mod residue;
mod writing;

pub use documents::{DocumentFault, Documents};
pub use folder::Folder;
pub use writing::write_documents;
