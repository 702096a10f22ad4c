//! Why a usage line pays what it pays: the registration in force, the share lines that decide, the claims, and how each portion
//! comes about, from the very terms of the rules.
#![tactic(auto)]

mod claimed;
mod explanation;
pub mod laws;
mod rows;
mod submitted;
mod submitted_files;
mod submitted_rows;

pub use explanation::explain;
pub use rows::right_word;
pub use submitted::explain_submitted;
