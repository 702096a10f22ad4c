//! The book of a run: the statement of every account, built posting by posting.
#![tactic(auto)]

mod book;
mod journal;
pub mod laws;
mod postings;
mod rows;
mod sheets;
mod text;

pub use book::Book;
pub use journal::Journal;
pub use postings::Posting;
pub use sheets::Sheets;

/// The most accounts that a book has, the residue's included.
pub const MOST_STATEMENTS: usize = 65_535;
