//! Tables of rows in a text that people read: each row a question and the answer that is wanted.
//!
//! ```text
//! # a remark
//! [claims two_parties.cwr]
//! W1,276,P => None [(1, 6000), (2, 4000)]
//! W9,276,P =>
//!     an answer of two lines,
//!     each behind four spaces
//! ```
//!
//! A driver goes over the rows of a table (`Rows`), asks each question, and compares what it is answered (`Tally`).
#![tactic(auto)]

mod rows;
mod spelling;
mod tally;

pub use rows::Rows;
pub use spelling::{spelt, written_out};
pub use tally::{Tally, text_of};
