//! The documents of a payee: a sheet of its portions, which a spreadsheet opens, and its statement, a page that people
//! read.
#![tactic(auto)]

mod breakdowns;
mod heads;
pub mod laws;
mod notes;
mod sheet;
mod statement;
mod uses;

pub use sheet::sheet_of;
pub use statement::{Payee, page_of};
pub use uses::add_uses;
