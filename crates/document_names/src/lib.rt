//! What documents call the works, the payees and the territories of a run: a title, a name of a person or a publisher,
//! and a name of a territory, each of which may be missing.
#![tactic(auto)]

mod first_texts;
pub mod laws;
mod name_fault;
mod payees;
mod territories;
mod titles;

pub use first_texts::FirstTexts;
pub use name_fault::NameFault;
pub use payees::{names_in_file, names_in_table, with_names_in_file};
pub use territories::{MOST_TERRITORY_NAMES, TerritoryNames};
pub use titles::{titles_in_file, titles_in_table};
