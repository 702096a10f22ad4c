//! How texts and figures of a run stand in documents that people read: in pages of HTML and their style sheets, in CSV
//! that a spreadsheet opens, and in names of files.
#![tactic(auto)]

mod escaped;
mod figures;
mod file_names;
mod formulas;
pub mod laws;
mod shown;
mod styled;

pub use escaped::add_escaped;
pub use figures::{MOST_DECIMALS, add_amount, add_count, add_last_digits};
pub use file_names::add_file_name;
pub use formulas::add_guarded;
pub use shown::{add_code, add_shown};
pub use styled::add_styled;
