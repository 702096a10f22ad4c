//! The table of territories: which of them contains which.
#![tactic(auto)]

mod code;
pub mod laws;
mod places;
mod tis_fault;
mod tis_table;
mod words;

pub use code::Code;
pub use csv_table::FileFault;
pub use tis_fault::TisFault;
pub use tis_table::TisTable;

/// The most rows that a table has.
pub const MOST_ROWS: usize = 2048;
