//! Tables in memory: the rows of a CSV text, and the forms of their fields.
#![tactic(auto)]

mod cuts;
pub mod forms;
pub mod laws;
mod row_table;
mod row_writer;
mod rows;
mod table_reader;

pub use cuts::{cut_in_two, first_piece};
pub use row_table::{FileFault, RowTable};
pub use row_writer::RowWriter;
pub use rows::Rows;
pub use table_reader::{TableReader, read_rows, read_table};
