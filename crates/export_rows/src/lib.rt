//! The rows of an export of any length, one after another.
#![tactic(auto)]

mod delimiter;
mod export_rows;
pub mod laws;
mod retrying;
mod row;
mod row_fault;

pub use delimiter::Delimiter;
pub use export_rows::ExportRows;
pub use row::Row;
pub use row_fault::RowFault;
