//! The tables of works and of payees to begin with, of the CWR files of submitters wherever these are read.
//!
//! `table_of` reads the files in order, refuses the first that cannot be read or has a fault, and answers a table with
//! the rows of all of them.
#![tactic(auto)]

mod making;

pub use making::{StartingTable, table_of};
