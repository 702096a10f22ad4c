//! The statements of a run, from its inputs: three, and a table of payees where there is one.
#![tactic(auto)]

pub mod laws;
mod reasons;
mod statements;

pub use run_inputs::{Fault, Inputs};
pub use statements::{Divided, divide, settle, settle_paid, settle_tables_to, settle_to};
