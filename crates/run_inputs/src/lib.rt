//! The inputs of a distribution run: a table of territories, a table of payees where there is one, a CWR file and a
//! table of usage lines; and what they are refused for.
#![tactic(auto)]

mod fault;
mod inputs;
pub mod laws;
mod reading;

pub use fault::Fault;
pub use inputs::{Input, Inputs, Tables};
pub use reading::{read_inputs, read_inputs_in_threads, read_territories, read_usage};
