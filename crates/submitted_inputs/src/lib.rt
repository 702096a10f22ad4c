//! The inputs of a distribution run over the files of several submitters: tables of territories, of payees, of works
//! and of usage lines, and a CWR file of each submitter; and what they are refused for.
#![tactic(auto)]

mod fault;
mod files;
mod inputs;
mod reading;

pub use fault::SubmittedFault;
pub use files::{SubmitterFiles, read_with_text};
pub use inputs::SubmittedTables;
pub use reading::{read_payees_if_given, read_submitted};
