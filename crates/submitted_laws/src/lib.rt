//! What the statements of a run over the files of several submitters keep to: laws over the definitions of statements,
//! and no code.
#![tactic(auto)]

pub mod laws;
