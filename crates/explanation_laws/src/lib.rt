//! What explanations and reports over the files of several submitters keep to: laws over their definitions, and no
//! code.
#![tactic(auto)]

pub mod laws;
