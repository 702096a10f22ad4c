//! What the works of several submitters keep to: laws over the definitions of a registry, and no code.
#![tactic(auto)]

pub mod laws;
