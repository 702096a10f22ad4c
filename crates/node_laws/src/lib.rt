//! What holds in every state of a table of nodes, between any two steps of whichever threads: laws over its rule, and
//! no code.
#![tactic(auto)]

pub mod laws;
