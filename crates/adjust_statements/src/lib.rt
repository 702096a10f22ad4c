//! The differences between two texts of statements of the same usage lines: between what was paid and what is right.
#![tactic(auto)]

mod adjusting;
mod counting;
mod payee;
mod refusal;
mod rests;
mod sums;
mod taking;
mod writing;

pub use adjusting::adjust;
pub use refusal::AdjustRefusal;
