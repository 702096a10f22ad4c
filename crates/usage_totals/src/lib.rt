//! What a run makes of usage lines: how many have each reason, what they come to, and where most of the money is that nobody can claim.
#![tactic(auto)]

mod by_key;
pub mod laws;
mod name;
mod reasons;
mod repeats;
mod total;
mod totals;

pub use by_key::Ranked;
pub use name::Name;
pub use repeats::repeated_rows;
pub use total::Total;
pub use totals::{MOST_KEYS, Totals, totals_of};
