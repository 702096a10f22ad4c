//! Tables `from,to`, by which the values of an export become works, territories and rights.
#![tactic(auto)]

mod kind;
pub mod laws;
mod map_fault;
mod value_map;

pub use kind::Kind;
pub use map_fault::MapFault;
pub use value_map::{MOST_VALUES, ValueMap};
