//! Amounts that are written as decimal numbers, exactly: `-12.34` is -1234 hundredths.
#![tactic(auto)]

mod amount;
mod digits;
pub mod laws;
mod scale;

pub use amount::{AmountFault, Mark, units_of};
pub use digits::MOST_AMOUNT_BYTES;
pub use scale::MOST_PLACES;
