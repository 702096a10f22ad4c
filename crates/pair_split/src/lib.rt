//! One amount divided among parties that are named in words: `PARTY=SHARE`.
#![tactic(auto)]

mod division;
pub mod laws;
mod pair;
mod pair_fault;

pub use division::split_words;
pub use pair::{MOST_PARTY_BYTES, MOST_SHARE_DIGITS, SEPARATOR, word};
pub use pair_fault::PairFault;
