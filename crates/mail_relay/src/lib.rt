//! What a caller of any mailbox knows: two senders post and end, and the receiver has all that they sent.
#![tactic(auto)]

mod receiving;
mod sending;
mod two_senders;

pub use receiving::receive_all;
pub use sending::{send, send_all, send_end};
pub use two_senders::relay;
