//! What a caller of any pool knows: two senders post to two mailboxes and end, and the tally has all that they sent.
#![tactic(auto)]

mod posting;
mod receiving;
mod sending;
mod two_mailboxes;

pub use posting::Posting;
pub use receiving::{receive, receive_all};
pub use sending::{send, send_all};
pub use two_mailboxes::relay;
