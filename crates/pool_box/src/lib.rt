//! A pool between threads: several senders, several mailboxes with one receiver each, and a tally that knows at the end
//! that what each receiver got of each sender is the first part of what that sender sent there.
//!
//! `Pool` is what every kind of pool does, and all that a caller may know of it. `PoolMail` has one table of nodes for all
//! mailboxes, over atomic words.
#![tactic(auto)]

mod pool;
mod pool_mail;

pub use pool::Pool;
pub use pool_mail::{PoolHeld, PoolMail, PoolReceiver, PoolSender, PoolTally};
pub use queue_core::{Item, Posted, Took};
