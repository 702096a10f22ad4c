//! Mailboxes, pools and a gate for tests that look at how a run uses its mail and its threads.

mod counting;
mod meeting;
mod roll;
mod watched;

pub use counting::{Counter, CountingMail, CountingPool};
pub use meeting::{Meeting, MeetingGate, MeetingMail, MeetingPool};
pub use roll::{ReaderRoll, RollMail, RollPool};
pub use watched::{WatchedMail, WatchedPool, WatchedReceiver, Watcher};
