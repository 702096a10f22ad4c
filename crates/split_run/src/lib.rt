//! The threads of a distribution run.
//!
//! A caller names `plan`, `fault` and `gate`, and calls `running`. What the threads do, in order of reading:
//!
//! - `working` is a worker's half of a run, and `working::sending` how it sends a posting;
//! - `reading` is a reader's half;
//! - `mailboxes` is what lies between them: `mailboxes::separate` and `mailboxes::pooled` are its two kinds;
//! - `running` is a whole run: `running::opening` is what it opens before it starts a thread, `running::starting` how it
//!   starts them, and `running` itself puts together what they give back.
//!
//! `laws` is what holds of every run, and `doubles` is for tests.
#![tactic(auto)]

mod doubles;
mod fault;
mod gate;
pub mod laws;
mod mailboxes;
mod plan;
mod reading;
mod running;
mod working;

pub use block_draw::{Draw, Drawer};
pub use doubles::{
    Counter, CountingMail, CountingPool, Meeting, MeetingGate, MeetingMail, MeetingPool,
    ReaderRoll, RollMail, RollPool, WatchedMail, WatchedPool, WatchedReceiver, Watcher,
};
pub use fault::RunFault;
pub use gate::{Gate, NoGate};
pub use plan::Plan;
pub use queue_core::MOST_NODES;
pub use running::{run, run_cut, run_pool, run_pool_cut};
pub use working::{work, work_pool};

/// The most workers, and the most readers, of a run.
pub const MOST_THREADS: u64 = 8;

/// How many usage lines a block has; the last may have fewer.
pub const LINES_IN_BLOCK: usize = 64;

/// The most postings that a usage line has: one for each of 256 parties, and one for the residue.
pub const MOST_POSTINGS: u64 = 257;
