//! What the threads of a run tell each other, so that none looks in vain or waits longer than it has to.
//!
//! Workers send postings to mailboxes, and readers take them. A worker tells the reader of a mailbox that something came into it,
//! and a thread that waits sleeps until another has made what it waits for. All of it is a hint: a mailbox may have something of which
//! nobody told, a thread may be woken for nothing, and a wake-up may never come. That costs time alone, if the reader looks into all
//! its mailboxes where `ReaderSignals::must_look_everywhere` says so, and each thread looks again for itself after a wait.
#![tactic(auto)]

mod reader;
mod ring;
mod sleeper;
#[cfg(test)]
mod tests;
mod turn;
mod worker;

use crate::ring::Ring;
use crate::sleeper::Sleeper;
use crossbeam_utils::CachePadded;
pub use reader::ReaderSignals;
use std::alloc::{AllocError, Global};
use std::sync::atomic::{AtomicU64, Ordering};
pub use turn::Turn;
pub use worker::WorkerSignals;

/// For so many workers and so many readers there is room; others get no hints.
const MOST_THREADS: usize = 8;

/// How many microseconds a thread sleeps at most: a wake-up that never comes costs no more than this.
const LONGEST: u64 = 2_000;

/// What a reader waits for: something from any worker.
const ANY: u64 = 0;

/// What the threads of a run share.
#[derive(Drop)]
pub struct Signals {
    /// The ring of each worker and reader: those of the first worker in order of the readers, then those of the second.
    rings: Vec<Ring>,
    /// Where each worker sleeps.
    workers: Vec<CachePadded<Sleeper>>,
    /// Where each reader sleeps.
    readers: Vec<CachePadded<Sleeper>>,
    /// How many workers have sent all that they had.
    ended: CachePadded<AtomicU64>,
    /// After how many postings a worker uses a node again, where it has the same nodes for all mailboxes.
    nodes: Option<u64>,
    /// How many microseconds a thread sleeps at most.
    longest: u64,
}

impl Signals {
    /// Those of so many workers and readers, of whom none has told anything yet. `nodes`: after how many postings a worker uses a
    /// node again, where it has the same nodes for all mailboxes.
    pub fn open(
        alloc: Global,
        workers: u64,
        readers: u64,
        nodes: Option<u64>,
    ) -> Result<Signals, AllocError> {
        let mut rings = Vec::new(alloc);
        for _ in 0..workers.wrapping_mul(readers) {
            rings.push(Ring::open(alloc)?)?;
        }
        Ok(Signals {
            rings,
            workers: awake(alloc, workers)?,
            readers: awake(alloc, readers)?,
            ended: CachePadded::new(AtomicU64::new(0)),
            nodes,
            longest: LONGEST,
        })
    }

    /// The ring of a worker and a reader, both counted from 0.
    fn ring(&self, worker: usize, reader: usize) -> Option<&Ring> {
        self.rings.get(worker.wrapping_mul(self.readers.len()).wrapping_add(reader))
    }

    /// The reader of an account: the accounts are dealt out in turn.
    fn reader_of(&self, account: usize) -> usize {
        account.checked_rem(self.readers.len()).unwrap_or(0)
    }

    /// Whether every worker has sent all that it had.
    fn have_ended(&self) -> bool {
        self.ended.load(Ordering::SeqCst) >= self.workers.len() as u64
    }

    /// Says that one more worker has sent all that it had.
    fn end(&self) {
        self.ended.fetch_add(1, Ordering::SeqCst);
        for reader in &self.readers {
            reader.wake(ANY);
        }
    }
}

/// A place to sleep for each of so many threads, which are awake.
fn awake(alloc: Global, threads: u64) -> Result<Vec<CachePadded<Sleeper>>, AllocError> {
    let mut all = Vec::new(alloc);
    for _ in 0..threads {
        all.push(CachePadded::new(Sleeper::new()))?;
    }
    Ok(all)
}
