//! Mailboxes and a pool that see how a run opened them and reads them: with how many nodes, and whether so many readers
//! take at once.

use crate::doubles::watched::{WatchedMail, WatchedPool, Watcher};
use std::alloc::{AllocError, Global};
use std::sync::atomic::{AtomicBool, AtomicU64, Ordering};
use std::thread;

/// The most turns that a take waits for others.
const MOST_TURNS: u32 = 1_000_000;

/// Holds the first take of each of the first mailboxes until all of these have come. Where one reader has two of them, the
/// first waits in vain: it gives up after so many turns, and nobody waits from then on.
#[derive(Drop)]
pub struct ReaderRoll {
    /// How many mailboxes wait for each other.
    readers: u64,
    /// A bit for each of them that has come.
    come: AtomicU64,
    is_given_up: AtomicBool,
    /// How many nodes the mailboxes were opened with, the last time.
    nodes: AtomicU64,
}

impl ReaderRoll {
    fn of(readers: u64) -> ReaderRoll {
        ReaderRoll {
            readers,
            come: AtomicU64::new(0),
            is_given_up: AtomicBool::new(false),
            nodes: AtomicU64::new(0),
        }
    }

    /// Whether all have come, and none gave up.
    fn is_full(&self) -> bool {
        u64::from(self.come.load(Ordering::SeqCst).count_ones()) >= self.readers
            && !self.is_given_up.load(Ordering::SeqCst)
    }

    fn wait(&self) {
        for _ in 0..MOST_TURNS {
            if self.is_full() || self.is_given_up.load(Ordering::SeqCst) {
                return;
            }
            thread::yield_now();
        }
        self.is_given_up.store(true, Ordering::SeqCst);
    }
}

impl Watcher for ReaderRoll {
    fn at_open(&self, nodes: u64) {
        self.nodes.store(nodes, Ordering::SeqCst);
    }

    fn before_take(&self, mailbox: u64) {
        if mailbox >= self.readers {
            return;
        }
        let bit = 1u64 << (mailbox % 64);
        if self.come.fetch_or(bit, Ordering::SeqCst) & bit == 0 {
            self.wait();
        }
    }

    fn after_item(&self) {}
}

/// Mailboxes of another kind that hold the first take of each of the first until all of these have come.
pub type RollMail<M> = WatchedMail<M, ReaderRoll>;

impl<M: Drop> WatchedMail<M, ReaderRoll> {
    /// Mailboxes of this kind, with none opened, of which so many wait for each other: 1 to 64.
    pub fn new(alloc: Global, mail: M, readers: u64) -> Result<RollMail<M>, AllocError> {
        WatchedMail::of(alloc, mail, ReaderRoll::of(readers))
    }

    /// How many nodes each was opened with.
    pub fn nodes(&self) -> u64 {
        self.watcher().nodes.load(Ordering::SeqCst)
    }

    /// Whether so many readers took from them at once.
    pub fn has_met(&self) -> bool {
        self.watcher().is_full()
    }
}

/// A pool of another kind that holds the first take of each of its first mailboxes until all of these have come.
pub type RollPool<P> = WatchedPool<P, ReaderRoll>;

impl<P: Drop> WatchedPool<P, ReaderRoll> {
    /// A pool of this kind, which was not opened, of whose mailboxes so many wait for each other: 1 to 64.
    pub fn new(alloc: Global, pool: P, readers: u64) -> Result<RollPool<P>, AllocError> {
        WatchedPool::of(alloc, pool, ReaderRoll::of(readers))
    }

    /// How many nodes it was opened with.
    pub fn nodes(&self) -> u64 {
        self.watcher().nodes.load(Ordering::SeqCst)
    }

    /// Whether so many readers took from it at once.
    pub fn has_met(&self) -> bool {
        self.watcher().is_full()
    }
}
