//! Mailboxes and a pool that count what is taken from them.

use crate::doubles::watched::{WatchedMail, WatchedPool, Watcher};
use std::alloc::{AllocError, Global};
use std::sync::atomic::{AtomicU64, Ordering};

/// Counts items that were taken.
#[derive(Drop)]
pub struct Counter {
    items: AtomicU64,
}

impl Counter {
    fn new() -> Counter {
        Counter {
            items: AtomicU64::new(0),
        }
    }

    fn count(&self) -> u64 {
        self.items.load(Ordering::SeqCst)
    }
}

impl Watcher for Counter {
    fn at_open(&self, _nodes: u64) {}

    fn before_take(&self, _mailbox: u64) {}

    fn after_item(&self) {
        self.items.fetch_add(1, Ordering::SeqCst);
    }
}

/// Mailboxes of another kind that count the items which are taken from any of them.
pub type CountingMail<M> = WatchedMail<M, Counter>;

impl<M: Drop> WatchedMail<M, Counter> {
    /// Mailboxes of this kind, with nothing counted.
    pub fn new(alloc: Global, mail: M) -> Result<CountingMail<M>, AllocError> {
        WatchedMail::of(alloc, mail, Counter::new())
    }

    /// How many items were taken from all the mailboxes that were opened.
    pub fn takes(&self) -> u64 {
        self.watcher().count()
    }
}

/// A pool of another kind that counts the items which are taken from any of its mailboxes.
pub type CountingPool<P> = WatchedPool<P, Counter>;

impl<P: Drop> WatchedPool<P, Counter> {
    /// A pool of this kind, with nothing counted.
    pub fn new(alloc: Global, pool: P) -> Result<CountingPool<P>, AllocError> {
        WatchedPool::of(alloc, pool, Counter::new())
    }

    /// How many items were taken from all the mailboxes of the pools that were opened.
    pub fn takes(&self) -> u64 {
        self.watcher().count()
    }
}
