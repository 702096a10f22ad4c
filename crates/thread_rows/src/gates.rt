//! Gates that see what a run does when a worker comes to a line.

use pool_box::PoolMail;
use split_run::{CountingPool, Gate};
use std::sync::atomic::{AtomicBool, AtomicU64, Ordering};
use std::thread;

/// How many turns a worker waits at each line.
const TURNS: u32 = 2_000;

/// A gate that knows whether a worker has come.
#[derive(Drop)]
pub struct Told {
    has_come: AtomicBool,
}

impl Told {
    /// A gate to which nobody has come.
    pub fn new() -> Told {
        Told {
            has_come: AtomicBool::new(false),
        }
    }

    /// Whether a worker has come.
    pub fn has_come(&self) -> bool {
        self.has_come.load(Ordering::SeqCst)
    }
}

impl Gate for Told {
    fn pass(&self, _worker: u64, _line: u64) {
        self.has_come.store(true, Ordering::SeqCst);
    }
}

/// A gate for one worker, at which it waits while a reader could take what it has sent: of the line that it comes with
/// that is nothing yet.
#[derive(Drop)]
pub struct Early<'a> {
    pool: &'a CountingPool<PoolMail>,
    /// How many postings each line has.
    postings: u64,
    /// How many lines it was told.
    told: AtomicU64,
    /// How many of them had something taken.
    late: AtomicU64,
}

impl<'a> Early<'a> {
    /// A gate of a run over this pool, which was told nothing.
    pub fn of(pool: &'a CountingPool<PoolMail>, postings: u64) -> Early<'a> {
        Early {
            pool,
            postings,
            told: AtomicU64::new(0),
            late: AtomicU64::new(0),
        }
    }

    /// How many lines it was told.
    pub fn told(&self) -> u64 {
        self.told.load(Ordering::SeqCst)
    }

    /// How many of them had something taken when it was told.
    pub fn late(&self) -> u64 {
        self.late.load(Ordering::SeqCst)
    }
}

impl<'a> Gate for Early<'a> {
    fn pass(&self, _worker: u64, line: u64) {
        self.told.fetch_add(1, Ordering::SeqCst);
        let of_lines_before = line.wrapping_mul(self.postings);
        for _ in 0..TURNS {
            if self.pool.takes() > of_lines_before {
                self.late.fetch_add(1, Ordering::SeqCst);
                return;
            }
            thread::yield_now();
        }
    }
}
