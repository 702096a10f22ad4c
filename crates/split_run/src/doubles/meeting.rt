//! A gate, mailboxes and a pool that hold one thread until others come: so a test sees whether two
//! are at work at once.

use crate::doubles::watched::{WatchedMail, WatchedPool, Watcher};
use crate::gate::Gate;
use std::alloc::{AllocError, Global};
use std::sync::atomic::{AtomicBool, AtomicU64, Ordering};
use std::thread;

/// The most turns that the first take of all waits for another.
const MOST_TURNS: u32 = 1_000_000;

/// Holds the first that comes until others, of another party, have come so many times, or it has
/// waited so many turns.
#[derive(Drop)]
pub struct Meeting {
    /// How often others have to come.
    wanted: u64,
    /// The most turns that the first to come waits.
    most_turns: u32,
    /// The first party that came, counted from 1; 0 until then.
    first: AtomicU64,
    /// How often others came.
    others: AtomicU64,
    has_met: AtomicBool,
}

impl Meeting {
    /// A meeting to which nobody has come.
    pub fn after(wanted: u64, most_turns: u32) -> Meeting {
        Meeting {
            wanted,
            most_turns,
            first: AtomicU64::new(0),
            others: AtomicU64::new(0),
            has_met: AtomicBool::new(false),
        }
    }

    /// Comes as one of this party. The first to come waits.
    pub fn attend(&self, party: u64) {
        let mine = party.wrapping_add(1);
        match self
            .first
            .compare_exchange(0, mine, Ordering::SeqCst, Ordering::SeqCst)
        {
            Ok(_) => self.wait(),
            Err(first) => {
                if first != mine {
                    self.others.fetch_add(1, Ordering::SeqCst);
                }
            }
        }
    }

    fn wait(&self) {
        for _ in 0..self.most_turns {
            if self.others.load(Ordering::SeqCst) >= self.wanted {
                self.has_met.store(true, Ordering::SeqCst);
                return;
            }
            thread::yield_now();
        }
    }

    /// Whether the first was let go by others.
    pub fn has_met(&self) -> bool {
        self.has_met.load(Ordering::SeqCst)
    }
}

/// A gate that holds the first worker until other workers have come to it so many times, or it has
/// waited so many turns.
#[derive(Drop)]
pub struct MeetingGate {
    meeting: Meeting,
}

impl MeetingGate {
    /// A gate that nobody has passed. It lets the first worker go once others have come to it so many
    /// times, and at the latest after so many turns.
    pub fn after(times: u64, most_turns: u32) -> MeetingGate {
        MeetingGate {
            meeting: Meeting::after(times, most_turns),
        }
    }

    /// Whether the first worker was let go by others.
    pub fn has_met(&self) -> bool {
        self.meeting.has_met()
    }
}

impl Gate for MeetingGate {
    fn pass(&self, worker: u64, _line: u64) {
        self.meeting.attend(worker);
    }
}

impl Watcher for Meeting {
    fn at_open(&self, _nodes: u64) {}

    fn before_take(&self, mailbox: u64) {
        self.attend(mailbox % 2);
    }

    fn after_item(&self) {}
}

/// Mailboxes of another kind that hold the first take of all until one of a mailbox of the other
/// parity.
pub type MeetingMail<M> = WatchedMail<M, Meeting>;

impl<M: Drop> WatchedMail<M, Meeting> {
    /// Mailboxes of this kind, with none opened.
    pub fn new(alloc: Global, mail: M) -> Result<MeetingMail<M>, AllocError> {
        WatchedMail::of(alloc, mail, Meeting::after(1, MOST_TURNS))
    }

    /// Whether the first take was let go by another.
    pub fn has_met(&self) -> bool {
        self.watcher().has_met()
    }
}

/// A pool of another kind that holds the first take of all until one of a mailbox of the other
/// parity.
pub type MeetingPool<P> = WatchedPool<P, Meeting>;

impl<P: Drop> WatchedPool<P, Meeting> {
    /// A pool of this kind, of which nothing was taken.
    pub fn new(alloc: Global, pool: P) -> Result<MeetingPool<P>, AllocError> {
        WatchedPool::of(alloc, pool, Meeting::after(1, MOST_TURNS))
    }

    /// Whether the first take was let go by another.
    pub fn has_met(&self) -> bool {
        self.watcher().has_met()
    }
}
