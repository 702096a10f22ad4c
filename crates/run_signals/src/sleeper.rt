//! How a thread sleeps until another wakes it.

use std::sync::Wait;
use std::sync::atomic::{AtomicU64, Ordering};
use std::thread::Parker;
use std::time::Duration;

/// What the word of a thread has that is awake.
const AWAKE: u64 = 0;

/// Where one thread sleeps. It announces that it will, and what it waits for, looks once more whether that is there, and sleeps.
/// So whoever makes it after that look sees the announcement and wakes the thread.
#[derive(Drop)]
pub(crate) struct Sleeper {
    /// One more than the number of what its thread waits for, or `AWAKE`.
    waits_for: AtomicU64,
    parker: Parker,
}

impl Sleeper {
    /// That of a thread that is awake.
    pub fn new() -> Sleeper {
        Sleeper {
            waits_for: AtomicU64::new(AWAKE),
            parker: Parker::new(),
        }
    }

    /// Says that its thread is about to sleep, until what has this number is there.
    pub fn announce(&self, number: u64) {
        self.waits_for
            .store(number.wrapping_add(1), Ordering::SeqCst);
    }

    /// Takes that back.
    pub fn withdraw(&self) {
        self.waits_for.store(AWAKE, Ordering::SeqCst);
    }

    /// Whether its thread sleeps or is about to.
    pub fn is_announced(&self) -> bool {
        self.waits_for.load(Ordering::SeqCst) != AWAKE
    }

    /// Sleeps until the thread is woken, or for so many microseconds. False: nobody has woken it.
    pub fn sleep<R: Wait>(&self, rt: &R, longest: u64) -> bool {
        self.parker.park_timeout(rt, Duration::from_micros(longest));
        self.waits_for.swap(AWAKE, Ordering::SeqCst) == AWAKE
    }

    /// Wakes the thread, if it has announced that it waits for what has this number. Else this only reads a word.
    pub fn wake(&self, number: u64) {
        let word = number.wrapping_add(1);
        if self.waits_for.load(Ordering::SeqCst) == word
            && self.waits_for.swap(AWAKE, Ordering::SeqCst) == word
        {
            self.parker.unpark();
        }
    }
}
