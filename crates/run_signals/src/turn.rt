//! One wait of a thread, turn by turn.

use crate::sleeper::Sleeper;
use crossbeam_utils::Backoff;
use std::sync::Wait;

/// How often a thread that waits looks again at once before it sleeps. It never yields: on a busy machine a thread that yields goes
/// behind all others, and one that was asleep goes before them.
const SPINS: u32 = 64;

/// After so many looks the pauses between them begin anew with the shortest, so that what is there is seen soon.
const SPINS_OF_ROUND: u32 = 4;

/// One wait: how often its thread has looked in vain, and whether it has announced that it sleeps.
#[derive(Drop)]
pub struct Turn {
    backoff: Backoff,
    spins: u32,
    is_announced: bool,
}

impl Turn {
    /// A wait that has just begun.
    pub fn new() -> Turn {
        Turn {
            backoff: Backoff::new(),
            spins: 0,
            is_announced: false,
        }
    }

    /// Whether its thread has not waited yet.
    pub(crate) fn is_first(&self) -> bool {
        self.spins == 0
    }

    /// Waits for a turn. After some turns the thread announces that it waits for what has this number, and in the turn after that it
    /// sleeps, for so many microseconds at most. False: it slept, and nobody has woken it.
    pub(crate) fn wait<R: Wait>(
        &mut self,
        rt: &R,
        sleeper: &Sleeper,
        number: u64,
        longest: u64,
    ) -> bool {
        if self.spins < SPINS {
            if self.spins % SPINS_OF_ROUND == 0 {
                self.backoff.reset();
            }
            self.spins += 1;
            self.backoff.spin();
            return true;
        }
        self.is_announced = !self.is_announced;
        if self.is_announced {
            sleeper.announce(number);
            return true;
        }
        sleeper.sleep(rt, longest)
    }

    /// Ends the wait: its thread has what it waited for.
    pub(crate) fn end(&self, sleeper: &Sleeper) {
        if self.is_announced {
            sleeper.withdraw();
        }
    }
}

impl Default for Turn {
    fn default() -> Turn {
        Turn::new()
    }
}
