//! What a reader is told by the workers, and how it waits for them.

use crate::ring::accounts_of;
use crate::turn::Turn;
use crate::{ANY, MOST_THREADS, Signals};
use std::sync::Wait;

/// A reader's signals.
#[derive(Drop)]
pub struct ReaderSignals<'a> {
    shared: &'a Signals,
    reader: usize,
    /// The number of the word that comes next from each worker.
    next: [u64; MOST_THREADS],
    /// Whether a hint may have been lost.
    has_missed: bool,
    turn: Turn,
}

impl<'a> ReaderSignals<'a> {
    /// Those of the reader with a number, counted from 0.
    pub fn new(shared: &'a Signals, reader: usize) -> ReaderSignals<'a> {
        ReaderSignals {
            shared,
            reader,
            next: [0; MOST_THREADS],
            has_missed: false,
            turn: Turn::new(),
        }
    }

    /// How many workers there are.
    pub fn workers(&self) -> usize {
        self.shared.workers.len()
    }

    /// The accounts of the next mailboxes that a worker, counted from 0, says have got something, if it says so.
    pub fn hear(&mut self, worker: usize) -> Option<[Option<usize>; 3]> {
        let next = self.next.get_mut(worker)?;
        let (number, word) = self.shared.ring(worker, self.reader)?.read(*next)?;
        if number != *next {
            self.has_missed = true;
        }
        *next = number.wrapping_add(1);
        Some(accounts_of(word))
    }

    /// Whether the reader has to look into all its mailboxes now: since this was last asked a hint may have been lost, or all workers
    /// have sent all that they had.
    pub fn must_look_everywhere(&mut self) -> bool {
        let has_missed = self.has_missed;
        self.has_missed = false;
        has_missed || self.shared.have_ended()
    }

    /// Waits for a turn: first the reader looks again at once, and then it sleeps until a worker wakes it. False: nobody did, so it may
    /// have missed something.
    pub fn wait<R: Wait>(&mut self, rt: &R) -> bool {
        let Some(own) = self.shared.readers.get(self.reader) else {
            self.has_missed = true;
            return false;
        };
        let is_woken = self.turn.wait(rt, own, ANY, self.shared.longest);
        if !is_woken {
            self.has_missed = true;
        }
        is_woken
    }

    /// Ends a wait: the reader has taken what it found, so there is room for the workers that wait for it.
    pub fn stop_waiting(&mut self) {
        if let Some(own) = self.shared.readers.get(self.reader) {
            self.turn.end(own);
        }
        self.turn = Turn::new();
        for worker in &self.shared.workers {
            worker.wake(self.reader as u64);
        }
    }
}
