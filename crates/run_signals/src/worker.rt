//! What a worker tells the readers, and how it waits for them.

use crate::ring::{HINTS, with_hint};
use crate::sleeper::Sleeper;
use crate::turn::Turn;
use crate::{ANY, MOST_THREADS, Signals};
use std::sync::Wait;

/// After so many words a reader that sleeps is woken. That takes a call of the system, which is too much for each posting.
const WORDS_UNTIL_WAKING: u64 = 8;

/// How many microseconds a worker sleeps that works without a run, whom nobody wakes.
const ALONE: u64 = 50;

/// The most nodes of a worker.
const MOST_NODES: u64 = 64;

/// The hints that a worker has for one reader.
#[derive(Clone, Copy)]
struct Begun {
    /// The hints of the word that was begun, and how many they are.
    hints: u64,
    count: u32,
    /// How many words were written before, and how many when the reader was last woken.
    words: u64,
    woken: u64,
}

/// A worker's signals. One that works without a run has nobody to tell.
#[derive(Drop)]
pub struct WorkerSignals<'a> {
    shared: Option<&'a Signals>,
    worker: usize,
    begun: [Begun; MOST_THREADS],
    /// The readers of the last postings, in the places of a ring, and how many postings there were.
    sent_to: [u64; MOST_NODES as usize],
    sent: u64,
    /// Where a worker sleeps that works without a run.
    alone: Sleeper,
}

impl<'a> WorkerSignals<'a> {
    /// Those of the worker with a number, counted from 0.
    pub fn new(shared: Option<&'a Signals>, worker: u64) -> WorkerSignals<'a> {
        let none = Begun {
            hints: 0,
            count: 0,
            words: 0,
            woken: 0,
        };
        WorkerSignals {
            shared,
            worker: worker as usize,
            begun: [none; MOST_THREADS],
            sent_to: [0; MOST_NODES as usize],
            sent: 0,
            alone: Sleeper::new(),
        }
    }

    /// Tells the reader of an account that its mailbox has got something: soon, or before the worker waits or ends.
    pub fn tell(&mut self, account: usize) {
        let Some(shared) = self.shared else {
            return;
        };
        let reader = shared.reader_of(account);
        if let Some(last) = self.sent_to.get_mut((self.sent % MOST_NODES) as usize) {
            *last = reader as u64;
        }
        self.sent = self.sent.wrapping_add(1);
        let Some(begun) = self.begun.get_mut(reader) else {
            return;
        };
        begun.hints = with_hint(begun.hints, account);
        begun.count = begun.count.wrapping_add(1);
        if begun.count >= HINTS {
            write(shared, self.worker, reader, begun);
            if begun.words.wrapping_sub(begun.woken) >= WORDS_UNTIL_WAKING {
                wake(shared, reader, begun);
            }
        }
    }

    /// Tells every reader what it was not told yet, and that this worker has sent all that it had.
    pub fn end(&mut self) {
        self.tell_all();
        if let Some(shared) = self.shared {
            shared.end();
        }
    }

    /// Waits for a turn for room in the mailbox of an account: first the worker looks again at once, and then it sleeps until the
    /// reader on which it depends has taken something. False: it slept, and nobody has woken it.
    pub fn wait<R: Wait>(&mut self, rt: &R, turn: &mut Turn, account: usize) -> bool {
        if turn.is_first() {
            self.tell_all();
        }
        let Some(shared) = self.shared else {
            return turn.wait(rt, &self.alone, ANY, ALONE);
        };
        match shared.workers.get(self.worker) {
            Some(own) => turn.wait(rt, own, self.awaited(shared, account), shared.longest),
            None => turn.wait(rt, &self.alone, ANY, ALONE),
        }
    }

    /// Says that a wait is over.
    pub fn stop_waiting(&self, turn: &Turn) {
        if let Some(shared) = self.shared {
            if let Some(own) = shared.workers.get(self.worker) {
                turn.end(own);
            }
        }
    }

    /// Tells every reader what it was not told yet, and wakes those that have something new to look at.
    fn tell_all(&mut self) {
        let Some(shared) = self.shared else {
            return;
        };
        for reader in 0..shared.readers.len() {
            if let Some(begun) = self.begun.get_mut(reader) {
                if begun.count > 0 {
                    write(shared, self.worker, reader, begun);
                }
                if begun.words != begun.woken {
                    wake(shared, reader, begun);
                }
            }
        }
    }

    /// The reader on which a worker depends that waits for room in the mailbox of an account. Where it has the same nodes for all mailboxes
    /// that is the one whom it sent to as many postings ago as it has nodes, and else the reader of the account.
    fn awaited(&self, shared: &Signals, account: usize) -> u64 {
        let Some(nodes) = shared.nodes else {
            return shared.reader_of(account) as u64;
        };
        let place = self.sent.wrapping_sub(nodes) % MOST_NODES;
        match self.sent_to.get(place as usize) {
            Some(reader) => *reader,
            None => ANY,
        }
    }
}

/// Writes the word that was begun for a reader.
fn write(shared: &Signals, worker: usize, reader: usize, begun: &mut Begun) {
    if let Some(ring) = shared.ring(worker, reader) {
        ring.write(begun.words, begun.hints);
    }
    begun.hints = 0;
    begun.count = 0;
    begun.words = begun.words.wrapping_add(1);
}

/// Wakes a reader, if it sleeps.
fn wake(shared: &Signals, reader: usize, begun: &mut Begun) {
    begun.woken = begun.words;
    if let Some(sleeper) = shared.readers.get(reader) {
        sleeper.wake(ANY);
    }
}
