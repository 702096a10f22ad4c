//! A ring of hints, which one worker writes and one reader reads.

use std::alloc::{AllocError, Global};
use std::sync::atomic::{AtomicU64, Ordering};

/// How many words a ring has.
pub(crate) const WORDS: u64 = 64;

/// How many accounts a word names at most.
pub(crate) const HINTS: u32 = 3;

/// How many bits each of them has, and the tag of a word.
const BITS: u32 = 16;

/// A ring of words. Each names the accounts of up to three mailboxes that got something, and has a tag that says in which round it was
/// written, so that the reader sees by one load whether it is a new one. The worker never looks how far the reader is: it writes
/// over what was not read, and the reader sees that by the tag.
#[derive(Drop)]
pub(crate) struct Ring {
    words: Vec<AtomicU64>,
}

impl Ring {
    /// A ring to which nothing was written.
    pub fn open(alloc: Global) -> Result<Ring, AllocError> {
        let mut words = Vec::new(alloc);
        for _ in 0..WORDS {
            words.push(AtomicU64::new(0))?;
        }
        Ok(Ring { words })
    }

    /// Writes the word with a number, counted from 0, of these hints.
    pub fn write(&self, number: u64, hints: u64) {
        if let Some(word) = self.words.get((number % WORDS) as usize) {
            word.store(tag_of(number) | hints, Ordering::SeqCst);
        }
    }

    /// The word with a number, if it was written, and the number that the word in its place has now: a later one where the worker has gone
    /// round since.
    pub fn read(&self, number: u64) -> Option<(u64, u64)> {
        let word = self
            .words
            .get((number % WORDS) as usize)?
            .load(Ordering::SeqCst);
        let rounds = word.wrapping_sub(tag_of(number)) >> (3 * BITS);
        if rounds >= 1 << (BITS - 1) {
            return None;
        }
        Some((number.wrapping_add(rounds * WORDS), word))
    }
}

/// The tag of the word with a number: the round in which it is written, counted from 1, in the word's highest bits.
fn tag_of(number: u64) -> u64 {
    (number / WORDS).wrapping_add(1) << (3 * BITS)
}

/// Puts the hint of an account behind those of a word.
pub(crate) fn with_hint(hints: u64, account: usize) -> u64 {
    hints << BITS | (account as u64).wrapping_add(1)
}

/// The accounts that a word names, in the order in which they were put there.
pub(crate) fn accounts_of(word: u64) -> [Option<usize>; 3] {
    [
        account_of(word >> (2 * BITS)),
        account_of(word >> BITS),
        account_of(word),
    ]
}

/// The account that the last bits of a word name, if they name one.
fn account_of(word: u64) -> Option<usize> {
    let hint = word & ((1 << BITS) - 1);
    if hint == 0 {
        None
    } else {
        Some((hint - 1) as usize)
    }
}
