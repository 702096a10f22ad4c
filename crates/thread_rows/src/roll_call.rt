//! A gate that holds each worker at its first line until all have come.

use anyhow::Result;
use split_run::Gate;
use std::alloc::{AllocError, Global};
use std::sync::atomic::{AtomicU64, Ordering};
use std::thread;

/// The most turns that a worker waits.
const MOST_TURNS: u32 = 1_000_000;

/// It keeps which lines it was told.
#[derive(Drop)]
pub struct RollCall {
    /// For each worker, one more than the last line that it came with; 0 until it comes.
    ends: Vec<AtomicU64>,
    /// For each line, how often it was told.
    told: Vec<AtomicU64>,
    /// How often it was told a worker or a line that there is not, or a line before the worker's last.
    faults: AtomicU64,
}

impl RollCall {
    /// A gate for so many workers and lines, of which it was told none.
    pub fn of(alloc: Global, workers: u64, lines: usize) -> Result<RollCall, AllocError> {
        Ok(RollCall {
            ends: counters(alloc, workers as usize)?,
            told: counters(alloc, lines)?,
            faults: AtomicU64::new(0),
        })
    }

    /// How many workers have come, how many lines were told once, and how many faults there were.
    pub fn told(&self, alloc: Global) -> Result<String> {
        let come = self
            .ends
            .iter()
            .filter(|end| end.load(Ordering::SeqCst) > 0)
            .count();
        let once = self
            .told
            .iter()
            .filter(|told| told.load(Ordering::SeqCst) == 1)
            .count();
        let faults = self.faults.load(Ordering::SeqCst);
        Ok(format!(in alloc;
            "{come} workers, {once} of {} lines once, {faults} faults",
            self.told.len()
        )?)
    }

    /// Whether each worker has come.
    fn is_full(&self) -> bool {
        self.ends.iter().all(|end| end.load(Ordering::SeqCst) > 0)
    }

    fn wait(&self) {
        for _ in 0..MOST_TURNS {
            if self.is_full() {
                return;
            }
            thread::yield_now();
        }
    }
}

impl Gate for RollCall {
    fn pass(&self, worker: u64, line: u64) {
        let (Some(end), Some(told)) = (self.ends.get(worker as usize), self.told.get(line as usize))
        else {
            self.faults.fetch_add(1, Ordering::SeqCst);
            return;
        };
        told.fetch_add(1, Ordering::SeqCst);
        let before = end.swap(line.wrapping_add(1), Ordering::SeqCst);
        if line < before {
            self.faults.fetch_add(1, Ordering::SeqCst);
        }
        if before == 0 {
            self.wait();
        }
    }
}

/// So many counters, at 0.
fn counters(alloc: Global, count: usize) -> Result<Vec<AtomicU64>, AllocError> {
    let mut counters = Vec::new(alloc);
    for _ in 0..count {
        counters.push(AtomicU64::new(0))?;
    }
    Ok(counters)
}
