//! What a run does before it sends the postings of a usage line.

/// What a worker passes before the first posting of each of its lines. A test can hold a worker up here.
pub trait Gate: Sync {
    /// This worker is about to send the postings of this line, both counted from 0.
    fn pass(&self, worker: u64, line: u64);
}

/// The gate that holds nobody up.
#[derive(Clone, Copy, Debug, Default)]
pub struct NoGate;

impl Gate for NoGate {
    fn pass(&self, _worker: u64, _line: u64) {}
}
