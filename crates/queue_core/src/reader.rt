//! The reader: where it is in its take.

use crate::item::Took;

/// Where the reader is: which of its steps is next, and with what.
#[derive(Clone, Copy, Debug, PartialEq, Eq)]
pub enum ReaderPoint {
    /// In no take.
    Rest,
    /// The stub was passed: the next of the tail, a sender's node, is to be loaded.
    Second,
    /// The tail is the stub and had no next: the head is to be loaded.
    StubHead,
    /// The tail is a sender's node and had no next: the head is to be loaded.
    NodeHead,
    /// Null is to be stored as the stub's next.
    Null,
    /// The head is to be exchanged for the stub.
    Swap,
    /// The stub's link is in flight: it is to be stored in this node.
    Link(u64),
    /// The next of the tail is to be loaded once more.
    Last,
}

/// The reader of a mailbox, as its steps leave it.
#[derive(Clone, Copy, Debug, PartialEq, Eq)]
pub struct Reader {
    pub point: ReaderPoint,
    /// The node that was passed last, or the one that comes next if it is a sender's.
    pub tail: u64,
    /// What the last finished take answered.
    pub last: Option<Took<u64>>,
}
