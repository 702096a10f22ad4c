//! The entries of a mailbox.

/// What is exchanged into a mailbox.
#[derive(Clone, Copy, Debug, PartialEq, Eq)]
pub enum Entry {
    /// Of a sender, by its number: the item that it filled at a place among its items, from 0.
    Of(u64, u64),
    /// The node that the reader puts in where the queue would run empty.
    Stub,
}
