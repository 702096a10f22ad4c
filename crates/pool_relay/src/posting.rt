//! What a sender is given to send.

/// A post, and the mailbox that it goes to: the number of a usage line, at most 999,999, and an amount in minor units, of
/// size 1 to 1,000,000,000,000.
#[derive(Clone, Copy)]
pub struct Posting {
    pub mailbox: u64,
    pub line: u64,
    pub amount: i64,
}
