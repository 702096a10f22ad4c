//! What the threads at a table of nodes know of it, each by its seat.

use queue_core::{Caller, Entry, Item, Reader};
use std::collections::LinkedList;

/// What a table is told when it is made: how many senders and mailboxes there are, and how many ring nodes each sender has.
#[derive(Clone, Copy, Debug, PartialEq, Eq)]
pub struct Shape {
    pub senders: u64,
    pub mailboxes: u64,
    pub ring: u64,
}

/// What a sender lays into its slot before it fills a node with it: an item, and for which mailbox.
#[derive(Clone, Copy, Debug, PartialEq, Eq)]
pub struct Posting {
    pub mailbox: u64,
    pub item: Item,
}

/// An item that was taken and not given back: its table's shape, its mailbox, its node, its sender, its place among the
/// sender's items there, and the item. No value of it is made.
pub struct Holding {
    pub shape: Shape,
    pub mailbox: u64,
    pub node: u64,
    pub sender: u64,
    pub place: u64,
    pub item: Item,
}

/// What a sender knows: its number, where it is, in which mailboxes it has ended, and what it has filled in all of
/// them, each item with its mailbox. No value of it is made.
pub struct SenderSeat {
    pub shape: Shape,
    pub number: u64,
    pub caller: Caller,
    pub ended: LinkedList<bool>,
    pub filled: LinkedList<(u64, Item)>,
}

/// What the receiver of a mailbox knows: where it is, what it passed, gave back and received, what it has at hand, and the
/// senders that it took in. No value of it is made.
pub struct ReceiverSeat {
    pub shape: Shape,
    pub mailbox: u64,
    /// Where it is in a take: the reader of `queue_core`, whose steps a receiver makes.
    pub reader: Reader,
    pub passed: LinkedList<Entry>,
    pub given: LinkedList<Entry>,
    pub got: LinkedList<(u64, Item)>,
    pub at_hand: Option<Holding>,
    pub taken_in: LinkedList<SenderSeat>,
}

/// What the tally knows: how many seats it has dealt, what the receivers knew that it gathered, and the senders that it
/// took in. No value of it is made.
pub struct TallySeat {
    pub shape: Shape,
    pub dealt: u64,
    pub gathered: LinkedList<ReceiverSeat>,
    pub taken_in: LinkedList<SenderSeat>,
}

/// What a seat knows.
pub enum Known {
    /// A sender or a receiver that has not begun, by its place in the order of dealing: the senders come first.
    Dealt(Shape, u64),
    Sends(SenderSeat),
    Receives(ReceiverSeat),
    /// An item that was taken and not given back.
    Holds(Holding),
    Tallies(TallySeat),
    /// A seat that was gathered, taken in or taken back.
    Gone,
}
