//! A table of nodes for the mailboxes of several senders: Vyukov's queues of many producers and one consumer, over one
//! table of atomic words.
//!
//! Each mailbox has a head, a stub and a receiver. A sender has ring nodes that it uses in turn for its posts to all of them,
//! and one more for its end mark in each. It fills a node, exchanges the head of the mailbox for it, and links it behind the
//! node that was the head; between the two its link is in flight. The receiver follows the links from its tail, takes a node
//! once another follows it, and gives it back by adding one to its turn.
#![tactic(auto)]

mod layout;
mod nodes;
mod seats;
mod steps;

pub use nodes::{NodeHeld, NodeReceiver, NodeSender, NodeTally};
pub use seats::{Holding, Known, Posting, ReceiverSeat, SenderSeat, Shape, TallySeat};
