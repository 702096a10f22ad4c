//! A sender: where it is in its call, and what it has sent.

ghost use Rattle.std.specs.Prelude.{◌≡◌, ◌+◌, ◌<◌, ◌^◌};
ghost use Rattle.queue_core.specs.PoolSteps.{after_sent, amount_due, is_at_rest, line_due, link_due, null_due, swap_due};

use crate::item::{Item, Posted};

/// Where a sender is: which of its steps is next, and with what.
#[derive(Clone, Copy, Debug, PartialEq, Eq)]
pub enum SenderPoint {
    /// In no call.
    Rest,
    /// A line is to be stored.
    Line(Item),
    /// An amount is to be stored.
    Amount(Item),
    /// Null is to be stored as the node's next.
    Null(Item),
    /// The head is to be exchanged.
    Swap(Item),
    /// The link is in flight: it is to be stored in this node.
    Link(Item, u64),
}

impl SenderPoint {
    /// Whether the sender is in no call.
    pub(crate) fn is_at_rest(self) -> bool
        ensures { result ≡ is_at_rest self }
    {
        matches!(&self, SenderPoint::Rest)
    }

    /// The item whose line is to be stored.
    pub(crate) fn line_due(self) -> Option<Item>
        ensures { result ≡ line_due self }
    {
        match self {
            SenderPoint::Line(item) => Some(item),
            _ => None,
        }
    }

    /// The item whose amount is to be stored.
    pub(crate) fn amount_due(self) -> Option<Item>
        ensures { result ≡ amount_due self }
    {
        match self {
            SenderPoint::Amount(item) => Some(item),
            _ => None,
        }
    }

    /// The item whose node is to get a null.
    pub(crate) fn null_due(self) -> Option<Item>
        ensures { result ≡ null_due self }
    {
        match self {
            SenderPoint::Null(item) => Some(item),
            _ => None,
        }
    }

    /// The item whose node is to be exchanged in.
    pub(crate) fn swap_due(self) -> Option<Item>
        ensures { result ≡ swap_due self }
    {
        match self {
            SenderPoint::Swap(item) => Some(item),
            _ => None,
        }
    }

    /// The item whose link is in flight, and the node that gets it.
    pub(crate) fn link_due(self) -> Option<(Item, u64)>
        ensures { result ≡ link_due self }
    {
        match self {
            SenderPoint::Link(item, before) => Some((item, before)),
            _ => None,
        }
    }
}

/// A sender, as its steps leave it.
#[derive(Clone, Copy, Debug, PartialEq, Eq)]
pub struct Caller {
    pub point: SenderPoint,
    /// The mailbox of its call; at rest it means nothing.
    pub mailbox: u64,
    /// How many posts it has sent, over all mailboxes.
    pub count: u64,
    /// What its last finished call answered.
    pub last: Option<Posted>,
}

impl Caller {
    /// The sender when its item is sent.
    pub(crate) fn sent(self, item: Item) -> Caller
        requires { self.count + 1 < 2 ^ 64 }
        ensures { result ≡ after_sent item self }
    {
        let count = match item {
            Item::Post { .. } => self.count + 1,
            Item::End => self.count,
        };
        Caller {
            point: SenderPoint::Rest,
            count,
            last: Some(Posted::Sent),
            ..self
        }
    }
}
