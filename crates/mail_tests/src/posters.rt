//! The senders of a pool of linked nodes, each with how many mailboxes it may send to.

ghost use Rattle.std.specs.Prelude.{◌≡◌, ◌<◌, ◌≤◌, All, vec_items};
ghost use Rattle.pool_box.specs.PoolViews.{sender_of};

use pool_box::{PoolMail, PoolReceiver, PoolSender};
use std::alloc::{AllocError, Global};

/// A sender to so many mailboxes.
#[derive(Drop)]
pub struct Poster {
    pub sender: PoolSender,
    pub mailboxes: u64,
    ghost some: { 0 < mailboxes },
    ghost there: { (sender_of sender).mailboxes ≡ mailboxes },
}

/// Senders, each with how many mailboxes they send to.
fn posters_of(
    alloc: Global,
    mut senders: Vec<PoolSender>,
    mailboxes: u64,
) -> Result<Vec<Poster>, AllocError>
    requires some { 0 < mailboxes }
    requires there { All (λ s. (sender_of s).mailboxes ≡ mailboxes) (vec_items senders) }
{
    let mut posters = Vec::new(alloc);
    while let Some(sender) = senders.pop() {
        posters.push(Poster { sender, mailboxes })?;
    }
    Ok(posters)
}

/// Opens a pool: its senders, the last first, and its receivers by mailbox.
pub fn open_posters(
    alloc: Global,
    senders: u64,
    mailboxes: u64,
    nodes: u64,
    most: u64,
) -> Result<(Vec<Poster>, Vec<PoolReceiver>), AllocError>
    requires senders { (0 < senders) × (senders ≤ 8) }
    requires mailboxes { (0 < mailboxes) × (mailboxes ≤ 16384) }
    requires nodes { (0 < nodes) × (nodes ≤ 64) }
    requires most { most ≤ 257000000 }
{
    let (senders, receivers, _tally) = PoolMail::open(alloc, senders, mailboxes, nodes, most)?;
    let posters = posters_of(alloc, senders, mailboxes)?;
    Ok((posters, receivers))
}
