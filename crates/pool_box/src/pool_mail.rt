//! A pool over one table of nodes: a sender uses its ring nodes in turn for its posts to all mailboxes.
ghost use Rattle.std.specs.Prelude.{unsigned_abs, ◌≡◌, ◌+◌, ◌<◌, ◌≤◌, ℕ, false, HoldsAt, IfOk, vec_items, vec_len};
ghost use Rattle.queue_core.specs.Matches.{MatchPosted, MatchTook};
ghost use Rattle.node_table.specs.Views.{sender_of as sender_seat};

use crate::pool::Pool;
use node_table::{NodeHeld, NodeReceiver, NodeSender, NodeTally, Shape};
use queue_core::{Item, Posted, Took};
use std::alloc::{AllocError, Global};

/// Pools of linked nodes.
#[derive(Clone, Copy, Debug, Default)]
pub struct PoolMail;

/// A sender of a `PoolMail`.
#[derive(Drop)]
pub struct PoolSender {
    sender: NodeSender,
    left: u64,
    ended: Vec<bool>,
    ghost few: { (sender_seat sender).caller.count + left ≤ 257000000 },
    ghost flags: { (vec_items ended ≡ (sender_seat sender).ended) × (vec_len ended ≡ (sender_seat sender).shape.mailboxes) },
}

/// The receiver of a mailbox of a `PoolMail`.
pub type PoolReceiver = NodeReceiver;

/// An item that was taken from a `PoolMail`.
pub type PoolHeld = NodeHeld;

/// The tally of a `PoolMail`.
pub type PoolTally = NodeTally;

impl PoolMail {
    ghost use Rattle.pool_box.specs.Pools.{Begins, HasEndedEverywhere, HasGained, WasFull, opened_receiver, opened_sender, opened_tally, with_end, with_post, with_receiver, with_sender};
    ghost use Rattle.std.specs.Prelude.{[], ◌++◌, ◌∷◌, ⊤};
    ghost use Rattle.queue_core.specs.Mailbox.{is_among};
    ghost use Rattle.pool_box.specs.PoolViews.{IsHeldBy, entry_of, given_by, held_of, receiver_of, sender_of, taken_by, tally_of};

    /// A pool of 1 to 8 senders and 1 to 16,384 mailboxes: its senders by number, its receivers by mailbox, and its tally.
    /// Each sender has `nodes` nodes (1 to 64) for its posts to all mailboxes, and may post `most` times (at most
    /// 257,000,000). The only call that takes memory.
    pub fn open(
        alloc: Global,
        senders: u64,
        mailboxes: u64,
        nodes: u64,
        most: u64,
    ) -> Result<(Vec<PoolSender>, Vec<PoolReceiver>, PoolTally), AllocError>
        requires senders { (0 < senders) × (senders ≤ 8) }
        requires mailboxes { (0 < mailboxes) × (mailboxes ≤ 16384) }
        requires nodes { (0 < nodes) × (nodes ≤ 64) }
        requires most { most ≤ 257000000 }
        ensures count { IfOk result (λ r. (vec_len r.0 ≡ senders) × (vec_len r.1 ≡ mailboxes)) }
        ensures senders { IfOk result (λ r. (i : ℕ) → i < senders → HoldsAt (λ s. sender_of s ≡ opened_sender (tally_of r.2).pool mailboxes i nodes most) (vec_items r.0) i) }
        ensures receivers { IfOk result (λ r. (b : ℕ) → b < mailboxes → HoldsAt (λ s. receiver_of s ≡ opened_receiver (tally_of r.2).pool b senders) (vec_items r.1) b) }
        ensures taken { IfOk result (λ r. (b : ℕ) → b < mailboxes → HoldsAt (λ s. (taken_by s ≡ []) × (given_by s ≡ [])) (vec_items r.1) b) }
        ensures tally { IfOk result (λ r. tally_of r.2 ≡ opened_tally (tally_of r.2).pool) }
    {
        let shape = Shape {
            senders,
            mailboxes,
            ring: nodes,
        };
        let (opened, receivers, tally) = NodeTally::open(alloc, shape)?;
        let mut senders = Vec::with_capacity(alloc, opened.len())?;
        for sender in opened {
            senders.push(PoolSender {
                sender,
                left: most,
                ended: Vec::from_elem(alloc, false, mailboxes as usize)?,
            })?;
        }
        Ok((senders, receivers, tally))
    }

    /// The number of a sender in its pool, from 0.
    pub fn number(s: &PoolSender) -> u64
        ensures { result ≡ (sender_of s.now).number }
    {
        s.sender.number()
    }

    /// How many posts a sender may still send, over all mailboxes.
    pub fn left(s: &PoolSender) -> u64
        ensures { result ≡ (sender_of s.now).left }
    {
        s.left
    }

    /// Whether a sender has sent its end mark to a mailbox.
    pub fn ended(s: &PoolSender, mailbox: u64) -> bool
        requires { mailbox < (sender_of s.now).mailboxes }
        ensures { result ≡ (sender_of s.now).is_ended mailbox }
    {
        s.ended[mailbox as usize]
    }

    /// Sends a post to a mailbox: the number of a usage line, at most 999,999, and an amount in minor units, of size 1 to
    /// 1,000,000,000,000. `Full`: nothing was sent, as what it posted as many posts ago as it has nodes was not given back,
    /// in whichever mailbox that was (`law_load_turn` of `queue_core` says so of the moment of the look).
    pub fn try_send(s: &mut PoolSender, mailbox: u64, line: u64, amount: i64) -> Posted
        requires mailbox { mailbox < (sender_of s.old).mailboxes }
        requires open { (sender_of s.old).is_ended mailbox ≡ false }
        requires left { 0 < (sender_of s.old).left }
        requires line { line ≤ 999999 }
        requires amount { (0 < unsigned_abs amount) × (unsigned_abs amount ≤ 1000000000000) }
        ensures { MatchPosted result (sender_of s.new ≡ with_post (sender_of s.old) mailbox line amount) (WasFull (sender_of s.old) (sender_of s.new)) }
    {
        match s.sender.try_send(mailbox, line, amount) {
            Posted::Sent => {
                s.left -= 1;
                Posted::Sent
            }
            Posted::Full => Posted::Full,
        }
    }

    /// Sends the end mark to a mailbox, after which the sender sends nothing there. It has a node for itself.
    pub fn end(s: &mut PoolSender, mailbox: u64)
        requires mailbox { mailbox < (sender_of s.old).mailboxes }
        requires open { (sender_of s.old).is_ended mailbox ≡ false }
        ensures { sender_of s.new ≡ with_end (sender_of s.old) mailbox }
    {
        s.sender.end(mailbox);
        s.ended[mailbox as usize] = true;
    }

    /// Takes an item of any sender, which was not taken before, and is held from then on. `Empty` and `Busy`: nothing was
    /// taken.
    pub fn take(r: &mut PoolReceiver) -> Took<PoolHeld>
        ensures took { MatchTook result (λ h. HasGained (receiver_of r.old) (receiver_of r.new) (held_of h)) (receiver_of r.new ≡ receiver_of r.old) (receiver_of r.new ≡ receiver_of r.old) }
        ensures taken { MatchTook result (λ h. taken_by r.new ≡ taken_by r.old ++ entry_of h ∷ []) (taken_by r.new ≡ taken_by r.old) (taken_by r.new ≡ taken_by r.old) }
        ensures given { given_by r.new ≡ given_by r.old }
        ensures held { MatchTook result (λ h. (is_among (entry_of h) (taken_by r.old) ≡ false) × IsHeldBy r.new h) ⊤ ⊤ }
    {
        r.take()
    }

    /// The sender's number and the item, as often as asked while the item is held.
    pub fn read(r: &mut PoolReceiver, h: &PoolHeld) -> (u64, Item)
        requires { ((held_of h.now).pool ≡ (receiver_of r.old).pool) × ((held_of h.now).mailbox ≡ (receiver_of r.old).mailbox) }
        ensures same { receiver_of r.new ≡ receiver_of r.old }
        ensures pair { result ≡ ((held_of h.now).sender, (held_of h.now).item) }
        ensures taken { (taken_by r.new ≡ taken_by r.old) × (given_by r.new ≡ given_by r.old) }
    {
        h.read()
    }

    /// Gives an item back, which was held, and with it the node that it stood in.
    pub fn give_back(r: &mut PoolReceiver, h: PoolHeld)
        requires { ((held_of h).pool ≡ (receiver_of r.old).pool) × ((held_of h).mailbox ≡ (receiver_of r.old).mailbox) }
        ensures same { receiver_of r.new ≡ receiver_of r.old }
        ensures taken { taken_by r.new ≡ taken_by r.old }
        ensures given { given_by r.new ≡ given_by r.old ++ entry_of h ∷ [] }
        ensures held { IsHeldBy r.old h }
    {
        r.give_back(h);
    }

    /// Gathers a receiver: from then on the tally knows what it received.
    pub fn gather(t: &mut PoolTally, r: PoolReceiver)
        requires { (receiver_of r).pool ≡ (tally_of t.old).pool }
        ensures gathered { tally_of t.new ≡ with_receiver (tally_of t.old) (receiver_of r) }
        ensures begins { Begins (tally_of t.new) }
    {
        t.gather(r);
    }

    /// Takes in a sender that has ended in every mailbox: from then on the tally knows what it sent.
    pub fn take_in(t: &mut PoolTally, s: PoolSender)
        requires pool { (sender_of s).pool ≡ (tally_of t.old).pool }
        requires ended { HasEndedEverywhere (sender_of s) }
        ensures known { tally_of t.new ≡ with_sender (tally_of t.old) (sender_of s) }
        ensures begins { Begins (tally_of t.new) }
    {
        t.take_in(s.sender);
    }
}

impl Pool for PoolMail {
    type Sender = PoolSender;

    type Receiver = PoolReceiver;

    type Held = PoolHeld;

    type Tally = PoolTally;

    ghost use Rattle.node_table.specs.Views.{Name as TableName};
    ghost use Rattle.pool_box.specs.PoolViews.{held_of, receiver_of, sender_of, tally_of};

    ghost Name = { TableName };

    ghost sender = { sender_of };

    ghost receiver = { receiver_of };

    ghost held = { held_of };

    ghost tally = { tally_of };

    fn open(
        &self,
        alloc: Global,
        senders: u64,
        mailboxes: u64,
        nodes: u64,
        most: u64,
    ) -> Result<(Vec<PoolSender>, Vec<PoolReceiver>, PoolTally), AllocError> {
        PoolMail::open(alloc, senders, mailboxes, nodes, most)
    }

    fn number(s: &PoolSender) -> u64 {
        PoolMail::number(s)
    }

    fn left(s: &PoolSender) -> u64 {
        PoolMail::left(s)
    }

    fn ended(s: &PoolSender, mailbox: u64) -> bool {
        PoolMail::ended(s, mailbox)
    }

    fn try_send(s: &mut PoolSender, mailbox: u64, line: u64, amount: i64) -> Posted {
        PoolMail::try_send(s, mailbox, line, amount)
    }

    fn end(s: &mut PoolSender, mailbox: u64) {
        PoolMail::end(s, mailbox);
    }

    fn take(r: &mut PoolReceiver) -> Took<PoolHeld> {
        PoolMail::take(r)
    }

    fn read(r: &mut PoolReceiver, h: &PoolHeld) -> (u64, Item) {
        PoolMail::read(r, h)
    }

    fn give_back(r: &mut PoolReceiver, h: PoolHeld) {
        PoolMail::give_back(r, h);
    }

    fn gather(t: &mut PoolTally, r: PoolReceiver) {
        PoolMail::gather(t, r);
    }

    fn take_in(t: &mut PoolTally, s: PoolSender) {
        PoolMail::take_in(t, s);
    }
}
