//! What every pool does, whatever it is made of.
ghost use Rattle.std.specs.Prelude.{unsigned_abs, ◌≡◌, ◌<◌, ◌≤◌, ℕ, false, HoldsAt, IfOk, vec_items, vec_len};
ghost use Rattle.queue_core.specs.Matches.{MatchPosted, MatchTook};
ghost use Rattle.pool_box.specs.Pools.{Begins, HasEndedEverywhere, HasGained, HeldView, ReceiverView, SenderView, TallyView, WasFull};
ghost use Rattle.pool_box.specs.Pools.{opened_receiver, opened_sender, opened_tally, with_end, with_post, with_receiver, with_sender};

use queue_core::{Item, Posted, Took};
use std::alloc::{AllocError, Global};

/// Several mailboxes of the same senders, with one receiver each, and a tally. Any of them may be moved to another
/// thread. No call waits.
///
/// Of each sender a receiver gets what it sent to its mailbox, in order. No order between senders is promised, nor that a
/// call answers otherwise later. A sender or a receiver may be dropped between any two calls; an item that is held must
/// be given back.
pub trait Pool: Sync {
    /// What one thread posts by.
    type Sender: Send + Drop;

    /// What one thread takes by from one mailbox.
    type Receiver: Send + Drop;

    /// An item that was taken and not given back yet.
    type Held;

    /// What gathers the receivers and takes in the senders. It knows then that what each receiver got of each sender is the
    /// first part of what that sender sent there; with the end mark it is all.
    type Tally: Send + Drop;

    // What names a pool.
    ghost Name: { Type 0 };

    ghost sender: { Self.Sender → SenderView Name };

    ghost receiver: { Self.Receiver → ReceiverView Name };

    ghost held: { Self.Held → HeldView Name };

    ghost tally: { Self.Tally → TallyView Name };

    /// A pool of 1 to 8 senders and 1 to 16,384 mailboxes: its senders by number, its receivers by mailbox, and its tally.
    /// Each sender has `nodes` nodes (1 to 64) for its posts to all mailboxes, and may post `most` times (at most
    /// 257,000,000). The only call that takes memory.
    fn open(
        &self,
        alloc: Global,
        senders: u64,
        mailboxes: u64,
        nodes: u64,
        most: u64,
    ) -> Result<(Vec<Self::Sender>, Vec<Self::Receiver>, Self::Tally), AllocError>
        requires senders { (0 < senders) × (senders ≤ 8) }
        requires mailboxes { (0 < mailboxes) × (mailboxes ≤ 16384) }
        requires nodes { (0 < nodes) × (nodes ≤ 64) }
        requires most { most ≤ 257000000 }
        ensures count { IfOk result (λ r. (vec_len r.0 ≡ senders) × (vec_len r.1 ≡ mailboxes)) }
        ensures senders { IfOk result (λ r. (i : ℕ) → i < senders → HoldsAt (λ s. sender s ≡ opened_sender (tally r.2).pool mailboxes i nodes most) (vec_items r.0) i) }
        ensures receivers { IfOk result (λ r. (b : ℕ) → b < mailboxes → HoldsAt (λ s. receiver s ≡ opened_receiver (tally r.2).pool b senders) (vec_items r.1) b) }
        ensures tally { IfOk result (λ r. tally r.2 ≡ opened_tally (tally r.2).pool) };

    /// The number of a sender in its pool, from 0.
    fn number(s: &Self::Sender) -> u64
        ensures { result ≡ (sender s.now).number };

    /// How many posts a sender may still send, over all mailboxes.
    fn left(s: &Self::Sender) -> u64
        ensures { result ≡ (sender s.now).left };

    /// Whether a sender has sent its end mark to a mailbox.
    fn ended(s: &Self::Sender, mailbox: u64) -> bool
        requires { mailbox < (sender s.now).mailboxes }
        ensures { result ≡ (sender s.now).is_ended mailbox };

    /// Sends a post to a mailbox: the number of a usage line, at most 999,999, and an amount in minor units, of size 1 to
    /// 1,000,000,000,000. `Full`: nothing was sent; over all mailboxes it has sent at least as many posts as it has nodes.
    fn try_send(s: &mut Self::Sender, mailbox: u64, line: u64, amount: i64) -> Posted
        requires mailbox { mailbox < (sender s.old).mailboxes }
        requires open { (sender s.old).is_ended mailbox ≡ false }
        requires left { 0 < (sender s.old).left }
        requires line { line ≤ 999999 }
        requires amount { (0 < unsigned_abs amount) × (unsigned_abs amount ≤ 1000000000000) }
        ensures { MatchPosted result (sender s.new ≡ with_post (sender s.old) mailbox line amount) (WasFull (sender s.old) (sender s.new)) };

    /// Sends the end mark to a mailbox, after which the sender sends nothing there. There is room for it.
    fn end(s: &mut Self::Sender, mailbox: u64)
        requires mailbox { mailbox < (sender s.old).mailboxes }
        requires open { (sender s.old).is_ended mailbox ≡ false }
        ensures { sender s.new ≡ with_end (sender s.old) mailbox };

    /// Takes an item of any sender. `Empty` and `Busy`: nothing was taken.
    fn take(r: &mut Self::Receiver) -> Took<Self::Held>
        ensures { MatchTook result (λ h. HasGained (receiver r.old) (receiver r.new) (held h)) (receiver r.new ≡ receiver r.old) (receiver r.new ≡ receiver r.old) };

    /// The sender's number and the item, as often as asked while the item is held.
    fn read(r: &mut Self::Receiver, h: &Self::Held) -> (u64, Item)
        requires { ((held h.now).pool ≡ (receiver r.old).pool) × ((held h.now).mailbox ≡ (receiver r.old).mailbox) }
        ensures same { receiver r.new ≡ receiver r.old }
        ensures pair { result ≡ ((held h.now).sender, (held h.now).item) };

    /// Gives an item back, and with it the room that it took.
    fn give_back(r: &mut Self::Receiver, h: Self::Held)
        requires { ((held h).pool ≡ (receiver r.old).pool) × ((held h).mailbox ≡ (receiver r.old).mailbox) }
        ensures { receiver r.new ≡ receiver r.old };

    /// Gathers a receiver: from then on the tally knows what it received.
    fn gather(t: &mut Self::Tally, r: Self::Receiver)
        requires { (receiver r).pool ≡ (tally t.old).pool }
        ensures gathered { tally t.new ≡ with_receiver (tally t.old) (receiver r) }
        ensures begins { Begins (tally t.new) };

    /// Takes in a sender that has ended in every mailbox: from then on the tally knows what it sent.
    fn take_in(t: &mut Self::Tally, s: Self::Sender)
        requires pool { (sender s).pool ≡ (tally t.old).pool }
        requires ended { HasEndedEverywhere (sender s) }
        ensures known { tally t.new ≡ with_sender (tally t.old) (sender s) }
        ensures begins { Begins (tally t.new) };
}
