//! The mailboxes of a run, one for each account, whatever they are made of.

ghost use Rattle.std.specs.Prelude.{unsigned_abs, ◌≡◌, ◌<◌, ◌≤◌, ℕ, false, Bool, IfOk, List, MatchOption, Option, length, slice_index_or};
ghost use Rattle.queue_core.specs.Matches.{MatchPosted};
ghost use Rattle.mail_box.specs.Mails.{HasReceived, ReceiverView, SenderView};
ghost use Rattle.split_run.specs.Reading.{inboxes_by};
ghost use Rattle.split_run.specs.Opening.{AreMailboxes, BelongWhateverTheyGet, lists_by};
ghost use Rattle.split_run.specs.Running.{AllBelong, HaveTakenInEach, MayTakeIn};
ghost use Rattle.split_run.specs.Sending.{HasEndedAt, HasSpent, HaveSentOne, room_of};

pub(crate) mod pooled;
pub(crate) mod separate;

use queue_core::{Item, Posted};
use std::alloc::{AllocError, Global};
use std::sync::Wait;

/// The mailboxes of a run: what a worker sends by, what a reader takes by, and what knows at the end that all was received.
///
/// A kind of mailboxes is `Separate`, where each account has a mailbox by itself, or `Pooled`, where all are one pool.
pub(crate) trait Mailboxes: Sync {
    /// What a worker sends by. It has one for each account, or one for all.
    type Sender: Send + Drop;

    /// What a reader takes by from the mailbox of one account.
    type Receiver: Send + Drop;

    /// What is kept aside while the threads are at work.
    type Kept: Send + Drop;

    /// The receivers of all accounts, which take in the senders.
    type Gathered: Send + Drop;

    // What names a mailbox.
    ghost Name: { Type 0 };

    // A posting to one account leaves a sender fewer for every other.
    ghost is_shared: { Bool };

    // What a worker sends by, as a sender of each account.
    ghost senders: { List Self.Sender → List (SenderView Name) };

    ghost receiver: { Self.Receiver → ReceiverView Name };

    // It is the receiver of this account that was opened with what is kept.
    ghost belongs: { Self.Kept → ℕ → ReceiverView Name → Type 0 };

    ghost gathered: { Self.Gathered → List (Option (ReceiverView Name)) };

    /// A mailbox for each account: what each worker sends by, the receivers in order of account, and what is kept aside. A worker
    /// may send a posting of each of so many lines to each account. The only call that takes memory.
    fn open(
        &self,
        alloc: Global,
        accounts: u16,
        workers: u64,
        nodes: u64,
        lines: u64,
    ) -> Result<
        (
            Vec<Vec<Self::Sender>>,
            Vec<Option<Self::Receiver>>,
            Self::Kept,
        ),
        AllocError,
    >
        requires accounts { (0 < accounts) × (accounts ≤ 16384) }
        requires workers { (0 < workers) × (workers ≤ 8) }
        requires nodes { (0 < nodes) × (nodes ≤ 64) }
        requires lines { lines ≤ 1000000 }
        ensures mailboxes { IfOk result (λ r. AreMailboxes workers accounts nodes (room_of is_shared lines) (lists_by senders r.0.items) (inboxes_by receiver r.1.items)) }
        ensures kept { IfOk result (λ r. BelongWhateverTheyGet (belongs r.2) (inboxes_by receiver r.1.items)) };

    /// Whether a worker has the same nodes for all mailboxes.
    fn has_one_ring() -> bool;

    /// Sends a posting to the mailbox of an account.
    fn try_send<R: Wait>(
        rt: &R,
        all: &mut [Self::Sender],
        account: usize,
        line: u64,
        amount: i64,
    ) -> Posted
        requires account { account < length (senders all.old) }
        requires open { (s : SenderView Name) → (slice_index_or (senders all.old) account s).is_ended ≡ false }
        requires left { (s : SenderView Name) → 0 < (slice_index_or (senders all.old) account s).left }
        requires line { line ≤ 999999 }
        requires amount { (0 < unsigned_abs amount) × (unsigned_abs amount ≤ 1000000000000) }
        ensures sent { MatchPosted result (HaveSentOne is_shared account line amount (senders all.old) (senders all.new)) (senders all.new ≡ senders all.old) }
        ensures spent { HasSpent is_shared (senders all.old) (senders all.new) 1 };

    /// Sends the end mark to the mailbox of an account.
    fn end<R: Wait>(rt: &R, all: &mut [Self::Sender], account: usize) -> Posted
        requires account { account < length (senders all.old) }
        requires open { (s : SenderView Name) → (slice_index_or (senders all.old) account s).is_ended ≡ false }
        ensures { MatchPosted result (HasEndedAt account (senders all.old) (senders all.new)) (senders all.new ≡ senders all.old) };

    /// Takes one item, reads it and gives it back: the number of the worker, and the item. None: nothing was taken.
    fn receive<R: Wait>(rt: &R, inbox: &mut Self::Receiver) -> Option<(u64, Item)>
        ensures { MatchOption result (receiver inbox.new ≡ receiver inbox.old) (λ pair. HasReceived (receiver inbox.old) (receiver inbox.new) pair.0 pair.1) };

    /// Gathers the receivers of all accounts.
    fn gather(kept: Self::Kept, inboxes: Vec<Option<Self::Receiver>>) -> Self::Gathered
        requires { AllBelong (belongs kept) (length inboxes.items) (inboxes_by receiver inboxes.items) }
        ensures { gathered result ≡ inboxes_by receiver inboxes.items };

    /// Takes in what a worker sent by, which has ended in the mailbox of each account: from then on it is known what it sent.
    fn take_in<R: Wait>(rt: &R, all: &mut Self::Gathered, own: Vec<Self::Sender>)
        requires some { 0 < length (gathered all.old) }
        requires count { length (senders own.items) ≡ length (gathered all.old) }
        requires ended { MayTakeIn (gathered all.old) (senders own.items) }
        ensures count { length (gathered all.new) ≡ length (gathered all.old) }
        ensures each { HaveTakenInEach (gathered all.old) (senders own.items) (gathered all.new) };
}
