//! How a worker sends: it waits while a mailbox is full, and gives up where the run is stopped.

ghost use Rattle.std.specs.Prelude.{unsigned_abs, ◌≡◌, ◌<◌, ◌≤◌, All, MatchBool, false, length, map, slice_index_or, true};
ghost use Rattle.std.specs.List.{AllPairs};
ghost use Rattle.payee_book.specs.Run.{posting_of};
ghost use Rattle.split_run.specs.Sending.{AreReadyFor, HasEndedAt, HasSpent, HaveSent, HaveSentOne, postings_to};
ghost use Rattle.split_run.specs.Working.{HaveSentPortions};

use crate::mailboxes::Mailboxes;
use line_split::Account;
use queue_core::Posted;
use run_signals::{Turn, WorkerSignals};
use std::sync::Wait;
use std::sync::atomic::{AtomicBool, Ordering};

/// Sends a posting to the mailbox of an account, however long it takes. False: the run was stopped, and it was not sent.
fn send<B: Mailboxes, R: Wait>(
    rt: &R,
    senders: &mut [B::Sender],
    account: usize,
    line: u64,
    amount: i64,
    stop: &AtomicBool,
    signals: &mut WorkerSignals<'_>,
) -> bool
    requires account { account < length (B.senders senders.old) }
    requires open { (s : _) → (slice_index_or (B.senders senders.old) account s).is_ended ≡ false }
    requires left { (s : _) → 0 < (slice_index_or (B.senders senders.old) account s).left }
    requires line { line ≤ 999999 }
    requires amount { (0 < unsigned_abs amount) × (unsigned_abs amount ≤ 1000000000000) }
    ensures sent { MatchBool result (HaveSentOne B.is_shared account line amount (B.senders senders.old) (B.senders senders.new)) (B.senders senders.new ≡ B.senders senders.old) }
    ensures spent { result ≡ true → HasSpent B.is_shared (B.senders senders.old) (B.senders senders.new) 1 }
{
    let mut turn = Turn::new();
    for _ in rt.forever() {
        if stop.load(Ordering::SeqCst) {
            return false;
        }
        if let Posted::Sent = B::try_send(rt, senders, account, line, amount) {
            signals.stop_waiting(&turn);
            return true;
        }
        signals.wait(rt, &mut turn, account);
    }
    unreachable!()
}

/// Sends a portion of a line to the mailbox of its account, if it is not 0. False: the run was stopped, and it was not sent.
fn send_portion<B: Mailboxes, R: Wait>(
    rt: &R,
    senders: &mut [B::Sender],
    account: Account,
    line: u64,
    amount: i64,
    stop: &AtomicBool,
    signals: &mut WorkerSignals<'_>,
) -> bool
    requires account { account < length (B.senders senders.old) }
    requires line { line ≤ 999999 }
    requires amount { unsigned_abs amount ≤ 1000000000000 }
    requires ready { (s : _) → ((slice_index_or (B.senders senders.old) account s).is_ended ≡ false) × (0 < (slice_index_or (B.senders senders.old) account s).left) }
    ensures sent { result ≡ true → HaveSent B.is_shared (B.senders senders.old) (B.senders senders.new) (postings_to account (posting_of line amount)) }
    ensures spent { result ≡ true → HasSpent B.is_shared (B.senders senders.old) (B.senders senders.new) 1 }
{
    if amount == 0 {
        return true;
    }
    let place = account as usize;
    let sent = send::<B, R>(rt, senders, place, line, amount, stop, signals);
    signals.tell(place);
    sent
}

/// Sends those portions of a line that are not 0, each to the mailbox of its account. False: the run was stopped before
/// all were sent.
pub(crate) fn send_line<B: Mailboxes, R: Wait>(
    rt: &R,
    senders: &mut [B::Sender],
    line: u64,
    portions: &[(Account, i64)],
    stop: &AtomicBool,
    signals: &mut WorkerSignals<'_>,
) -> bool
    requires line { line ≤ 999999 }
    requires accounts { All (λ account. account < length (B.senders senders.old)) (map (λ portion. portion.0) portions.now) }
    requires once { AllPairs (λ account other. ¬ (account ≡ other)) (map (λ portion. portion.0) portions.now) }
    requires few { length portions.now ≤ 257 }
    requires small { All (λ portion. unsigned_abs portion.1 ≤ 1000000000000) portions.now }
    requires ready { AreReadyFor B.is_shared (B.senders senders.old) 1 }
    ensures sent { result ≡ true → HaveSentPortions B.is_shared line portions.now (B.senders senders.old) (B.senders senders.new) }
    ensures spent { result ≡ true → HasSpent B.is_shared (B.senders senders.old) (B.senders senders.new) 257 }
{
    for portion in portions {
        if !send_portion::<B, R>(rt, senders, portion.0, line, portion.1, stop, signals) {
            return false;
        }
    }
    true
}

/// Sends the end mark to the mailbox of an account, however long it takes. False: the run was stopped, and it was not sent.
pub(crate) fn send_end<B: Mailboxes, R: Wait>(
    rt: &R,
    senders: &mut [B::Sender],
    account: usize,
    stop: &AtomicBool,
    signals: &mut WorkerSignals<'_>,
) -> bool
    requires account { account < length (B.senders senders.old) }
    requires open { (s : _) → (slice_index_or (B.senders senders.old) account s).is_ended ≡ false }
    ensures { MatchBool result (HasEndedAt account (B.senders senders.old) (B.senders senders.new)) (B.senders senders.new ≡ B.senders senders.old) }
{
    let mut turn = Turn::new();
    for _ in rt.forever() {
        if stop.load(Ordering::SeqCst) {
            return false;
        }
        if let Posted::Sent = B::end(rt, senders, account) {
            signals.stop_waiting(&turn);
            return true;
        }
        signals.wait(rt, &mut turn, account);
    }
    unreachable!()
}
