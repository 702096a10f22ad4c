//! A reader's half of a run: it takes from its mailboxes, and makes the statements of their accounts.

ghost use Rattle.std.specs.Prelude.{◌≡◌, ◌<◌, IfOk, MatchOption, length, true, vec_items};
ghost use Rattle.split_run.specs.Reading.{AreUntouched, HasAllEnds, HasKept, HasKeptAll, HasReceivedAt, HasServed, IsSameReader, inboxes_by};

use crate::MOST_NODES;
use crate::mailboxes::Mailboxes;
use line_split::Account;
use payee_book::{Book, Journal};
use queue_core::Item;
use run_signals::ReaderSignals;
use std::alloc::{AllocError, Global};
use std::snapshot::Snapshot;
use std::sync::Wait;
use std::sync::atomic::{AtomicBool, Ordering};

/// The mailboxes of the accounts that one reader serves, and what it has taken from them.
#[derive(Drop)]
pub(crate) struct Reader<B: Mailboxes> {
    /// The mailbox of each account, where this reader serves it.
    pub inboxes: Vec<Option<B::Receiver>>,
    /// The same as they were opened.
    pub opened: Snapshot<Vec<Option<B::Receiver>>>,
    /// How many workers send to each mailbox.
    pub workers: u64,
    /// Which of the readers it is, from 0, and how many there are: its accounts are those whose number leaves this one when it is divided
    /// by how many they are.
    pub number: usize,
    readers: usize,
    /// How many end marks each mailbox has given.
    ends: Vec<u64>,
    pub journal: Journal,
    /// Whether every posting that was taken stands in the journal.
    whole: bool,
}

/// What a reader gives back: its mailboxes, and the statements of their accounts.
#[derive(Drop)]
pub(crate) struct ReaderResult<B: Mailboxes> {
    pub inboxes: Vec<Option<B::Receiver>>,
    pub book: Book,
}

impl<B: Mailboxes> Reader<B> {
    /// One of so many readers, with these mailboxes, that has taken nothing.
    pub fn new(
        alloc: Global,
        number: usize,
        readers: usize,
        inboxes: Vec<Option<B::Receiver>>,
        accounts: u16,
        workers: u64,
    ) -> Result<Reader<B>, AllocError>
        requires some { 0 < accounts }
        requires count { length inboxes.items ≡ accounts }
        requires untouched { AreUntouched workers accounts (inboxes_by B.receiver inboxes.items) }
        ensures opened { IfOk result (λ r. (r.opened.value ≡ inboxes) × (r.workers ≡ workers)) }
        ensures taken { IfOk result (HasKept B.receiver) }
    {
        let opened = Snapshot::of(&inboxes);
        let ends = vec![in alloc; 0u64; inboxes.len()]?;
        let journal = Journal::open(alloc, accounts)?;
        Ok(Reader {
            inboxes,
            opened,
            workers,
            number,
            readers,
            ends,
            journal,
            whole: true,
        })
    }

    /// Takes from its mailboxes until every one has given an end mark of each worker: from those that the workers tell it of, and now
    /// and then from each in turn. False: the run was stopped, or a posting was refused its memory.
    pub fn serve<R: Wait>(
        &mut self,
        rt: &R,
        stop: &AtomicBool,
        signals: &mut ReaderSignals<'_>,
    ) -> bool
        requires taken { HasKept B.receiver self.old }
        ensures served { result ≡ true → HasKeptAll B.receiver self.new }
        ensures same { IsSameReader self.old self.new }
    {
        for _ in rt.forever() {
            let everywhere = signals.must_look_everywhere();
            if self.take_round(rt, signals, everywhere) {
                signals.stop_waiting();
                continue;
            }
            if everywhere && self.have_ended() {
                return self.whole;
            }
            if stop.load(Ordering::SeqCst) {
                return false;
            }
            signals.wait(rt);
        }
        unreachable!()
    }

    /// The mailboxes, and the statements of what was taken.
    pub fn into_result(self) -> ReaderResult<B>
        requires { HasKeptAll B.receiver self }
        ensures { HasServed B.receiver self result }
    {
        ReaderResult {
            inboxes: self.inboxes,
            book: self.journal.into_book(),
        }
    }

    /// Takes from the mailboxes that the workers tell of and, if it has to be everywhere, from each in turn. False: none had anything.
    fn take_round<R: Wait>(
        &mut self,
        rt: &R,
        signals: &mut ReaderSignals<'_>,
        everywhere: bool,
    ) -> bool
        requires taken { HasKept B.receiver self.old }
        ensures taken { HasKept B.receiver self.new }
        ensures same { IsSameReader self.old self.new }
    {
        let mut took = false;
        for worker in 0..signals.workers() {
            if self.take_told(rt, signals, worker) {
                took = true;
            }
        }
        if everywhere && self.take_each(rt) {
            took = true;
        }
        took
    }

    /// Takes from each mailbox in turn. False: none had anything.
    fn take_each<R: Wait>(&mut self, rt: &R) -> bool
        requires taken { HasKept B.receiver self.old }
        ensures taken { HasKept B.receiver self.new }
        ensures same { IsSameReader self.old self.new }
    {
        let mut took = false;
        for turn in 0..self.inboxes.len().div_ceil(self.readers.max(1)) {
            let account = turn.wrapping_mul(self.readers).wrapping_add(self.number);
            if self.take_at(rt, account) {
                took = true;
            }
        }
        took
    }

    /// Takes from the mailboxes that a worker tells of. False: none had anything.
    fn take_told<R: Wait>(&mut self, rt: &R, signals: &mut ReaderSignals<'_>, worker: usize) -> bool
        requires taken { HasKept B.receiver self.old }
        ensures taken { HasKept B.receiver self.new }
        ensures same { IsSameReader self.old self.new }
        ensures accounts { length self.new.journal ≡ length self.old.journal }
    {
        let mut took = false;
        for _ in 0..MOST_NODES {
            let Some(accounts) = signals.hear(worker) else {
                break;
            };
            if self.take_some(rt, accounts) {
                took = true;
            }
        }
        took
    }

    /// Takes from the mailboxes of up to three accounts. False: none had anything.
    fn take_some<R: Wait>(&mut self, rt: &R, accounts: [Option<usize>; 3]) -> bool
        requires taken { HasKept B.receiver self.old }
        ensures taken { HasKept B.receiver self.new }
        ensures same { IsSameReader self.old self.new }
        ensures accounts { length self.new.journal ≡ length self.old.journal }
    {
        let mut took = false;
        for account in accounts {
            let Some(account) = account else {
                continue;
            };
            if self.take_at(rt, account) {
                took = true;
            }
        }
        took
    }

    /// Takes what the mailbox of an account has, where there is one with this number, up to as many
    /// items as a worker may have in it. False: it had none.
    fn take_at<R: Wait>(&mut self, rt: &R, account: usize) -> bool
        requires taken { HasKept B.receiver self.old }
        ensures taken { HasKept B.receiver self.new }
        ensures same { IsSameReader self.old self.new }
        ensures accounts { length self.new.journal ≡ length self.old.journal }
    {
        if account >= self.journal.accounts() as usize {
            return false;
        }
        let mut took = false;
        for _ in 0..MOST_NODES {
            if !self.take_from(rt, account as Account) {
                break;
            }
            took = true;
        }
        took
    }

    /// Takes from the mailbox of an account, and records a posting. False: there was none, or no more is to come.
    fn take_from<R: Wait>(&mut self, rt: &R, account: Account) -> bool
        requires account { account < length self.old.journal }
        requires taken { HasKept B.receiver self.old }
        ensures taken { HasKept B.receiver self.new }
        ensures same { IsSameReader self.old self.new }
        ensures accounts { length self.new.journal ≡ length self.old.journal }
    {
        let place = account as usize;
        if self.ends[place] >= self.workers {
            return false;
        }
        match receive_at::<B, R>(rt, &mut self.inboxes, place) {
            Some((_, Item::Post { line, amount })) => {
                if self.whole {
                    self.whole = self.journal.record(account, line, amount).is_ok();
                }
                true
            }
            Some((_, Item::End)) => {
                self.ends[place] += 1;
                true
            }
            None => false,
        }
    }

    /// Whether each mailbox has given an end mark of each worker.
    fn have_ended(&self) -> bool
        requires { length self.now.ends.items ≡ length self.now.inboxes.items }
        ensures { result ≡ true → HasAllEnds B.receiver self.now }
    {
        for account in 0..self.inboxes.len() {
            if self.inboxes[account].is_some() && self.ends[account] < self.workers {
                return false;
            }
        }
        true
    }
}

/// Takes an item from the mailbox of an account, if there is one.
fn receive_at<B: Mailboxes, R: Wait>(
    rt: &R,
    inboxes: &mut Vec<Option<B::Receiver>>,
    account: usize,
) -> Option<(u64, Item)>
    requires { account < length (vec_items inboxes.old) }
    ensures { MatchOption result (inboxes_by B.receiver (vec_items inboxes.new) ≡ inboxes_by B.receiver (vec_items inboxes.old))
        (λ pair. HasReceivedAt account (inboxes_by B.receiver (vec_items inboxes.old)) (inboxes_by B.receiver (vec_items inboxes.new)) pair.0 pair.1) }
{
    match &mut inboxes[account] {
        Some(receiver) => B::receive(rt, receiver),
        None => None,
    }
}
