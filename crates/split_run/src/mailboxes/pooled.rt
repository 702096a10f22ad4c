//! The mailboxes of one pool, one for each account.

ghost use Rattle.std.specs.Prelude.{◌≡◌, ◌<◌, ◌∷◌, [], IfOk, Some, length, map};
ghost use Rattle.split_run.specs.PoolSeen.{belongs_to, gathered_by, inbox_by, senders_of};
ghost use Rattle.split_run.specs.Reading.{inboxes_by};
ghost use Rattle.split_run.specs.Opening.{items_of};
ghost use Rattle.split_run.specs.Running.{AllBelong, HaveTakenInEach, MayTakeIn};

use crate::MOST_POSTINGS;
use crate::mailboxes::Mailboxes;
use pool_box::{Item, Pool, Posted, Took};
use std::alloc::{AllocError, Global};
use std::sync::Wait;

/// The mailboxes of a pool of a kind. A worker has one sender for all.
#[derive(Clone, Copy)]
pub(crate) struct Pooled<'a, P>(pub &'a P);

/// The tally of a pool that was just opened, and how many workers send to it.
#[derive(Drop)]
pub(crate) struct KeptPool<P: Pool> {
    tally: P::Tally,
    workers: u64,
}

/// The tally of a pool, how many mailboxes it has, and how many workers send to them.
#[derive(Drop)]
pub(crate) struct GatheredPool<P: Pool> {
    tally: P::Tally,
    accounts: usize,
    workers: u64,
}

impl<P: Pool> Mailboxes for Pooled<'_, P> {
    type Sender = P::Sender;

    type Receiver = P::Receiver;

    type Kept = KeptPool<P>;

    type Gathered = GatheredPool<P>;

    ghost use Rattle.std.specs.Prelude.{ℕ, true};
    ghost use Rattle.split_run.specs.PoolSeen.{belongs_to, gathered_by, inbox_by, senders_of};

    ghost Name = { P.Name × ℕ };

    ghost is_shared = { true };

    ghost senders = { senders_of P.sender };

    ghost receiver = { inbox_by P.receiver };

    ghost belongs = { λ kept. belongs_to (P.tally kept.tally) kept.workers };

    ghost gathered = { gathered_by P.tally };

    fn open(
        &self,
        alloc: Global,
        accounts: u16,
        workers: u64,
        nodes: u64,
        lines: u64,
    ) -> Result<(Vec<Vec<P::Sender>>, Vec<Option<P::Receiver>>, KeptPool<P>), AllocError> {
        let (senders, receivers, tally) = self.0.open(
            alloc,
            workers,
            accounts as u64,
            nodes,
            MOST_POSTINGS * lines,
        )?;
        let lists = one_each(alloc, senders)?;
        let inboxes = all_there(alloc, receivers)?;
        Ok((lists, inboxes, KeptPool { tally, workers }))
    }

    fn has_one_ring() -> bool {
        true
    }

    fn try_send<R: Wait>(
        _rt: &R,
        all: &mut [P::Sender],
        account: usize,
        line: u64,
        amount: i64,
    ) -> Posted {
        P::try_send(&mut all[0], account as u64, line, amount)
    }

    fn end<R: Wait>(_rt: &R, all: &mut [P::Sender], account: usize) -> Posted {
        P::end(&mut all[0], account as u64);
        Posted::Sent
    }

    fn receive<R: Wait>(_rt: &R, inbox: &mut P::Receiver) -> Option<(u64, Item)> {
        match P::take(inbox) {
            Took::Held(held) => {
                let pair = P::read(inbox, &held);
                P::give_back(inbox, held);
                Some(pair)
            }
            Took::Empty | Took::Busy => None,
        }
    }

    fn gather(kept: KeptPool<P>, inboxes: Vec<Option<P::Receiver>>) -> GatheredPool<P>
        requires { AllBelong (belongs_to (P.tally kept.tally) kept.workers) (length inboxes.items) (inboxes_by (inbox_by P.receiver) inboxes.items) }
        ensures { gathered_by P.tally result ≡ inboxes_by (inbox_by P.receiver) inboxes.items }
    {
        let accounts = inboxes.len();
        let workers = kept.workers;
        let mut tally = kept.tally;
        for inbox in inboxes {
            if let Some(receiver) = inbox {
                P::gather(&mut tally, receiver);
            }
        }
        GatheredPool {
            tally,
            accounts,
            workers,
        }
    }

    fn take_in<R: Wait>(_rt: &R, all: &mut GatheredPool<P>, own: Vec<P::Sender>)
        requires some { 0 < length (gathered_by P.tally all.old) }
        requires count { length (senders_of P.sender own.items) ≡ length (gathered_by P.tally all.old) }
        requires ended { MayTakeIn (gathered_by P.tally all.old) (senders_of P.sender own.items) }
        ensures count { length (gathered_by P.tally all.new) ≡ length (gathered_by P.tally all.old) }
        ensures each { HaveTakenInEach (gathered_by P.tally all.old) (senders_of P.sender own.items) (gathered_by P.tally all.new) }
    {
        let mut own = own;
        if let Some(sender) = own.pop() {
            P::take_in(&mut all.tally, sender);
        }
    }
}

/// For each worker a list of its sender alone.
fn one_each<T: Drop>(alloc: Global, senders: Vec<T>) -> Result<Vec<Vec<T>>, AllocError>
    ensures { IfOk result (λ lists. items_of lists.items ≡ map (λ s. s ∷ []) senders.items) }
{
    let mut lists = Vec::new(alloc);
    for sender in senders {
        let mut own = Vec::new(alloc);
        own.push(sender)?;
        lists.push(own)?;
    }
    Ok(lists)
}

/// The receivers, each in its place.
fn all_there<T: Drop>(alloc: Global, receivers: Vec<T>) -> Result<Vec<Option<T>>, AllocError>
    ensures { IfOk result (λ there. there.items ≡ map Some receivers.items) }
{
    let mut there = Vec::new(alloc);
    for receiver in receivers {
        there.push(Some(receiver))?;
    }
    Ok(there)
}
