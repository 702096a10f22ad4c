//! A mailbox by itself for each account.

ghost use Rattle.std.specs.Prelude.{◌≡◌, [], IfOk, OnOk, length, map, replicate, vec_items};
ghost use Rattle.split_run.specs.Reading.{inboxes_by};
ghost use Rattle.split_run.specs.Opening.{HaveOneMore, items_of};
ghost use Rattle.split_run.specs.Running.{HaveTakenInEach, MayTakeIn};

use crate::mailboxes::Mailboxes;
use mail_box::{Item, Mail, Posted, Took};
use std::alloc::{AllocError, Global};
use std::sync::Wait;

/// Mailboxes of a kind, one for each account. A worker has a sender of each.
#[derive(Clone, Copy)]
pub(crate) struct Separate<'a, M>(pub &'a M);

impl<M: Mail> Mailboxes for Separate<'_, M> {
    type Sender = M::Sender;

    type Receiver = M::Receiver;

    type Kept = ();

    type Gathered = Vec<Option<M::Receiver>>;

    ghost use Rattle.std.specs.Prelude.{false, map, ⊤};
    ghost use Rattle.split_run.specs.Reading.{inboxes_by};

    ghost Name = { M.Name };

    ghost is_shared = { false };

    ghost senders = { map M.sender };

    ghost receiver = { M.receiver };

    ghost belongs = { λ kept account inbox. ⊤ };

    ghost gathered = { λ all. inboxes_by M.receiver all.items };

    fn open(
        &self,
        alloc: Global,
        accounts: u16,
        workers: u64,
        nodes: u64,
        lines: u64,
    ) -> Result<(Vec<Vec<M::Sender>>, Vec<Option<M::Receiver>>, ()), AllocError> {
        let mut lists = no_senders(alloc, workers)?;
        let mut inboxes = Vec::new(alloc);
        for _ in 0..accounts {
            let (senders, receiver) = self.0.open(alloc, workers, nodes, lines)?;
            hand_out(&mut lists, senders)?;
            inboxes.push(Some(receiver))?;
        }
        Ok((lists, inboxes, ()))
    }

    fn has_one_ring() -> bool {
        false
    }

    fn try_send<R: Wait>(
        rt: &R,
        all: &mut [M::Sender],
        account: usize,
        line: u64,
        amount: i64,
    ) -> Posted {
        M::try_send(rt, &mut all[account], line, amount)
    }

    fn end<R: Wait>(rt: &R, all: &mut [M::Sender], account: usize) -> Posted {
        M::end(rt, &mut all[account])
    }

    fn receive<R: Wait>(rt: &R, inbox: &mut M::Receiver) -> Option<(u64, Item)> {
        match M::take(rt, inbox) {
            Took::Held(held) => {
                let pair = M::read(rt, inbox, &held);
                M::give_back(rt, inbox, held);
                Some(pair)
            }
            Took::Empty | Took::Busy => None,
        }
    }

    fn gather(_kept: (), inboxes: Vec<Option<M::Receiver>>) -> Vec<Option<M::Receiver>>
        ensures { inboxes_by M.receiver result.items ≡ inboxes_by M.receiver inboxes.items }
    {
        inboxes
    }

    fn take_in<R: Wait>(rt: &R, all: &mut Vec<Option<M::Receiver>>, own: Vec<M::Sender>)
        requires count { length (map M.sender own.items) ≡ length (inboxes_by M.receiver (vec_items all.old)) }
        requires ended { MayTakeIn (inboxes_by M.receiver (vec_items all.old)) (map M.sender own.items) }
        ensures count { length (inboxes_by M.receiver (vec_items all.new)) ≡ length (inboxes_by M.receiver (vec_items all.old)) }
        ensures each { HaveTakenInEach (inboxes_by M.receiver (vec_items all.old)) (map M.sender own.items) (inboxes_by M.receiver (vec_items all.new)) }
    {
        let mut account = 0;
        for sender in own {
            let Some(receiver) = &mut all[account] else {
                unreachable!()
            };
            M::take_in(rt, receiver, sender);
            account += 1;
        }
    }
}

/// For each worker the senders that it has, none yet.
fn no_senders<T: Drop>(alloc: Global, workers: u64) -> Result<Vec<Vec<T>>, AllocError>
    ensures { IfOk result (λ lists. items_of lists.items ≡ replicate workers []) }
{
    let mut lists = Vec::new(alloc);
    for _ in 0..workers {
        lists.push(Vec::new(alloc))?;
    }
    Ok(lists)
}

/// Hands out the senders of a mailbox, one to each worker.
fn hand_out<T: Drop>(lists: &mut Vec<Vec<T>>, senders: Vec<T>) -> Result<(), AllocError>
    requires { length senders.items ≡ length (vec_items lists.old) }
    ensures { OnOk result (HaveOneMore (items_of (vec_items lists.old)) senders.items (items_of (vec_items lists.new))) }
{
    let mut worker = 0;
    for sender in senders {
        lists[worker].push(sender)?;
        worker += 1;
    }
    Ok(())
}
