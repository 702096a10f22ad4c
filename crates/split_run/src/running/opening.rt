//! What a run opens before it starts a thread: the mailboxes of all accounts, and what each worker and reader needs.

ghost use Rattle.std.specs.Prelude.{◌≡◌, ◌+◌, ◌<◌, ℕ, All, IfOk, None, OnOk, cond, length, slice_index_or, vec_items, vec_len};
ghost use Rattle.line_split.specs.declared.TheConstants.{MOST_CLAIMS};
ghost use Rattle.split_run.specs.Reading.{AreUntouched, HasKept, inboxes_by};
ghost use Rattle.split_run.specs.Opening.{AreDealt, AreDealtOut, HasRoom, OthersAreLeft, lists_by, senders_by};

use crate::mailboxes::Mailboxes;
use crate::reading::Reader;
use block_draw::Drawer;
use cwr_share::Registry;
use line_split::{Claims, MOST_CLAIMS, Portions};
use std::alloc::{AllocError, Global};

/// What a worker sends by, its drawer, and its room for the division of a line.
#[derive(Drop)]
pub(crate) struct Worker<B: Mailboxes> {
    pub senders: Vec<B::Sender>,
    pub drawer: Drawer,
    pub claims: Claims,
    pub portions: Portions,
}

/// The workers, each with what it sends by and with a drawer.
pub(crate) fn workers_of<B: Mailboxes>(
    alloc: Global,
    registry: &Registry,
    lists: Vec<Vec<B::Sender>>,
    drawers: Vec<Drawer>,
) -> Result<Vec<Worker<B>>, AllocError>
    requires { length drawers.items ≡ length lists.items }
    ensures count { IfOk result (λ all. vec_len all ≡ length lists.items) }
    ensures senders { IfOk result (λ all. senders_by B.senders all.items ≡ lists_by B.senders lists.items) }
    ensures drawers { IfOk result (λ all. (number : ℕ) (d : _) (e : _) → number < length lists.items → (slice_index_or all.items number d).drawer ≡ slice_index_or drawers.items number e) }
    ensures room { IfOk result (λ all. All HasRoom all.items) }
{
    let mut workers = Vec::new(alloc);
    let mut drawers = drawers.into_iter();
    for senders in lists {
        let Some(drawer) = drawers.next() else {
            unreachable!()
        };
        workers.push(Worker {
            senders,
            drawer,
            claims: registry.scratch(alloc)?,
            portions: Portions::room(alloc, MOST_CLAIMS + 1)?,
        })?;
    }
    Ok(workers)
}

/// So many readers, among whom the receivers are dealt out in turn.
pub(crate) fn readers_of<B: Mailboxes>(
    alloc: Global,
    accounts: u16,
    workers: u64,
    readers: u64,
    inboxes: Vec<Option<B::Receiver>>,
) -> Result<Vec<Reader<B>>, AllocError>
    requires some { (0 < accounts) × (0 < readers) }
    requires count { length inboxes.items ≡ accounts }
    requires untouched { AreUntouched workers accounts (inboxes_by B.receiver inboxes.items) }
    ensures count { IfOk result (λ all. vec_len all ≡ readers) }
    ensures dealt { IfOk result (λ all. AreDealtOut B.receiver readers (inboxes_by B.receiver inboxes.items) all.items) }
    ensures taken { IfOk result (λ all. All (λ r. (r.workers ≡ workers) × HasKept B.receiver r) all.items) }
{
    let mut inboxes = inboxes;
    let mut all = Vec::new(alloc);
    for reader in 0..readers {
        let own = deal::<B>(alloc, &mut inboxes, readers, reader)?;
        let number = reader as usize;
        all.push(Reader::new(alloc, number, readers as usize, own, accounts, workers)?)?;
    }
    Ok(all)
}

/// Takes out the receivers of those accounts whose number leaves `reader` when it is divided by `readers`.
fn deal<B: Mailboxes>(
    alloc: Global,
    inboxes: &mut Vec<Option<B::Receiver>>,
    readers: u64,
    reader: u64,
) -> Result<Vec<Option<B::Receiver>>, AllocError>
    requires { 0 < readers }
    ensures own { IfOk result (λ own. AreDealt readers reader (inboxes_by B.receiver (vec_items inboxes.old)) (inboxes_by B.receiver own.items)) }
    ensures left { OnOk result (length (vec_items inboxes.new) ≡ length (vec_items inboxes.old)) }
    ensures others { OnOk result (OthersAreLeft readers reader (inboxes_by B.receiver (vec_items inboxes.old)) (inboxes_by B.receiver (vec_items inboxes.new))) }
{
    let mut own = Vec::new(alloc);
    for account in 0..inboxes.len() {
        let is_own = reader == account as u64 % readers;
        own.push(take_if(is_own, &mut inboxes[account]))?;
    }
    Ok(own)
}

/// Takes out what is there, if it is one's own.
fn take_if<T>(is_own: bool, there: &mut Option<T>) -> Option<T>
    ensures taken { result ≡ cond is_own there.old None }
    ensures left { there.new ≡ cond is_own None there.old }
{
    if is_own { there.take() } else { None }
}
