//! A run: workers divide the usage lines, readers keep the statements, and between them lies a mailbox for each account.

ghost use Rattle.std.specs.Prelude.{◌≡◌, ◌+◌, ◌<◌, ◌≤◌, All, IfOk, None, OnOk, length, replicate, vec_items};
ghost use Rattle.line_split.specs.Signs.{int_sum_by};
ghost use Rattle.payee_book.specs.Run.{IsBookOf};
ghost use Rattle.payee_book.specs.Statement.{total_of};
ghost use Rattle.block_draw.specs.Drawn.{AreDrawnOnce};
ghost use Rattle.block_draw.specs.Views.{draw_of, drawer_of, with_drawer};
ghost use Rattle.split_run.specs.Blocks.{blocks_of};
ghost use Rattle.split_run.specs.Divisions.{division_by};
ghost use Rattle.split_run.specs.Inputs.{account_count, division_in, line_count, lines_in};
ghost use Rattle.split_run.specs.Reading.{HasKept, inboxes_by};
ghost use Rattle.split_run.specs.Sending.{room_of};
ghost use Rattle.split_run.specs.Opening.{AreDealtOut, AreMailboxes, BelongWhateverTheyGet, HaveTheirDrawers, IsOpenedDraw, IsReady, senders_by};
ghost use Rattle.split_run.specs.Running.{AreMerged, ArePutIn, AreTakenIn, EachGiven, HaveTakenInEach, IsReadBy, IsWorkBy, MayBeTakenIn, or_else};

mod opening;
mod starting;

use crate::gate::Gate;
use crate::mailboxes::Mailboxes;
use crate::mailboxes::pooled::Pooled;
use crate::mailboxes::separate::Separate;
use crate::reading::{Reader, ReaderResult};
use crate::working::Inputs;
use crate::{LINES_IN_BLOCK, Plan, RunFault};
use block_draw::Draw;
use cwr_share::Registry;
use line_split::Usage;
use mail_box::Mail;
use opening::{Worker, readers_of, workers_of};
use payee_book::Book;
use pool_box::Pool;
use run_signals::Signals;
use starting::{WorkerResult, run_threads};
use std::alloc::{AllocError, Global};
use std::snapshot::Snapshot;
use std::sync::Wait;
use std::thread::Threads;
use tis_tree::TisTable;

/// The statements of all accounts, worked out by the threads of a plan over a mailbox of any kind for each account. They do not
/// depend on the plan, the mailboxes, the gate or the order in which the threads run, and their totals come to all amounts.
pub fn run<M: Mail, G: Gate, R: Threads + Wait + Sync>(
    rt: &R,
    alloc: Global,
    mail: &M,
    tis: &TisTable,
    registry: &Registry,
    usage: &Usage,
    plan: Plan,
    gate: &G,
) -> Result<Book, RunFault>
    ensures book { IfOk result (IsBookOf (division_by tis.now registry.now) usage.now (length registry.now.accounts)) }
    ensures adds_up { IfOk result (λ book. int_sum_by total_of book ≡ int_sum_by (λ line. line.amount) usage.now) }
{
    let threads = plan.readers + plan.workers;
    run_cut(rt, alloc, mail, tis, registry, usage, plan, gate, threads)
}

/// The same, where the thread with a number counts as refused: readers first, then workers, from 0. It is refused
/// wherever there is such a thread. A test can see here what becomes of the threads that were started before.
pub fn run_cut<M: Mail, G: Gate, R: Threads + Wait + Sync>(
    rt: &R,
    alloc: Global,
    mail: &M,
    tis: &TisTable,
    registry: &Registry,
    usage: &Usage,
    plan: Plan,
    gate: &G,
    threads: u64,
) -> Result<Book, RunFault>
    ensures book { IfOk result (IsBookOf (division_by tis.now registry.now) usage.now (length registry.now.accounts)) }
    ensures adds_up { IfOk result (λ book. int_sum_by total_of book ≡ int_sum_by (λ line. line.amount) usage.now) }
    ensures cut { IfOk result (λ _. plan.readers + plan.workers ≤ threads) }
{
    let inputs = Inputs {
        tis,
        registry,
        usage,
    };
    run_on(rt, alloc, &Separate(mail), inputs, plan, gate, threads)
}

/// The same over a pool of any kind, with a mailbox for each account.
pub fn run_pool<P: Pool, G: Gate, R: Threads + Wait + Sync>(
    rt: &R,
    alloc: Global,
    pool: &P,
    tis: &TisTable,
    registry: &Registry,
    usage: &Usage,
    plan: Plan,
    gate: &G,
) -> Result<Book, RunFault>
    ensures book { IfOk result (IsBookOf (division_by tis.now registry.now) usage.now (length registry.now.accounts)) }
    ensures adds_up { IfOk result (λ book. int_sum_by total_of book ≡ int_sum_by (λ line. line.amount) usage.now) }
{
    let threads = plan.readers + plan.workers;
    run_pool_cut(rt, alloc, pool, tis, registry, usage, plan, gate, threads)
}

/// The same over a pool, where the thread with a number counts as refused, as `run_cut` has it.
pub fn run_pool_cut<P: Pool, G: Gate, R: Threads + Wait + Sync>(
    rt: &R,
    alloc: Global,
    pool: &P,
    tis: &TisTable,
    registry: &Registry,
    usage: &Usage,
    plan: Plan,
    gate: &G,
    threads: u64,
) -> Result<Book, RunFault>
    ensures book { IfOk result (IsBookOf (division_by tis.now registry.now) usage.now (length registry.now.accounts)) }
    ensures adds_up { IfOk result (λ book. int_sum_by total_of book ≡ int_sum_by (λ line. line.amount) usage.now) }
    ensures cut { IfOk result (λ _. plan.readers + plan.workers ≤ threads) }
{
    let inputs = Inputs {
        tis,
        registry,
        usage,
    };
    run_on(rt, alloc, &Pooled(pool), inputs, plan, gate, threads)
}

/// A run over mailboxes of any kind, where the thread with a number counts as refused.
fn run_on<B: Mailboxes, G: Gate, R: Threads + Wait + Sync>(
    rt: &R,
    alloc: Global,
    mailboxes: &B,
    inputs: Inputs<'_>,
    plan: Plan,
    gate: &G,
    threads: u64,
) -> Result<Book, RunFault>
    ensures book { IfOk result (IsBookOf (division_in inputs.entry) (lines_in inputs.entry) (account_count inputs.entry)) }
    ensures adds_up { IfOk result (λ book. int_sum_by total_of book ≡ int_sum_by (λ line. line.amount) (lines_in inputs.entry)) }
    ensures cut { IfOk result (λ _. plan.readers + plan.workers ≤ threads) }
{
    let accounts = inputs.registry.accounts();
    let workers = plan.workers;
    let ring = if B::has_one_ring() {
        Some(plan.nodes)
    } else {
        None
    };
    let signals = Signals::open(alloc, workers, plan.readers, ring)?;
    let (mut draw, opened, kept, jobs, readers) = open_all(
        alloc,
        mailboxes,
        inputs,
        workers,
        plan.readers,
        plan.nodes,
    )?;
    let Some((worked, read)) = run_threads(
        rt, alloc, inputs, gate, jobs, readers, threads, &signals,
    ) else {
        return Err(RunFault::Room);
    };
    let (inboxes, book) = merge_all::<B>(alloc, accounts, workers, plan.readers, opened, read)?;
    prove!(book.accounts() == accounts, "each account has a statement");
    let mut gathered = B::gather(kept, inboxes);
    take_in_all::<B, R>(rt, inputs, &mut draw, &mut gathered, worked)?;
    Ok(book)
}

/// Opens all that a run needs before it starts a thread: the draw of its blocks, the mailboxes of all accounts, as they are kept
/// here for the proofs, what is kept aside of them, and its workers and readers, which have the ends of the mailboxes.
fn open_all<B: Mailboxes>(
    alloc: Global,
    mailboxes: &B,
    inputs: Inputs<'_>,
    workers: u64,
    readers: u64,
    nodes: u64,
) -> Result<
    (
        Draw,
        Snapshot<Vec<Option<B::Receiver>>>,
        B::Kept,
        Vec<Worker<B>>,
        Vec<Reader<B>>,
    ),
    AllocError,
>
    requires workers { (0 < workers) × (workers ≤ 8) }
    requires readers { 0 < readers }
    requires nodes { (0 < nodes) × (nodes ≤ 64) }
    ensures draw { IfOk result (λ r. IsOpenedDraw (line_count inputs.entry) workers (draw_of r.0)) }
    ensures drawers { IfOk result (λ r. HaveTheirDrawers (draw_of r.0) (line_count inputs.entry) workers r.3.items) }
    ensures mailboxes { IfOk result (λ r. AreMailboxes workers (account_count inputs.entry) nodes (room_of B.is_shared (line_count inputs.entry))
        (senders_by B.senders r.3.items) (inboxes_by B.receiver r.1.value.items)) }
    ensures kept { IfOk result (λ r. BelongWhateverTheyGet (B.belongs r.2) (inboxes_by B.receiver r.1.value.items)) }
    ensures ready { IfOk result (λ r. (length r.3.items ≡ workers) × All (IsReady B.is_shared B.senders (account_count inputs.entry) (line_count inputs.entry)) r.3.items) }
    ensures dealt { IfOk result (λ r. AreDealtOut B.receiver readers (inboxes_by B.receiver r.1.value.items) r.4.items) }
    ensures taken { IfOk result (λ r. (length r.4.items ≡ readers) × All (λ reader. (reader.workers ≡ workers) × HasKept B.receiver reader) r.4.items) }
{
    let accounts = inputs.registry.accounts();
    let lines = inputs.usage.len() as u64;
    let blocks = (inputs.usage.len() + (LINES_IN_BLOCK - 1)) / LINES_IN_BLOCK;
    let (draw, drawers) = Draw::open(alloc, blocks as u64, workers)?;
    let (lists, receivers, kept) = mailboxes.open(alloc, accounts, workers, nodes, lines)?;
    let jobs = workers_of::<B>(alloc, inputs.registry, lists, drawers)?;
    let opened = Snapshot::of(&receivers);
    let readers = readers_of::<B>(alloc, accounts, workers, readers, receivers)?;
    Ok((draw, opened, kept, jobs, readers))
}

/// Merges what the readers gave back: the mailbox of each account, and the book of all statements. `opened` are the
/// mailboxes as they were opened.
fn merge_all<B: Mailboxes>(
    alloc: Global,
    accounts: u16,
    workers: u64,
    readers: u64,
    opened: Snapshot<Vec<Option<B::Receiver>>>,
    read: Vec<Option<ReaderResult<B>>>,
) -> Result<(Vec<Option<B::Receiver>>, Book), RunFault>
    requires some { (0 < accounts) × (0 < readers) }
    requires count { (length opened.value.items ≡ accounts) × (length read.items ≡ readers) }
    requires read { EachGiven readers (IsReadBy B.receiver workers readers opened.value.items) read.items }
    ensures { IfOk result (λ r. AreMerged workers readers readers (inboxes_by B.receiver opened.value.items) (inboxes_by B.receiver r.0.items) r.1) }
{
    let mut inboxes = no_inboxes::<B>(alloc, accounts)?;
    let mut book = Book::open(alloc, accounts)?;
    for reader in read {
        let Some(reader) = reader else {
            return Err(RunFault::Room);
        };
        merge::<B>(&mut inboxes, reader.inboxes);
        book.join(reader.book);
    }
    Ok((inboxes, book))
}

/// A place for the receiver of each account, and none there.
fn no_inboxes<B: Mailboxes>(
    alloc: Global,
    accounts: u16,
) -> Result<Vec<Option<B::Receiver>>, AllocError>
    ensures { IfOk result (λ inboxes. inboxes_by B.receiver inboxes.items ≡ replicate accounts None) }
{
    let mut inboxes = Vec::new(alloc);
    for _ in 0..accounts {
        inboxes.push(None)?;
    }
    Ok(inboxes)
}

/// Puts the receivers of one reader with those of the others.
fn merge<B: Mailboxes>(inboxes: &mut Vec<Option<B::Receiver>>, more: Vec<Option<B::Receiver>>)
    requires { length more.items ≡ length (vec_items inboxes.old) }
    ensures count { length (vec_items inboxes.new) ≡ length (vec_items inboxes.old) }
    ensures each { ArePutIn (inboxes_by B.receiver more.items) (inboxes_by B.receiver (vec_items inboxes.old)) (inboxes_by B.receiver (vec_items inboxes.new)) }
{
    let mut account = 0;
    for inbox in more {
        replace_if_some(inbox, &mut inboxes[account]);
        account += 1;
    }
}

/// Puts something in a place, if there is something.
fn replace_if_some<T: Drop>(something: Option<T>, place: &mut Option<T>)
    ensures { place.new ≡ or_else something place.old }
{
    if something.is_some() {
        *place = something;
    }
}

/// Takes in what all workers gave back, each what it sent by and its drawer. `inputs` is what they divided. An error: one of them
/// was stopped, and gave back nothing.
fn take_in_all<B: Mailboxes, R: Wait>(
    rt: &R,
    inputs: Inputs<'_>,
    draw: &mut Draw,
    inboxes: &mut B::Gathered,
    worked: Vec<Option<WorkerResult<B>>>,
) -> Result<(), RunFault>
    requires some { (0 < length worked.items) × (0 < length (B.gathered inboxes.old)) }
    requires opened { IsOpenedDraw (line_count inputs) (length worked.items) (draw_of draw.old) }
    requires worked { EachGiven (length worked.items) (IsWorkBy B.senders (division_in inputs) (lines_in inputs) (draw_of draw.old) (B.gathered inboxes.old)) worked.items }
    ensures taken { OnOk result (AreTakenIn (division_in inputs.entry) (lines_in inputs.entry) (draw_of draw.new).drawn (length worked.items) (B.gathered inboxes.old) (B.gathered inboxes.new)) }
    ensures once { OnOk result (AreDrawnOnce (length worked.items) (draw_of draw.new).drawn (blocks_of (line_count inputs.entry))) }
{
    for worker in worked {
        let Some(worker) = worker else {
            return Err(RunFault::Room);
        };
        take_in_worker::<B, R>(rt, draw, inboxes, worker);
    }
    Ok(())
}

/// Takes in what a worker gave back: what it sent by, and its drawer.
fn take_in_worker<B: Mailboxes, R: Wait>(
    rt: &R,
    draw: &mut Draw,
    inboxes: &mut B::Gathered,
    worker: WorkerResult<B>,
)
    requires ended { MayBeTakenIn (draw_of draw.old) (drawer_of worker.drawer) (B.gathered inboxes.old) (B.senders worker.senders.items) }
    ensures each { HaveTakenInEach (B.gathered inboxes.old) (B.senders worker.senders.items) (B.gathered inboxes.new) }
    ensures count { length (B.gathered inboxes.new) ≡ length (B.gathered inboxes.old) }
    ensures gathered { draw_of draw.new ≡ with_drawer (draw_of draw.old) (drawer_of worker.drawer) }
    ensures whole { (draw_of draw.new).gathered ≡ (draw_of draw.new).drawers → AreDrawnOnce (draw_of draw.new).drawers (draw_of draw.new).drawn (draw_of draw.new).blocks }
{
    B::take_in(rt, inboxes, worker.senders);
    draw.gather(worker.drawer);
}
