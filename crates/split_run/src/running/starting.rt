//! The threads of a run: how they are started, and what each gives back.

ghost use Rattle.std.specs.Prelude.{◌≡◌, ◌+◌, ◌<◌, ◌≤◌, ℕ, All, IfSome, length, slice_index_or, vec_len};
ghost use Rattle.split_run.specs.Inputs.{account_count, division_in, line_count, lines_in};
ghost use Rattle.split_run.specs.Reading.{HasKept, HasServed};
ghost use Rattle.split_run.specs.Opening.{IsReady};
ghost use Rattle.split_run.specs.Running.{AreGivenFor, EachGoesWith, HasWorked, IsPromisedOf};

use crate::gate::Gate;
use crate::mailboxes::Mailboxes;
use crate::reading::{Reader, ReaderResult};
use crate::running::opening::Worker;
use crate::working::{Inputs, work_on};
use block_draw::Drawer;
use cwr_share::Registry;
use line_split::Usage;
use run_signals::{ReaderSignals, Signals, WorkerSignals};
use std::alloc::Global;
use std::snapshot::Snapshot;
use std::sync::Wait;
use std::sync::atomic::{AtomicBool, Ordering};
use std::thread;
use std::thread::{Promise, PromisedHandle, Scope, Threads, join_promised};
use tis_tree::TisTable;

/// What a worker gives back: its senders, and its drawer.
#[derive(Drop)]
pub(crate) struct WorkerResult<B: Mailboxes> {
    pub senders: Vec<B::Sender>,
    pub drawer: Drawer,
}

/// What is promised of what a worker's thread gives back: no block is left, and its senders have sent all that the blocks come
/// to that it drew, and have ended.
#[derive(Drop)]
pub(crate) struct WorkerPromise<B: Mailboxes> {
    tis: Snapshot<TisTable>,
    registry: Snapshot<Registry>,
    usage: Snapshot<Usage>,
    worker: Snapshot<Worker<B>>,
}

impl<B: Mailboxes> Promise<Option<WorkerResult<B>>> for WorkerPromise<B> {
    ghost use Rattle.std.specs.Prelude.{IfSome};
    ghost use Rattle.split_run.specs.Divisions.{division_by};
    ghost use Rattle.split_run.specs.Running.{HasWorked};

    ghost kept_by = { λ promise given. IfSome given (HasWorked B.is_shared B.senders (division_by promise.tis.value promise.registry.value) promise.usage.value promise.worker.value) };
}

/// What a reader's thread gives back: its mailboxes, which have ended, and the statements of their accounts.
#[derive(Drop)]
pub(crate) struct ReaderPromise<B: Mailboxes> {
    reader: Snapshot<Reader<B>>,
}

impl<B: Mailboxes> Promise<Option<ReaderResult<B>>> for ReaderPromise<B> {
    ghost use Rattle.std.specs.Prelude.{IfSome};
    ghost use Rattle.split_run.specs.Reading.{HasServed};

    ghost kept_by = { λ promise given. IfSome given (HasServed B.receiver promise.reader.value) };
}

/// What a reader's thread does. None: the run was stopped, or memory was refused.
fn read_in_thread<B: Mailboxes, R: Wait>(
    rt: &R,
    reader: Reader<B>,
    stop: &AtomicBool,
    signals: &Signals,
) -> Option<ReaderResult<B>>
    requires taken { HasKept B.receiver reader }
    ensures { IfSome result (HasServed B.receiver reader) }
{
    let mut reader = reader;
    let mut signals = ReaderSignals::new(signals, reader.number);
    if reader.serve(rt, stop, &mut signals) {
        Some(reader.into_result())
    } else {
        None
    }
}

/// Starts a reader, if a thread can be made.
fn start_reader<'s, E, B: Mailboxes + 's, R: Threads + Wait + Sync>(
    scope: &Scope<'s, E>,
    rt: &'s R,
    reader: Reader<B>,
    stop: &'s AtomicBool,
    signals: &'s Signals,
) -> Option<PromisedHandle<Option<ReaderResult<B>>, ReaderPromise<B>>>
    requires taken { HasKept B.receiver reader }
    ensures { IfSome result (λ started. started.promise.reader.value ≡ reader) }
{
    let promise: ReaderPromise<B> = ReaderPromise {
        reader: Snapshot::of(&reader),
    };
    scope
        .spawn_with(
            promise,
            move || -> Option<ReaderResult<B>>
                requires { HasKept B.receiver reader }
                ensures { IfSome result (HasServed B.receiver reader) }
            { read_in_thread::<B, R>(rt, reader, stop, signals) },
        )
        .ok()
}

/// What a worker's thread does. None: the run was stopped.
fn work_in_thread<B: Mailboxes, G: Gate, R: Wait>(
    rt: &R,
    inputs: Inputs<'_>,
    gate: &G,
    worker: Worker<B>,
    number: u64,
    stop: &AtomicBool,
    signals: &Signals,
) -> Option<WorkerResult<B>>
    requires { IsReady B.is_shared B.senders (account_count inputs) (line_count inputs) worker }
    ensures { IfSome result (HasWorked B.is_shared B.senders (division_in inputs.entry) (lines_in inputs.entry) worker) }
{
    let mut worker = worker;
    let mut signals = WorkerSignals::new(Some(signals), number);
    let done = work_on::<B, G, R>(
        rt,
        worker.senders.as_mut_slice(),
        inputs,
        &mut worker.drawer,
        number,
        &mut worker.claims,
        &mut worker.portions,
        gate,
        stop,
        &mut signals,
    );
    if done {
        Some(WorkerResult {
            senders: worker.senders,
            drawer: worker.drawer,
        })
    } else {
        None
    }
}

/// Starts a worker, if a thread can be made.
fn start_worker<'s, E, B: Mailboxes + 's, G: Gate, R: Threads + Wait + Sync>(
    scope: &Scope<'s, E>,
    rt: &'s R,
    inputs: Inputs<'s>,
    gate: &'s G,
    worker: Worker<B>,
    number: u64,
    stop: &'s AtomicBool,
    signals: &'s Signals,
) -> Option<PromisedHandle<Option<WorkerResult<B>>, WorkerPromise<B>>>
    requires { IsReady B.is_shared B.senders (account_count inputs) (line_count inputs) worker }
    ensures inputs { IfSome result (λ started. IsPromisedOf inputs.entry started.promise) }
    ensures worker { IfSome result (λ started. started.promise.worker.value ≡ worker) }
{
    let promise: WorkerPromise<B> = WorkerPromise {
        tis: Snapshot::of(inputs.tis),
        registry: Snapshot::of(inputs.registry),
        usage: Snapshot::of(inputs.usage),
        worker: Snapshot::of(&worker),
    };
    scope
        .spawn_with(
            promise,
            move || -> Option<WorkerResult<B>>
                requires { IsReady B.is_shared B.senders (account_count inputs) (line_count inputs) worker }
                ensures { IfSome result (HasWorked B.is_shared B.senders (division_in inputs.entry) (lines_in inputs.entry) worker) }
            { work_in_thread::<B, G, R>(rt, inputs, gate, worker, number, stop, signals) },
        )
        .ok()
}

/// Starts all readers. None: a thread was refused, as the one with the number `cut` is, from 0.
fn start_readers<'s, E, B: Mailboxes + 's, R: Threads + Wait + Sync>(
    scope: &Scope<'s, E>,
    rt: &'s R,
    readers: Vec<Reader<B>>,
    cut: u64,
    stop: &'s AtomicBool,
    signals: &'s Signals,
    room: Vec<PromisedHandle<Option<ReaderResult<B>>, ReaderPromise<B>>>,
) -> Option<Vec<PromisedHandle<Option<ReaderResult<B>>, ReaderPromise<B>>>>
    requires room { vec_len room ≡ 0 }
    requires taken { All (λ reader. HasKept B.receiver reader) readers.items }
    ensures cut { IfSome result (λ _. vec_len readers ≤ cut) }
    ensures count { IfSome result (λ all. vec_len all ≡ vec_len readers) }
    ensures readers { IfSome result (λ all. EachGoesWith (λ reader started. started.promise.reader.value ≡ reader) readers.items all.items) }
{
    let mut started = room;
    for reader in readers {
        if started.len() as u64 == cut {
            return None;
        }
        let handle = start_reader::<E, B, R>(scope, rt, reader, stop, signals)?;
        started.push(handle).ok()?;
    }
    Some(started)
}

/// Starts all workers. None: a thread was refused, as the one with the number `cut` is, from 0.
fn start_workers<'s, E, B: Mailboxes + 's, G: Gate, R: Threads + Wait + Sync>(
    scope: &Scope<'s, E>,
    rt: &'s R,
    inputs: Inputs<'s>,
    gate: &'s G,
    jobs: Vec<Worker<B>>,
    cut: u64,
    stop: &'s AtomicBool,
    signals: &'s Signals,
    room: Vec<PromisedHandle<Option<WorkerResult<B>>, WorkerPromise<B>>>,
) -> Option<Vec<PromisedHandle<Option<WorkerResult<B>>, WorkerPromise<B>>>>
    requires room { vec_len room ≡ 0 }
    requires few { length jobs.items ≤ 8 }
    requires ready { All (IsReady B.is_shared B.senders (account_count inputs) (line_count inputs)) jobs.items }
    ensures cut { IfSome result (λ _. vec_len jobs ≤ cut) }
    ensures count { IfSome result (λ all. vec_len all ≡ vec_len jobs) }
    ensures inputs { IfSome result (λ all. (number : ℕ) (d : _) → number < length jobs.items → IsPromisedOf inputs.entry (slice_index_or all.items number d).promise) }
    ensures workers { IfSome result (λ all. EachGoesWith (λ worker started. started.promise.worker.value ≡ worker) jobs.items all.items) }
{
    let mut started = room;
    let mut number = 0;
    for job in jobs {
        if number == cut {
            return None;
        }
        let handle = start_worker::<E, B, G, R>(
            scope, rt, inputs, gate, job, number, stop, signals,
        )?;
        started.push(handle).ok()?;
        number += 1;
    }
    Some(started)
}

/// Lets all readers and workers run at once, and answers what each gave back. None: memory or a thread was refused, as the one
/// with the number `cut` is, readers first; then those that were started have stopped.
pub(crate) fn run_threads<B: Mailboxes, G: Gate, R: Threads + Wait + Sync>(
    rt: &R,
    alloc: Global,
    inputs: Inputs<'_>,
    gate: &G,
    workers: Vec<Worker<B>>,
    readers: Vec<Reader<B>>,
    cut: u64,
    signals: &Signals,
) -> Option<(Vec<Option<WorkerResult<B>>>, Vec<Option<ReaderResult<B>>>)>
    requires few { length workers.items ≤ 8 }
    requires ready { All (IsReady B.is_shared B.senders (account_count inputs) (line_count inputs)) workers.items }
    requires taken { All (λ reader. (reader.workers ≡ length workers.items) × HasKept B.receiver reader) readers.items }
    ensures cut { IfSome result (λ _. length readers.items + length workers.items ≤ cut) }
    ensures worked { IfSome result (λ r. AreGivenFor (HasWorked B.is_shared B.senders (division_in inputs.entry) (lines_in inputs.entry)) workers.items r.0.items) }
    ensures read { IfSome result (λ r. AreGivenFor (HasServed B.receiver) readers.items r.1.items) }
{
    let working_room = Vec::with_capacity(alloc, workers.len()).ok()?;
    let reading_room = Vec::with_capacity(alloc, readers.len()).ok()?;
    let stop = AtomicBool::new(false);
    let stop = &stop;
    thread::scope(
        thread::scope_env(),
        rt,
        move |scope| -> Option<(Vec<Option<WorkerResult<B>>>, Vec<Option<ReaderResult<B>>>)>
            requires few { length workers.items ≤ 8 }
            requires rooms { (vec_len working_room ≡ 0) × (vec_len reading_room ≡ 0) }
            requires ready { All (IsReady B.is_shared B.senders (account_count inputs) (line_count inputs)) workers.items }
            requires taken { All (λ reader. (reader.workers ≡ length workers.items) × HasKept B.receiver reader) readers.items }
            ensures cut { IfSome result (λ _. length readers.items + length workers.items ≤ cut) }
            ensures worked { IfSome result (λ r. AreGivenFor (HasWorked B.is_shared B.senders (division_in inputs.entry) (lines_in inputs.entry)) workers.items r.0.items) }
            ensures read { IfSome result (λ r. AreGivenFor (HasServed B.receiver) readers.items r.1.items) }
        {
            let count = readers.len() as u64;
            let Some(reading) = start_readers::<_, B, R>(
                scope,
                rt,
                readers,
                cut,
                stop,
                signals,
                reading_room,
            ) else {
                stop.store(true, Ordering::SeqCst);
                return None;
            };
            let Some(working) = start_workers::<_, B, G, R>(
                scope,
                rt,
                inputs,
                gate,
                workers,
                cut - count,
                stop,
                signals,
                working_room,
            ) else {
                stop.store(true, Ordering::SeqCst);
                return None;
            };
            let worked = join_promised(rt, working).ok()?;
            let read = join_promised(rt, reading).ok()?;
            Some((worked, read))
        },
    )
}
