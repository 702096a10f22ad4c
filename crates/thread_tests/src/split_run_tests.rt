//! What a worker alone sends.
ghost use Rattle.std.specs.Prelude.{◌≡◌, ◌<◌, ◌≤◌, [], IfOk, false, map};
ghost use Rattle.mail_box.specs.LaneViews.{sender_of};
ghost use Rattle.mail_box.specs.Mails.{opened_sender};
ghost use Rattle.block_draw.specs.Views.{drawer_of};
ghost use Rattle.split_run.specs.Opening.{IsFresh};
ghost use Rattle.split_run.specs.Sending.{AreFresh, AreReadyFor};

use crate::shared::{Inputs, watch};
use line_split::{MOST_CLAIMS, Portions};
use mail_box::{Item, LaneMail, LaneReceiver, LaneSender, Mail, receive};
use small_run::{NO_USES, USES};
use split_run::{Draw, Drawer, Gate, work};
use std::alloc::{AllocError, Global};
use std::process::Abort;
use std::sync::Wait;
use std::sync::atomic::{AtomicBool, AtomicU64, Ordering};
use std::test::Fail;
use std::thread;
use std::thread::{Threads, join};

/// A mailbox of one sender.
fn open_one<M: Mail>(
    alloc: Global,
    mail: &M,
    nodes: u64,
    most: u64,
) -> Result<(M::Sender, M::Receiver), AllocError>
    requires { (0 < nodes) × (nodes ≤ 64) × (most ≤ 1000000) }
    ensures { IfOk result (λ r. M.sender r.0 ≡ opened_sender (M.receiver r.1).mailbox 0 nodes most) }
{
    let (mut senders, receiver) = mail.open(alloc, 1, nodes, most)?;
    Ok((senders.swap_remove(0), receiver))
}

/// Three mailboxes, each of one sender with so many nodes, which may post three times.
fn open_three(alloc: Global, nodes: u64) -> Result<([LaneSender; 3], [LaneReceiver; 3]), AllocError>
    requires { (0 < nodes) × (nodes ≤ 64) }
    ensures fresh { IfOk result (λ r. AreFresh (map sender_of r.0)) }
    ensures ready { IfOk result (λ r. AreReadyFor false (map sender_of r.0) 3) }
{
    let (first, to_first) = open_one(alloc, &LaneMail, nodes, 3)?;
    let (second, to_second) = open_one(alloc, &LaneMail, nodes, 3)?;
    let (third, to_third) = open_one(alloc, &LaneMail, nodes, 3)?;
    Ok(([first, second, third], [to_first, to_second, to_third]))
}

/// The only drawer of so many blocks.
pub fn drawer_alone(alloc: Global, blocks: u64) -> Result<Drawer, AllocError>
    requires { blocks ≤ 15625 }
    ensures { IfOk result (λ drawer. ((drawer_of drawer).blocks ≡ blocks) × ((drawer_of drawer).drawn ≡ [])) }
{
    let (_draw, mut drawers) = Draw::open(alloc, blocks, 1)?;
    Ok(drawers.swap_remove(0))
}

/// The only drawer of the blocks of three lines.
pub fn only_drawer(alloc: Global) -> Result<Drawer, AllocError>
    ensures { IfOk result (λ drawer. IsFresh 3 (drawer_of drawer)) }
{
    drawer_alone(alloc, 1)
}

/// Asserts what the mailbox of an account gives: its only sender's items, and then nothing.
fn assert_gives<R: Abort + Wait>(rt: &R, receiver: &mut LaneReceiver, items: &[Item]) {
    for item in items {
        assert_eq!(rt; receive::<LaneMail, R>(rt, receiver), Some((0, *item)));
    }
    assert_eq!(rt; receive::<LaneMail, R>(rt, receiver), None);
}

/// What the only worker of a run over these inputs, with three usage lines, answers over these senders and by this drawer.
fn work_by<G: Gate, R: Abort + Wait>(
    rt: &R,
    alloc: Global,
    senders: &mut [LaneSender],
    inputs: &Inputs,
    drawer: &mut Drawer,
    gate: &G,
    stop: &AtomicBool,
) -> Result<bool, Fail>
    requires fresh { AreFresh (map sender_of senders.old) }
    requires ready { AreReadyFor false (map sender_of senders.old) 3 }
    requires drawer { IsFresh 3 (drawer_of drawer.old) }
{
    let (tis, registry, usage) = (&inputs.tis, &inputs.registry, &inputs.usage);
    assert_eq!(rt; registry.accounts() as usize, senders.len());
    assert_eq!(rt; usage.len(), 3);
    let mut claims = registry.scratch(alloc)?;
    let mut portions = Portions::room(alloc, MOST_CLAIMS + 1)?;
    let (claims, portions) = (&mut claims, &mut portions);
    Ok(work::<LaneMail, G, R>(
        rt, senders, tis, registry, usage, drawer, 0, claims, portions, gate, stop,
    ))
}

/// What the only worker of a run over three usage lines answers over these senders.
fn work_alone<G: Gate, R: Abort + Wait>(
    rt: &R,
    alloc: Global,
    senders: &mut [LaneSender],
    usage: &str,
    gate: &G,
    stop: &AtomicBool,
) -> Result<bool, Fail>
    requires fresh { AreFresh (map sender_of senders.old) }
    requires ready { AreReadyFor false (map sender_of senders.old) 3 }
{
    let inputs = Inputs::read(alloc, usage)?;
    let mut drawer = only_drawer(alloc)?;
    work_by(rt, alloc, senders, &inputs, &mut drawer, gate, stop)
}

/// A gate that counts the lines that it is told.
#[derive(Drop)]
struct LineCount {
    told: AtomicU64,
}

impl Gate for LineCount {
    fn pass(&self, _worker: u64, _line: u64) {
        self.told.fetch_add(1, Ordering::SeqCst);
    }
}

/// Lets the only worker of the small run do its work, and asserts what it answers, how many lines its gate is told, how many posts
/// its senders have left, and what the mailboxes of the residue and the two parties give.
fn assert_work<R: Abort + Wait>(
    rt: &R,
    alloc: Global,
    is_stopped: bool,
    told: u64,
    left: [u64; 3],
    items: [&[Item]; 3],
) -> Result<(), Fail> {
    let (mut senders, mut receivers) = open_three(alloc, 64)?;
    let stop = AtomicBool::new(is_stopped);
    let gate = LineCount {
        told: AtomicU64::new(0),
    };
    let is_done = work_alone(rt, alloc, &mut senders, USES, &gate, &stop)?;
    assert_eq!(rt;
        (is_done, gate.told.load(Ordering::SeqCst)),
        (!is_stopped, told)
    );
    for account in 0..3 {
        assert_eq!(rt; LaneMail::left(&senders[account]), left[account]);
        assert_gives(rt, &mut receivers[account], items[account]);
    }
    Ok(())
}

#[test]
fn a_worker_sends_what_its_lines_come_to(rt: HostRuntime) -> Result<(), Fail> {
    let post = |line: u64, amount: i64| -> Item { Item::Post { line, amount } };
    let to_residue = [post(1, 30), post(2, 7), Item::End];
    let to_first = [post(0, 60), Item::End];
    let to_second = [post(0, 40), post(1, 20), Item::End];
    let items = [
        to_residue.as_slice(),
        to_first.as_slice(),
        to_second.as_slice(),
    ];
    assert_work(&rt, rt.alloc(), false, 3, [1, 2, 1], items)
}

#[test]
fn a_worker_that_is_stopped_tells_and_sends_nothing(rt: HostRuntime) -> Result<(), Fail> {
    let none: &[Item] = &[];
    assert_work(&rt, rt.alloc(), true, 0, [3, 3, 3], [none; 3])
}

/// A gate that says when a worker has come to the second line.
#[derive(Drop)]
struct SecondLine {
    has_come: AtomicBool,
}

impl Gate for SecondLine {
    fn pass(&self, _worker: u64, line: u64) {
        if line == 1 {
            self.has_come.store(true, Ordering::SeqCst);
        }
    }
}

/// What the only worker answers where each mailbox has room for one item, and nobody takes it.
fn work_stuck<R: Abort + Wait>(
    rt: &R,
    alloc: Global,
    usage: &str,
    gate: &SecondLine,
    stop: &AtomicBool,
) -> Result<bool, Fail> {
    let (mut senders, _receivers) = open_three(alloc, 1)?;
    work_alone(rt, alloc, &mut senders, usage, gate, stop)
}

/// Stops a worker some turns after it has come to the second line, and sees that it ends.
fn stop_late(rt: &impl Abort, gate: &SecondLine, stop: &AtomicBool, done: &AtomicBool) {
    watch(rt, &gate.has_come);
    for _ in 0..10_000 {
        thread::yield_now();
    }
    assert!(rt;
        !done.load(Ordering::SeqCst),
        "a worker whose mailbox is full waits"
    );
    stop.store(true, Ordering::SeqCst);
    watch(rt, done);
}

/// Asserts that the only worker, which waits for room in a mailbox, ends once it is stopped.
fn assert_stops_waiting<R: Abort + Threads + Wait + Sync>(
    rt: &R,
    alloc: Global,
    usage: &str,
) -> Result<(), Fail> {
    let gate = SecondLine {
        has_come: AtomicBool::new(false),
    };
    let stop = AtomicBool::new(false);
    let done = AtomicBool::new(false);
    let (answer, _) = join(
        rt,
        || -> Result<bool, Fail> {
            let answer = work_stuck(rt, alloc, usage, &gate, &stop);
            done.store(true, Ordering::SeqCst);
            answer
        },
        || stop_late(rt, &gate, &stop, &done),
    );
    assert_eq!(rt; answer?, false);
    Ok(())
}

#[test]
fn a_worker_that_waits_with_a_post_is_stopped(rt: HostRuntime) -> Result<(), Fail> {
    assert_stops_waiting(&rt, rt.alloc(), USES)
}

/// Only the first line has postings, one for each party, whose mailboxes are full from then on.
#[test]
fn a_worker_that_waits_with_an_end_mark_is_stopped(rt: HostRuntime) -> Result<(), Fail> {
    let uses = format!(in rt.alloc(); "{NO_USES}u,W1,276,P,100\nu,W1,276,P,0\nu,W1,276,P,0\n")?;
    assert_stops_waiting(&rt, rt.alloc(), uses.as_str())
}
