//! What a worker of a pool sends that works alone.
ghost use Rattle.std.specs.Prelude.{◌≡◌, ◌≤◌, ◌*◌, ℕ, [], IfOk, false};
ghost use Rattle.pool_box.specs.PoolViews.{sender_of};
ghost use Rattle.block_draw.specs.Views.{drawer_of};
ghost use Rattle.split_run.specs.Opening.{IsFresh};

use crate::shared::{Inputs, repeated};
use crate::split_run_tests::{drawer_alone, only_drawer};
use line_split::{MOST_CLAIMS, Portions};
use pool_box::{Item, PoolMail, PoolReceiver, PoolSender, Took};
use small_run::{NO_USES, USES};
use split_run::{Drawer, NoGate, work_pool};
use std::alloc::{AllocError, Global};
use std::process::Abort;
use std::sync::Wait;
use std::sync::atomic::AtomicBool;
use std::test::Fail;

/// The only sender of a pool of three mailboxes, which may post so many times, and the receivers.
fn open_alone(alloc: Global, most: u64) -> Result<(PoolSender, Vec<PoolReceiver>), AllocError>
    requires { most ≤ 257000000 }
    ensures mailboxes { IfOk result (λ r. (sender_of r.0).mailboxes ≡ 3) }
    ensures fresh { IfOk result (λ r. (account : ℕ)
        → ((sender_of r.0).sent account ≡ []) × ((sender_of r.0).is_ended account ≡ false)) }
    ensures left { IfOk result (λ r. (sender_of r.0).left ≡ most) }
{
    let (mut senders, receivers, _tally) = PoolMail::open(alloc, 1, 3, 64, most)?;
    Ok((senders.swap_remove(0), receivers))
}

/// What the only worker of a run over these inputs, with so many usage lines, answers over this sender and by this
/// drawer.
fn work_alone<R: Abort + Wait>(
    rt: &R,
    alloc: Global,
    sender: &mut PoolSender,
    inputs: &Inputs,
    lines: usize,
    drawer: &mut Drawer,
    stop: &AtomicBool,
) -> Result<bool, Fail>
    requires mailboxes { (sender_of sender.old).mailboxes ≡ 3 }
    requires fresh { (account : ℕ)
        → ((sender_of sender.old).sent account ≡ []) × ((sender_of sender.old).is_ended account ≡ false) }
    requires left { (sender_of sender.old).left ≡ 257 * lines }
    requires drawer { IsFresh lines (drawer_of drawer.old) }
{
    let (tis, registry, usage) = (&inputs.tis, &inputs.registry, &inputs.usage);
    assert_eq!(rt; registry.accounts(), 3);
    assert_eq!(rt; usage.len(), lines);
    let mut claims = registry.scratch(alloc)?;
    let mut portions = Portions::room(alloc, MOST_CLAIMS + 1)?;
    let (claims, portions) = (&mut claims, &mut portions);
    Ok(work_pool::<PoolMail, NoGate, R>(
        rt, sender, tis, registry, usage, drawer, 0, claims, portions, &NoGate, stop,
    ))
}

/// Takes one item of a mailbox, reads it and gives it back.
fn receive(receiver: &mut PoolReceiver) -> Option<(u64, Item)> {
    match PoolMail::take(receiver) {
        Took::Held(held) => {
            let pair = PoolMail::read(receiver, &held);
            PoolMail::give_back(receiver, held);
            Some(pair)
        }
        Took::Empty | Took::Busy => None,
    }
}

/// Asserts what the mailbox of an account gives: its only sender's items, and then nothing.
fn assert_gives(rt: &impl Abort, receiver: &mut PoolReceiver, items: &[Item]) {
    for item in items {
        assert_eq!(rt; receive(receiver), Some((0, *item)));
    }
    assert_eq!(rt; receive(receiver), None);
}

/// Asserts what the mailboxes of the residue and the two parties give.
fn assert_all_give(
    rt: &impl Abort,
    receivers: Vec<PoolReceiver>,
    items: [&[Item]; 3],
) -> Result<(), Fail> {
    let mut account = 0;
    for receiver in receivers {
        let mut receiver = receiver;
        assert!(rt; account < 3);
        assert_gives(rt, &mut receiver, items[account]);
        account += 1;
    }
    assert_eq!(rt; account, 3);
    Ok(())
}

/// Lets the only worker of the small run do its work by a pool, and asserts what it answers, how many posts its sender
/// has left, and what the mailboxes give.
fn assert_work<R: Abort + Wait>(
    rt: &R,
    alloc: Global,
    is_stopped: bool,
    left: u64,
    items: [&[Item]; 3],
) -> Result<(), Fail> {
    let (mut sender, receivers) = open_alone(alloc, 771)?;
    let inputs = Inputs::read(alloc, USES)?;
    let mut drawer = only_drawer(alloc)?;
    let stop = AtomicBool::new(is_stopped);
    let is_done = work_alone(rt, alloc, &mut sender, &inputs, 3, &mut drawer, &stop)?;
    assert_eq!(rt; is_done, !is_stopped);
    assert_eq!(rt; PoolMail::left(&sender), left);
    assert_all_give(rt, receivers, items)
}

#[test]
fn a_worker_of_a_pool_sends_what_its_lines_come_to(rt: HostRuntime) -> Result<(), Fail> {
    let post = |line: u64, amount: i64| -> Item { Item::Post { line, amount } };
    let to_residue = [post(1, 30), post(2, 7), Item::End];
    let to_first = [post(0, 60), Item::End];
    let to_second = [post(0, 40), post(1, 20), Item::End];
    let items = [
        to_residue.as_slice(),
        to_first.as_slice(),
        to_second.as_slice(),
    ];
    assert_work(&rt, rt.alloc(), false, 766, items)
}

#[test]
fn a_worker_of_a_pool_that_is_stopped_sends_nothing(rt: HostRuntime) -> Result<(), Fail> {
    let none: &[Item] = &[];
    assert_work(&rt, rt.alloc(), true, 771, [none; 3])
}

#[test]
fn a_worker_of_a_pool_comes_to_the_last_of_many_lines(rt: HostRuntime) -> Result<(), Fail> {
    let alloc = rt.alloc();
    let (mut sender, receivers) = open_alone(alloc, 257_257)?;
    let last = "the last,W1,276,P,100\n";
    let uses = repeated(alloc, NO_USES, "use,W1,276,P,0\n", 1000, last)?;
    let inputs = Inputs::read(alloc, uses.as_str())?;
    let mut drawer = drawer_alone(alloc, 16)?;
    let stop = AtomicBool::new(false);
    assert!(&rt; work_alone(&rt, alloc, &mut sender, &inputs, 1001, &mut drawer, &stop)?);
    assert_eq!(&rt; PoolMail::left(&sender), 257_255);
    let to_first = [
        Item::Post {
            line: 1000,
            amount: 60,
        },
        Item::End,
    ];
    let to_second = [
        Item::Post {
            line: 1000,
            amount: 40,
        },
        Item::End,
    ];
    let items = [
        [Item::End].as_slice(),
        to_first.as_slice(),
        to_second.as_slice(),
    ];
    assert_all_give(&rt, receivers, items)
}
