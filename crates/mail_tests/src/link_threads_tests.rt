//! A mailbox of linked nodes between threads: what each sender sends is received once and in order, however often its nodes are used again.

ghost use Rattle.std.specs.Prelude.{◌<◌, ◌≤◌, unsigned_abs};

use crate::relay_tests::open_two;
use mail_box::{Item, LinkMail, LinkReceiver, LinkSender, Posted, Took};
use std::alloc::{AllocError, Global};
use std::process::Abort;
use std::test::Fail;
use std::thread;
use std::thread::{Threads, join};

/// How many posts each sender sends: ten million in all, over two and over three senders, each with 1, 2 and 64 nodes.
const POSTS: u64 = 666_667;

/// How often a thread may find nothing to do before its test fails.
const MOST_TURNS: u64 = 1_000_000_000;

/// The amount of a sender's post.
fn amount_of(sender: u64, line: u64) -> i64
    ensures { (0 < unsigned_abs result) × (unsigned_abs result ≤ 1000000000000) }
{
    let size = (sender % 8 * 1_000_000 + line % 1_000_000 + 1) as i64;
    if line % 2 == 0 { size } else { -size }
}

/// Sends a post, once there is a node for it.
fn send(rt: &impl Abort, sender: &mut LinkSender, line: u64) {
    for _ in 0..MOST_TURNS {
        let amount = amount_of(LinkMail::number(sender), line);
        assert!(rt;
            line < POSTS && LinkMail::left(sender) == POSTS - line && !LinkMail::ended(sender)
        );
        if LinkMail::try_send(sender, line, amount) == Posted::Sent {
            return;
        }
        thread::yield_now();
    }
    panic!(rt; "no node is given back");
}

/// Sends all posts of a sender and its end mark.
fn send_all(rt: &impl Abort, mut sender: LinkSender) {
    for line in 0..POSTS {
        send(rt, &mut sender, line);
    }
    assert!(rt; LinkMail::left(&sender) == 0 && !LinkMail::ended(&sender));
    LinkMail::end(&mut sender);
}

/// Takes the next item, once there is one, reads it and gives it back.
fn take_next(rt: &impl Abort, receiver: &mut LinkReceiver) -> (u64, Item) {
    for _ in 0..MOST_TURNS {
        if let Took::Held(held) = LinkMail::take(receiver) {
            let pair = LinkMail::read(receiver, &held);
            LinkMail::give_back(receiver, held);
            return pair;
        }
        thread::yield_now();
    }
    panic!(rt; "no item comes");
}

/// Takes all items of so many senders, and asserts that those of each come in order, none left out and none twice.
fn take_all(rt: &impl Abort, mut receiver: LinkReceiver, senders: u64) {
    let mut next = [0u64; 3];
    for _ in 0..senders % 4 * (POSTS + 1) {
        let (sender, item) = take_next(rt, &mut receiver);
        assert!(rt; sender < 3, "no sender has the item");
        let place = next[sender as usize];
        assert!(rt; place <= POSTS, "the end mark is the last");
        match item {
            Item::Post { line, amount } => {
                assert!(rt; place < POSTS && line == place && amount == amount_of(sender, line));
            }
            Item::End => assert_eq!(rt; place, POSTS),
        }
        next[sender as usize] = place + 1;
    }
    match LinkMail::take(&mut receiver) {
        Took::Held(held) => {
            LinkMail::give_back(&mut receiver, held);
            panic!(rt; "an item comes after the end marks");
        }
        Took::Empty => {}
        Took::Busy => panic!(rt; "nothing is on its way"),
    }
}

/// Two senders and a receiver, each in a thread of its own.
fn post_of_two<R: Abort + Threads + Sync>(rt: &R, alloc: Global, nodes: u64) -> Result<(), Fail>
    requires { (0 < nodes) × (nodes ≤ 64) }
{
    let (first, second, receiver) = open_two(alloc, &LinkMail, nodes, POSTS)?;
    join(
        rt,
        move || send_all(rt, first),
        || join(
            rt,
            move || take_all(rt, receiver, 2),
            move || send_all(rt, second),
        ),
    );
    Ok(())
}

/// A mailbox of three senders.
fn open_three(
    alloc: Global,
    nodes: u64,
) -> Result<(LinkSender, LinkSender, LinkSender, LinkReceiver), AllocError>
    requires { (0 < nodes) × (nodes ≤ 64) }
{
    let (mut senders, receiver) = LinkMail::open(alloc, 3, nodes, POSTS)?;
    let third = senders.swap_remove(2);
    let second = senders.swap_remove(1);
    let first = senders.swap_remove(0);
    Ok((first, second, third, receiver))
}

/// Three senders and a receiver, each in a thread of its own.
fn post_of_three<R: Abort + Threads + Sync>(rt: &R, alloc: Global, nodes: u64) -> Result<(), Fail>
    requires { (0 < nodes) × (nodes ≤ 64) }
{
    let (first, second, third, receiver) = open_three(alloc, nodes)?;
    join(
        rt,
        || join(
            rt,
            move || send_all(rt, first),
            move || send_all(rt, second),
        ),
        || join(
            rt,
            move || take_all(rt, receiver, 3),
            move || send_all(rt, third),
        ),
    );
    Ok(())
}

#[test]
fn two_senders_post_in_threads(rt: HostRuntime) -> Result<(), Fail> {
    for nodes in [1, 2, 64] {
        post_of_two(&rt, rt.alloc(), nodes)?;
    }
    Ok(())
}

#[test]
fn three_senders_post_in_threads(rt: HostRuntime) -> Result<(), Fail> {
    for nodes in [1, 2, 64] {
        post_of_three(&rt, rt.alloc(), nodes)?;
    }
    Ok(())
}
