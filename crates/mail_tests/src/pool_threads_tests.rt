//! A pool of linked nodes between threads: what each sender sends to a mailbox is received there once and in order,
//! however often its nodes are used again.

ghost use Rattle.std.specs.Prelude.{◌<◌, ◌≤◌, unsigned_abs};

use crate::posters::{Poster, open_posters};
use pool_box::{Item, PoolMail, PoolReceiver, Posted, Took};
use std::alloc::{AllocError, Global};
use std::process::Abort;
use std::test::Fail;
use std::thread;
use std::thread::{Threads, join, map_vec};

/// How often a thread may find nothing to do before its test fails.
const MOST_TURNS: u64 = 1_000_000_000;

/// What is to come to each mailbox: so many posts of each of so many senders.
#[derive(Clone, Copy)]
struct Load {
    senders: u64,
    mailboxes: u64,
    posts: u64,
}

/// A mailbox, and how many items have come there of each sender.
#[derive(Drop)]
struct Inbox {
    receiver: PoolReceiver,
    mailbox: u64,
    come: [u64; 4],
}

/// The mailbox of a sender's line.
fn mailbox_of(sender: u64, line: u64, mailboxes: u64) -> u64
    requires { 0 < mailboxes }
    ensures { result < mailboxes }
{
    (sender % 8 + line % 1_000_000) % mailboxes
}

/// The amount of a sender's post.
fn amount_of(sender: u64, line: u64) -> i64
    ensures { (0 < unsigned_abs result) × (unsigned_abs result ≤ 1000000000000) }
{
    let size = (sender % 8 * 1_000_000 + line % 1_000_000 + 1) as i64;
    if line % 2 == 0 { size } else { -size }
}

/// Sends a post, if there is a node for it.
fn try_post(rt: &impl Abort, poster: &mut Poster, line: u64, lines: u64) -> Posted {
    let number = PoolMail::number(&poster.sender);
    let mailbox = mailbox_of(number, line, poster.mailboxes);
    assert!(rt; line < lines && lines <= 1_000_000);
    assert_eq!(rt; PoolMail::left(&poster.sender), lines - line);
    assert!(rt; !PoolMail::ended(&poster.sender, mailbox));
    PoolMail::try_send(&mut poster.sender, mailbox, line, amount_of(number, line))
}

/// Sends a post, once there is a node for it.
fn send(rt: &impl Abort, poster: &mut Poster, line: u64, lines: u64) {
    for _ in 0..MOST_TURNS {
        if try_post(rt, poster, line, lines) == Posted::Sent {
            return;
        }
        thread::yield_now();
    }
    panic!(rt; "no node is given back");
}

/// Sends an end mark.
fn end(rt: &impl Abort, poster: &mut Poster, mailbox: u64) {
    assert!(rt; mailbox < poster.mailboxes && !PoolMail::ended(&poster.sender, mailbox));
    PoolMail::end(&mut poster.sender, mailbox);
}

/// Sends all posts of a sender, and its end marks.
fn send_all(rt: &impl Abort, mut poster: Poster, lines: u64) {
    for line in 0..lines {
        send(rt, &mut poster, line, lines);
    }
    assert_eq!(rt; PoolMail::left(&poster.sender), 0);
    for mailbox in 0..poster.mailboxes {
        end(rt, &mut poster, mailbox);
    }
}

/// Asserts that an item is the next of its sender in a mailbox.
fn assert_next(rt: &impl Abort, inbox: &mut Inbox, load: Load, sender: u64, item: Item) {
    assert!(rt;
        sender < load.senders && sender < 4,
        "no sender has the item"
    );
    assert!(rt; load.mailboxes > 0);
    let place = inbox.come[sender as usize];
    assert!(rt; place <= load.posts, "the end mark is the last");
    match item {
        Item::Post { line, amount } => {
            assert!(rt; place < load.posts && line / load.mailboxes == place);
            assert_eq!(rt; amount, amount_of(sender, line));
            assert_eq!(rt; mailbox_of(sender, line, load.mailboxes), inbox.mailbox);
        }
        Item::End => assert_eq!(rt; place, load.posts),
    }
    inbox.come[sender as usize] = place.saturating_add(1);
}

/// Takes the next item of a mailbox, if there is one, and gives it back. Whether there was.
fn take_next(rt: &impl Abort, inbox: &mut Inbox, load: Load) -> bool {
    let Took::Held(held) = PoolMail::take(&mut inbox.receiver) else {
        return false;
    };
    let (sender, item) = PoolMail::read(&mut inbox.receiver, &held);
    PoolMail::give_back(&mut inbox.receiver, held);
    assert_next(rt, inbox, load, sender, item);
    true
}

/// Takes from each mailbox in turn. Whether any had an item.
fn take_round(rt: &impl Abort, inboxes: &mut Vec<Inbox>, load: Load) -> bool {
    let mut took = false;
    for inbox in inboxes.iter_mut() {
        if take_next(rt, inbox, load) {
            took = true;
        }
    }
    took
}

/// Whether all posts and the end mark of each sender have come to a mailbox.
fn is_complete(inbox: &Inbox, load: Load) -> bool {
    let all = load.posts.saturating_add(1);
    inbox.come.iter().filter(|come| **come == all).count() as u64 == load.senders
}

/// Takes all items of mailboxes, and asserts that those of each sender come in order, none left out and none twice.
fn take_all(rt: &impl Abort, mut inboxes: Vec<Inbox>, load: Load) {
    for _ in 0..MOST_TURNS {
        if take_round(rt, &mut inboxes, load) {
            continue;
        }
        if inboxes.iter().all(|inbox| is_complete(inbox, load)) {
            return;
        }
        thread::yield_now();
    }
    panic!(rt; "no item comes");
}

/// The mailboxes with an even number, and those with an odd one.
fn deal(
    alloc: Global,
    receivers: Vec<PoolReceiver>,
) -> Result<(Vec<Inbox>, Vec<Inbox>), AllocError> {
    let (mut even, mut odd) = (Vec::new(alloc), Vec::new(alloc));
    for (number, receiver) in receivers.into_iter().enumerate() {
        let inbox = Inbox {
            receiver,
            mailbox: number as u64,
            come: [0; 4],
        };
        if number % 2 == 0 {
            even.push(inbox)?;
        } else {
            odd.push(inbox)?;
        }
    }
    Ok((even, odd))
}

/// So many senders, and two readers that go round their mailboxes, each in a thread of its own.
fn post_in_threads<R: Abort + Threads + Sync>(
    rt: &R,
    alloc: Global,
    load: Load,
    nodes: u64,
) -> Result<(), Fail>
    requires senders { (0 < load.senders) × (load.senders ≤ 8) }
    requires mailboxes { (0 < load.mailboxes) × (load.mailboxes ≤ 16384) }
    requires posts { load.posts ≤ 1000000 }
    requires nodes { (0 < nodes) × (nodes ≤ 64) }
{
    let lines = load.mailboxes * load.posts;
    assert!(rt; lines <= 1_000_000);
    let (posters, receivers) = open_posters(alloc, load.senders, load.mailboxes, nodes, lines)?;
    let (even, odd) = deal(alloc, receivers)?;
    let (sent, _) = join(
        rt,
        move || map_vec(rt, posters, &|poster| send_all(rt, poster, lines)),
        || join(
            rt,
            move || take_all(rt, even, load),
            move || take_all(rt, odd, load),
        ),
    );
    sent?;
    Ok(())
}

/// 5,181,088 posts, and with those of three senders ten million.
#[test]
fn four_senders_post_to_mailboxes_in_threads(rt: HostRuntime) -> Result<(), Fail> {
    for (mailboxes, nodes, posts) in [
        (2, 1, 60_000),
        (2, 64, 218_484),
        (64, 2, 2_000),
        (64, 64, 8_000),
        (16_384, 64, 6),
    ] {
        let load = Load {
            senders: 4,
            mailboxes,
            posts,
        };
        post_in_threads(&rt, rt.alloc(), load, nodes)?;
    }
    Ok(())
}

/// 4,818,912 posts.
#[test]
fn three_senders_post_to_mailboxes_in_threads(rt: HostRuntime) -> Result<(), Fail> {
    for (mailboxes, nodes, posts) in [
        (2, 2, 120_000),
        (2, 64, 250_000),
        (64, 1, 2_000),
        (64, 64, 10_000),
        (16_384, 64, 6),
    ] {
        let load = Load {
            senders: 3,
            mailboxes,
            posts,
        };
        post_in_threads(&rt, rt.alloc(), load, nodes)?;
    }
    Ok(())
}
