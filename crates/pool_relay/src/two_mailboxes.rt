//! Two senders and the receivers of two mailboxes, each in a thread of its own.
ghost use Rattle.std.specs.Prelude.{◌≡◌, ◌<◌, ◌≤◌, ℕ, IfOk, length};
ghost use Rattle.pool_box.specs.Pools.{opened_receiver, opened_sender};
ghost use Rattle.pool_relay.specs.Postings.{ArePostable, HasGot, HasPosted, HasReceivedBoth, IsFreshFor, closed};

use crate::posting::Posting;
use crate::receiving::receive_all;
use crate::sending::send_all;
use pool_box::Pool;
use queue_core::MOST_POOL_POSTS;
use std::alloc::{AllocError, Global};
use std::sync::Wait;
use std::thread::{Threads, join};

/// Opens a pool, posts both lists in two threads, each post to its mailbox, and receives in two more. The tally has, of
/// each mailbox, all that each sender was given for it, in order, however the threads run.
pub fn relay<P: Pool, R: Threads + Wait + Sync>(
    rt: &R,
    alloc: Global,
    pool: &P,
    nodes: u64,
    posts: &[Posting],
    others: &[Posting],
) -> Result<P::Tally, AllocError>
    requires nodes { (0 < nodes) × (nodes ≤ 64) }
    requires first { (length posts.now ≤ 257000000) × ArePostable posts.now }
    requires second { (length others.now ≤ 257000000) × ArePostable others.now }
    ensures first { IfOk result (λ t. (mailbox : ℕ) → mailbox < 2 → HasGot (P.tally t) mailbox 0 (closed mailbox posts.now)) }
    ensures second { IfOk result (λ t. (mailbox : ℕ) → mailbox < 2 → HasGot (P.tally t) mailbox 1 (closed mailbox others.now)) }
{
    let (senders, receivers, tally) = open_two(alloc, pool, nodes)?;
    let (first, second) = senders;
    let (here, there) = receivers;
    let (sent, received) = join(
        rt,
        move || -> (P::Sender, P::Sender)
            requires { IsFreshFor (P.sender first) posts.now × IsFreshFor (P.sender second) others.now }
            ensures { HasPosted (P.sender first) (P.sender result.0) posts.entry.now × HasPosted (P.sender second) (P.sender result.1) others.entry.now }
        { post_both::<P, R>(rt, pool, first, posts, second, others) },
        move || -> (P::Receiver, P::Receiver)
            requires { ((P.receiver here).senders ≡ 2) × ((P.receiver there).senders ≡ 2) }
            ensures { HasReceivedBoth (P.receiver here) (P.receiver result.0) × HasReceivedBoth (P.receiver there) (P.receiver result.1) }
        { take_both::<P, R>(rt, pool, here, there) },
    );
    let (first, second) = sent;
    let (here, there) = received;
    let mut tally = tally;
    P::gather(&mut tally, here);
    P::gather(&mut tally, there);
    P::take_in(&mut tally, first);
    P::take_in(&mut tally, second);
    Ok(tally)
}

/// A pool of two senders and two mailboxes.
fn open_two<P: Pool>(
    alloc: Global,
    pool: &P,
    nodes: u64,
) -> Result<((P::Sender, P::Sender), (P::Receiver, P::Receiver), P::Tally), AllocError>
    requires { (0 < nodes) × (nodes ≤ 64) }
    ensures first { IfOk result (λ r. P.sender r.0.0 ≡ opened_sender (P.tally r.2).pool 2 0 nodes 257000000) }
    ensures second { IfOk result (λ r. P.sender r.0.1 ≡ opened_sender (P.tally r.2).pool 2 1 nodes 257000000) }
    ensures here { IfOk result (λ r. P.receiver r.1.0 ≡ opened_receiver (P.tally r.2).pool 0 2) }
    ensures there { IfOk result (λ r. P.receiver r.1.1 ≡ opened_receiver (P.tally r.2).pool 1 2) }
{
    let (mut senders, mut receivers, tally) = pool.open(alloc, 2, 2, nodes, MOST_POOL_POSTS)?;
    let second = senders.swap_remove(1);
    let first = senders.swap_remove(0);
    let there = receivers.swap_remove(1);
    let here = receivers.swap_remove(0);
    Ok(((first, second), (here, there), tally))
}

/// Posts with each sender in a thread of its own.
fn post_both<P: Pool, R: Threads + Wait + Sync>(
    rt: &R,
    pool: &P,
    first: P::Sender,
    posts: &[Posting],
    second: P::Sender,
    others: &[Posting],
) -> (P::Sender, P::Sender)
    requires first { IsFreshFor (P.sender first) posts.now }
    requires second { IsFreshFor (P.sender second) others.now }
    ensures first { HasPosted (P.sender first) (P.sender result.0) posts.now }
    ensures second { HasPosted (P.sender second) (P.sender result.1) others.now }
{
    join(
        rt,
        move || -> P::Sender
            requires { IsFreshFor (P.sender first) posts.now }
            ensures { HasPosted (P.sender first) (P.sender result) posts.entry.now }
        { post::<P, R>(rt, pool, first, posts) },
        move || -> P::Sender
            requires { IsFreshFor (P.sender second) others.now }
            ensures { HasPosted (P.sender second) (P.sender result) others.entry.now }
        { post::<P, R>(rt, pool, second, others) },
    )
}

/// Takes with each receiver in a thread of its own.
fn take_both<P: Pool, R: Threads + Wait + Sync>(
    rt: &R,
    pool: &P,
    here: P::Receiver,
    there: P::Receiver,
) -> (P::Receiver, P::Receiver)
    requires here { (P.receiver here).senders ≡ 2 }
    requires there { (P.receiver there).senders ≡ 2 }
    ensures here { HasReceivedBoth (P.receiver here) (P.receiver result.0) }
    ensures there { HasReceivedBoth (P.receiver there) (P.receiver result.1) }
{
    join(
        rt,
        move || -> P::Receiver
            requires { (P.receiver here).senders ≡ 2 }
            ensures { HasReceivedBoth (P.receiver here) (P.receiver result) }
        { take_all::<P, R>(rt, pool, here) },
        move || -> P::Receiver
            requires { (P.receiver there).senders ≡ 2 }
            ensures { HasReceivedBoth (P.receiver there) (P.receiver result) }
        { take_all::<P, R>(rt, pool, there) },
    )
}

fn post<P: Pool, R: Wait>(rt: &R, _pool: &P, sender: P::Sender, posts: &[Posting]) -> P::Sender
    requires { IsFreshFor (P.sender sender) posts.now }
    ensures { HasPosted (P.sender sender) (P.sender result) posts.now }
{
    let mut sender = sender;
    send_all::<P, R>(rt, &mut sender, posts);
    sender
}

fn take_all<P: Pool, R: Wait>(rt: &R, _pool: &P, receiver: P::Receiver) -> P::Receiver
    requires { (P.receiver receiver).senders ≡ 2 }
    ensures { HasReceivedBoth (P.receiver receiver) (P.receiver result) }
{
    let mut receiver = receiver;
    receive_all::<P, R>(rt, &mut receiver);
    receiver
}
