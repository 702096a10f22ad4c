//! Senders that post to all mailboxes of a pool, and readers that count.
ghost use Rattle.std.specs.Prelude.{◌≡◌, ◌<◌, ◌≤◌};
ghost use Rattle.pool_box.specs.PoolViews.{sender_of};

use crate::posting::{Came, MOST_TURNS};
use crossbeam_utils::Backoff;
use pool_box::{PoolMail, PoolReceiver, PoolSender, Posted, Took};
use std::alloc::{AllocError, Global};
use std::thread::{Threads, join};

/// How many items a reader takes of a mailbox before it goes on to the next.
const MOST_ITEMS: u64 = 64;

/// A sender, and to how many mailboxes.
#[derive(Drop)]
struct Poster {
    sender: PoolSender,
    mailboxes: u64,
    ghost some: { 0 < mailboxes },
    ghost all: { (sender_of sender).mailboxes ≡ mailboxes },
}

/// Sends a post to the mailbox whose turn it is, once there is a node for it. False: none came, or the sender may not post.
fn send(poster: &mut Poster, line: u64) -> bool {
    let turn = Backoff::new();
    let mailbox = line % poster.mailboxes;
    for _ in 0..MOST_TURNS {
        let sender = &mut poster.sender;
        if PoolMail::ended(sender, mailbox) || PoolMail::left(sender) == 0 || line > 999_999 {
            return false;
        }
        if PoolMail::try_send(sender, mailbox, line, line as i64 + 1) == Posted::Sent {
            return true;
        }
        turn.snooze();
    }
    false
}

/// Sends the end mark to a mailbox.
fn end(poster: &mut Poster, mailbox: u64)
    requires { mailbox < poster.old.mailboxes }
    ensures { poster.new.mailboxes ≡ poster.old.mailboxes }
{
    if !PoolMail::ended(&poster.sender, mailbox) {
        PoolMail::end(&mut poster.sender, mailbox);
    }
}

/// Sends so many posts, and the end marks.
fn send_all(mut poster: Poster, posts: u64) {
    for line in 0..posts {
        if !send(&mut poster, line) {
            break;
        }
    }
    for mailbox in 0..poster.mailboxes {
        end(&mut poster, mailbox);
    }
}

/// The same of a sender that there may be.
fn send_any(poster: Option<Poster>, posts: u64) {
    if let Some(poster) = poster {
        send_all(poster, posts);
    }
}

/// Takes what a mailbox has. Whether it had any.
fn take_some(receiver: &mut PoolReceiver, came: &mut Came) -> bool {
    let mut took = false;
    for _ in 0..MOST_ITEMS {
        let Took::Held(held) = PoolMail::take(receiver) else {
            break;
        };
        let (_, item) = PoolMail::read(receiver, &held);
        PoolMail::give_back(receiver, held);
        came.count(item);
        took = true;
    }
    took
}

/// Takes from each mailbox in turn. Whether any had an item.
fn take_round(receivers: &mut Vec<PoolReceiver>, came: &mut Came) -> bool {
    let mut took = false;
    for receiver in receivers.iter_mut() {
        if take_some(receiver, came) {
            took = true;
        }
    }
    took
}

/// Takes until so many senders have ended in each mailbox.
fn take_all(mut receivers: Vec<PoolReceiver>, senders: u64) -> Came {
    let ends = senders.wrapping_mul(receivers.len() as u64);
    let mut came = Came::default();
    let turn = Backoff::new();
    for _ in 0..MOST_TURNS {
        if came.ended == ends {
            break;
        }
        if take_round(&mut receivers, &mut came) {
            turn.reset();
        } else {
            turn.snooze();
        }
    }
    came
}

/// A pool of one sender or two.
fn open(
    alloc: Global,
    senders: u64,
    mailboxes: u64,
    nodes: u64,
    posts: u64,
) -> Result<(Poster, Option<Poster>, Vec<PoolReceiver>), AllocError>
    requires senders { (0 < senders) × (senders ≤ 2) }
    requires mailboxes { (0 < mailboxes) × (mailboxes ≤ 16384) }
    requires nodes { (0 < nodes) × (nodes ≤ 64) }
    requires posts { posts ≤ 1000000 }
{
    let (mut all, receivers, _tally) = PoolMail::open(alloc, senders, mailboxes, nodes, posts)?;
    let second = if senders == 2 {
        let sender = all.swap_remove(1);
        Some(Poster { sender, mailboxes })
    } else {
        None
    };
    let sender = all.swap_remove(0);
    Ok((Poster { sender, mailboxes }, second, receivers))
}

/// What each of two readers serves; with one reader the second serves nothing.
fn deal(
    alloc: Global,
    receivers: Vec<PoolReceiver>,
    readers: u64,
) -> Result<(Vec<PoolReceiver>, Vec<PoolReceiver>), AllocError> {
    let (mut first, mut second) = (Vec::new(alloc), Vec::new(alloc));
    let mut is_second = false;
    for receiver in receivers {
        if is_second {
            second.push(receiver)?;
        } else {
            first.push(receiver)?;
        }
        is_second = readers == 2 && !is_second;
    }
    Ok((first, second))
}

/// What comes through a pool.
pub fn post_to_pool<R: Threads + Sync>(
    rt: &R,
    alloc: Global,
    senders: u64,
    readers: u64,
    mailboxes: u64,
    nodes: u64,
    posts: u64,
) -> Result<Came, AllocError>
    requires senders { (0 < senders) × (senders ≤ 2) }
    requires mailboxes { (0 < mailboxes) × (mailboxes ≤ 16384) }
    requires nodes { (0 < nodes) × (nodes ≤ 64) }
    requires posts { posts ≤ 1000000 }
{
    let (first, second, receivers) = open(alloc, senders, mailboxes, nodes, posts)?;
    let (even, odd) = deal(alloc, receivers, readers)?;
    let (_, (of_even, of_odd)) = join(
        rt,
        || join(
            rt,
            move || send_all(first, posts),
            move || send_any(second, posts),
        ),
        || join(
            rt,
            move || take_all(even, senders),
            move || take_all(odd, senders),
        ),
    );
    Ok(Came {
        posts: of_even.posts.wrapping_add(of_odd.posts),
        total: of_even.total.wrapping_add(of_odd.total),
        ended: of_even.ended.wrapping_add(of_odd.ended),
    })
}
