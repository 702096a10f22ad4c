//! Senders that post in threads of their own, and a receiver that counts.
ghost use Rattle.std.specs.Prelude.{◌<◌, ◌≤◌};

use crossbeam_utils::Backoff;
use mail_box::{Item, LinkMail, LinkReceiver, LinkSender, Mail, Posted, Took};
use std::alloc::{AllocError, Global};
use std::thread::{Threads, join};

/// How often a thread may find nothing to do before it gives up.
pub const MOST_TURNS: u64 = 10_000_000_000;

/// What came: how many posts, what their amounts come to, and how many end marks.
#[derive(Clone, Copy, Default)]
pub struct Came {
    pub posts: u64,
    pub total: i64,
    pub ended: u64,
}

impl Came {
    /// Counts an item.
    pub fn count(&mut self, item: Item) {
        match item {
            Item::Post { amount, .. } => {
                self.posts = self.posts.wrapping_add(1);
                self.total = self.total.wrapping_add(amount);
            }
            Item::End => self.ended = self.ended.wrapping_add(1),
        }
    }
}

/// Sends a post, once there is a node for it. False: none came, or the sender may not post.
fn send(sender: &mut LinkSender, line: u64) -> bool {
    let turn = Backoff::new();
    for _ in 0..MOST_TURNS {
        if LinkMail::ended(sender) || LinkMail::left(sender) == 0 || line > 999_999 {
            return false;
        }
        if LinkMail::try_send(sender, line, line as i64 + 1) == Posted::Sent {
            return true;
        }
        turn.snooze();
    }
    false
}

/// Sends so many posts, and the end mark.
fn send_all(mut sender: LinkSender, posts: u64) {
    for line in 0..posts {
        if !send(&mut sender, line) {
            break;
        }
    }
    if !LinkMail::ended(&sender) {
        LinkMail::end(&mut sender);
    }
}

/// Takes until so many senders have ended.
fn take_all(mut receiver: LinkReceiver, senders: u64) -> Came {
    let mut came = Came::default();
    let turn = Backoff::new();
    for _ in 0..MOST_TURNS {
        if came.ended == senders {
            break;
        }
        let Took::Held(held) = LinkMail::take(&mut receiver) else {
            turn.snooze();
            continue;
        };
        turn.reset();
        let (_, item) = LinkMail::read(&mut receiver, &held);
        LinkMail::give_back(&mut receiver, held);
        came.count(item);
    }
    came
}

/// One sender and a receiver.
pub fn post_of_one<R: Threads + Sync>(
    rt: &R,
    alloc: Global,
    nodes: u64,
    posts: u64,
) -> Result<Came, AllocError>
    requires { (0 < nodes) × (nodes ≤ 64) × (posts ≤ 1000000) }
{
    let (mut senders, receiver) = LinkMail.open(alloc, 1, nodes, posts)?;
    let Some(sender) = senders.pop() else {
        return Err(AllocError);
    };
    let (_, came) = join(
        rt,
        move || send_all(sender, posts),
        move || take_all(receiver, 1),
    );
    Ok(came)
}

/// Two senders and a receiver.
pub fn post_of_two<R: Threads + Sync>(
    rt: &R,
    alloc: Global,
    nodes: u64,
    posts: u64,
) -> Result<Came, AllocError>
    requires { (0 < nodes) × (nodes ≤ 64) × (posts ≤ 1000000) }
{
    let (mut senders, receiver) = LinkMail.open(alloc, 2, nodes, posts)?;
    let (Some(second), Some(first)) = (senders.pop(), senders.pop()) else {
        return Err(AllocError);
    };
    let (_, (_, came)) = join(
        rt,
        move || send_all(first, posts),
        || join(
            rt,
            move || send_all(second, posts),
            move || take_all(receiver, 2),
        ),
    );
    Ok(came)
}
