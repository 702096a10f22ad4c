//! Posts through mailboxes of linked nodes between threads, so that they can be timed apart from a run.
//!
//! A line of the input is `SENDERS NODES POSTS`, for one mailbox: 1 or 2 senders, each in a thread of its own, with 1 to 64
//! nodes and up to 1,000,000 posts each. Or it is `pool SENDERS READERS MAILBOXES NODES POSTS`, for a pool of 1 to 16,384
//! mailboxes: senders alike, whose posts go to the mailboxes in turn, and 1 or 2 readers, each in a thread of its own, of
//! which mailbox `b` has the reader `b % READERS`. It is answered with how many posts came and what their amounts come to.
#![tactic(auto)]

mod pooling;
mod posting;

use pooling::post_to_pool;
use posting::{Came, post_of_one, post_of_two};
use queue_core::{MOST_MAILBOXES, MOST_NODES, MOST_POSTS};
use std::alloc::{AllocError, Global};
use std::io;
use std::process::ExitCode;
use std::thread::Threads;

/// The number at a place of a line, 0 where there is none.
fn number_at(line: &str, place: usize) -> u64 {
    line.split(' ')
        .nth(place)
        .unwrap_or("")
        .parse()
        .unwrap_or(0)
}

/// What came through one mailbox. None: the line is out of range.
fn through_mailbox<R: Threads + Sync>(
    rt: &R,
    alloc: Global,
    line: &str,
) -> Result<Option<Came>, AllocError> {
    let nodes = number_at(line, 1);
    let posts = number_at(line, 2);
    if !(1..=MOST_NODES).contains(&nodes) || posts > MOST_POSTS {
        return Ok(None);
    }
    Ok(match number_at(line, 0) {
        1 => Some(post_of_one(rt, alloc, nodes, posts)?),
        2 => Some(post_of_two(rt, alloc, nodes, posts)?),
        _ => None,
    })
}

/// What came through a pool. None: the line is out of range.
fn through_pool<R: Threads + Sync>(
    rt: &R,
    alloc: Global,
    line: &str,
) -> Result<Option<Came>, AllocError> {
    let (senders, readers) = (number_at(line, 1), number_at(line, 2));
    let (mailboxes, nodes, posts) = (number_at(line, 3), number_at(line, 4), number_at(line, 5));
    if !(1..=2).contains(&senders) || !(1..=2).contains(&readers) {
        return Ok(None);
    }
    if !(1..=MOST_MAILBOXES).contains(&mailboxes)
        || !(1..=MOST_NODES).contains(&nodes)
        || posts > MOST_POSTS
    {
        return Ok(None);
    }
    let came = post_to_pool(rt, alloc, senders, readers, mailboxes, nodes, posts)?;
    Ok(Some(came))
}

fn main(rt: HostRuntime) -> io::Result<ExitCode> {
    for line in rt.lines(rt.alloc()) {
        let line = line?;
        let came = if line.starts_with("pool ") {
            through_pool(&rt, rt.alloc(), line.as_str())?
        } else {
            through_mailbox(&rt, rt.alloc(), line.as_str())?
        };
        let Some(came) = came else {
            return Ok(ExitCode::FAILURE);
        };
        println!(rt; "{line}: {} posts, {}", came.posts, came.total)?;
    }
    Ok(ExitCode::SUCCESS)
}
