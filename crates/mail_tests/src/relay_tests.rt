//! Mailboxes through which two senders post while another thread receives.
ghost use Rattle.std.specs.Prelude.{◌≡◌, ◌<◌, ◌≤◌, IfOk};
ghost use Rattle.mail_box.specs.Mails.{opened_sender};

use mail_box::{LaneMail, LinkMail, Mail, Took};
use mail_relay::relay;
use split_run::CountingMail;
use std::alloc::{AllocError, Global};
use std::process::Abort;
use std::sync::Wait;
use std::test::Fail;
use std::thread::Threads;

/// A mailbox of two senders.
pub fn open_two<M: Mail>(
    alloc: Global,
    mail: &M,
    nodes: u64,
    most: u64,
) -> Result<(M::Sender, M::Sender, M::Receiver), AllocError>
    requires { (0 < nodes) × (nodes ≤ 64) × (most ≤ 1000000) }
    ensures first { IfOk result (λ r. M.sender r.0 ≡ opened_sender (M.receiver r.2).mailbox 0 nodes most) }
    ensures second { IfOk result (λ r. M.sender r.1 ≡ opened_sender (M.receiver r.2).mailbox 1 nodes most) }
    ensures receiver { IfOk result (λ r. (M.receiver r.2).senders ≡ 2) }
{
    let (mut senders, receiver) = mail.open(alloc, 2, nodes, most)?;
    let second = senders.swap_remove(1);
    let first = senders.swap_remove(0);
    Ok((first, second, receiver))
}

/// Whether a take finds the mailbox empty.
fn is_empty<M: Mail, R: Wait>(rt: &R, receiver: &mut M::Receiver) -> bool {
    match M::take(rt, receiver) {
        Took::Held(held) => {
            M::give_back(rt, receiver, held);
            false
        }
        Took::Empty => true,
        Took::Busy => false,
    }
}

/// Asserts that what two senders send comes through a mailbox, and then nothing.
fn assert_relays<M: Mail, R: Abort + Threads + Wait + Sync>(
    rt: &R,
    alloc: Global,
    mail: &M,
    nodes: u64,
) -> Result<(), Fail>
    requires { (0 < nodes) × (nodes ≤ 64) }
{
    let (first, second, receiver) = open_two(alloc, mail, nodes, 9)?;
    let posts = [
        (1, 10),
        (2, 20),
        (3, 30),
        (4, 40),
        (5, 50),
        (6, 60),
        (7, 70),
    ];
    let others = [(8, 80), (9, 90)];
    let mut receiver = relay(rt, mail, first, second, receiver, &posts, &others);
    assert!(rt; is_empty::<M, R>(rt, &mut receiver));
    Ok(())
}

#[test]
fn relays_what_two_senders_send_over_links(rt: HostRuntime) -> Result<(), Fail> {
    for nodes in [1, 2, 64] {
        assert_relays(&rt, rt.alloc(), &LinkMail, nodes)?;
    }
    Ok(())
}

#[test]
fn relays_what_two_senders_send(rt: HostRuntime) -> Result<(), Fail> {
    assert_relays(&rt, rt.alloc(), &LaneMail, 4)
}

/// Asserts how many items a receiver takes of four posts and two end marks.
fn assert_takes<R: Abort + Threads + Wait + Sync>(
    rt: &R,
    alloc: Global,
    mail: &CountingMail<LaneMail>,
) -> Result<(), Fail> {
    let (first, second, receiver) = open_two(alloc, mail, 1, 9)?;
    let posts = [(1, 10), (2, 20), (3, 30)];
    let _ = relay(rt, mail, first, second, receiver, &posts, &[(8, 80)]);
    assert_eq!(rt; mail.takes(), 6);
    Ok(())
}

#[test]
fn counts_what_is_taken(rt: HostRuntime) -> Result<(), Fail> {
    let mail = CountingMail::new(rt.alloc(), LaneMail)?;
    assert_takes(&rt, rt.alloc(), &mail)
}
