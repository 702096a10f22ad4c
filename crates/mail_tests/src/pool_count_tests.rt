//! A pool that counts the items which are taken from it.
ghost use Rattle.std.specs.Prelude.{◌≡◌, ◌<◌};

use pool_box::{Pool, PoolMail, Posted, Took};
use split_run::CountingPool;
use std::alloc::Global;
use std::process::Abort;
use std::test::Fail;

/// Takes this often, and gives back what it finds.
fn take_often<P: Pool>(receiver: &mut P::Receiver, times: u64) {
    for _ in 0..times {
        if let Took::Held(held) = P::take(receiver) {
            P::give_back(receiver, held);
        }
    }
}

/// Sends a post to a mailbox.
fn send<P: Pool>(rt: &impl Abort, sender: &mut P::Sender, mailbox: u64)
    requires { mailbox < (P.sender sender.old).mailboxes }
    ensures { (P.sender sender.new).mailboxes ≡ (P.sender sender.old).mailboxes }
{
    assert!(rt; !P::ended(sender, mailbox) && P::left(sender) > 0);
    assert_eq!(rt; P::try_send(sender, mailbox, 1, 10), Posted::Sent);
}

/// Sends a post to the first of two mailboxes and two to the second, and ends in the first.
fn send_all<P: Pool>(rt: &impl Abort, sender: &mut P::Sender)
    requires { (P.sender sender.old).mailboxes ≡ 2 }
{
    send::<P>(rt, sender, 0);
    send::<P>(rt, sender, 1);
    send::<P>(rt, sender, 1);
    assert!(rt; !P::ended(sender, 0));
    P::end(sender, 0);
}

/// Asserts how many items the receivers of both mailboxes take, which find nothing twice.
fn assert_takes(rt: &impl Abort, alloc: Global, pool: &CountingPool<PoolMail>) -> Result<(), Fail> {
    let (mut senders, mut receivers, _tally) = pool.open(alloc, 1, 2, 3, 5)?;
    take_often::<CountingPool<PoolMail>>(&mut receivers[0], 1);
    send_all::<CountingPool<PoolMail>>(rt, &mut senders[0]);
    take_often::<CountingPool<PoolMail>>(&mut receivers[0], 3);
    take_often::<CountingPool<PoolMail>>(&mut receivers[1], 2);
    assert_eq!(rt; pool.takes(), 4);
    Ok(())
}

#[test]
fn counts_what_is_taken_of_a_pool(rt: HostRuntime) -> Result<(), Fail> {
    let pool = CountingPool::new(rt.alloc(), PoolMail)?;
    assert_takes(&rt, rt.alloc(), &pool)
}
