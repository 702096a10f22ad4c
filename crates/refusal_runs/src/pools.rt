//! What the calls of a pool answer, of any kind.
ghost use Rattle.std.specs.Prelude.{unsigned_abs, ◌≡◌, ◌≤◌, ◌<◌, false, true};
ghost use Rattle.pool_box.specs.Pools.{HasEndedEverywhere};

use crate::mailboxes::tell;
use pool_box::{Pool, Posted, Took};
use std::alloc::Global;
use std::io::{self, Write};

/// Opens a pool of two senders, each with one node and five posts, and of two mailboxes, and prints what each call on it
/// answers until it is empty.
pub fn exchange_in_pool<P: Pool, W: Write>(alloc: Global, pool: &P, out: &mut W) -> io::Result<()> {
    let Ok((mut senders, mut receivers, mut tally)) = pool.open(alloc, 2, 2, 1, 5) else {
        return writeln!(out, "no memory");
    };
    writeln!(out, "opened")?;
    out.flush()?;
    let mut other = senders.swap_remove(1);
    let mut sender = senders.swap_remove(0);
    let mut right = receivers.swap_remove(1);
    let mut left = receivers.swap_remove(0);
    fill::<P, W>(&mut sender, &mut left, out)?;
    empty::<P, W>(&mut sender, &mut left, &mut right, out)?;
    end_both::<P, W>(&mut other, out)?;
    take::<P, W>(&mut left, out)?;
    take::<P, W>(&mut right, out)?;
    P::gather(&mut tally, left);
    P::gather(&mut tally, right);
    if has_ended::<P>(&sender) && has_ended::<P>(&other) {
        P::take_in(&mut tally, sender);
        P::take_in(&mut tally, other);
    }
    writeln!(out, "taken in")
}

/// A post goes to the first mailbox. Another finds no node, in whichever mailbox, until the first is given back.
fn fill<P: Pool, W: Write>(
    sender: &mut P::Sender,
    receiver: &mut P::Receiver,
    out: &mut W,
) -> io::Result<()>
    requires open { ((P.sender sender.old).is_ended 0 ≡ false) × ((P.sender sender.old).is_ended 1 ≡ false) }
    requires mailboxes { (P.sender sender.old).mailboxes ≡ 2 }
    ensures open { (P.sender sender.new).is_ended ≡ (P.sender sender.old).is_ended }
    ensures same { ((P.sender sender.new).pool ≡ (P.sender sender.old).pool) × ((P.sender sender.new).mailboxes ≡ 2) }
    ensures receiver { ((P.receiver receiver.new).pool ≡ (P.receiver receiver.old).pool) × ((P.receiver receiver.new).mailbox ≡ (P.receiver receiver.old).mailbox) }
{
    post::<P, W>(sender, 0, 3, 10, out)?;
    post::<P, W>(sender, 1, 4, -20, out)?;
    read_twice::<P, W>(receiver, out)?;
    post::<P, W>(sender, 1, 4, -20, out)
}

/// The sender ends, and what is left in both mailboxes is taken.
fn empty<P: Pool, W: Write>(
    sender: &mut P::Sender,
    left: &mut P::Receiver,
    right: &mut P::Receiver,
    out: &mut W,
) -> io::Result<()>
    requires open { ((P.sender sender.old).is_ended 0 ≡ false) × ((P.sender sender.old).is_ended 1 ≡ false) }
    requires mailboxes { (P.sender sender.old).mailboxes ≡ 2 }
    ensures same { ((P.sender sender.new).pool ≡ (P.sender sender.old).pool) × ((P.sender sender.new).mailboxes ≡ 2) }
    ensures left { (P.receiver left.new).pool ≡ (P.receiver left.old).pool }
    ensures right { (P.receiver right.new).pool ≡ (P.receiver right.old).pool }
{
    end_both::<P, W>(sender, out)?;
    take::<P, W>(left, out)?;
    take::<P, W>(right, out)?;
    take::<P, W>(right, out)?;
    take::<P, W>(left, out)
}

/// Sends a post to a mailbox, if one is left.
fn post<P: Pool, W: Write>(
    sender: &mut P::Sender,
    mailbox: u64,
    line: u64,
    amount: i64,
    out: &mut W,
) -> io::Result<()>
    requires mailbox { mailbox < (P.sender sender.old).mailboxes }
    requires open { (P.sender sender.old).is_ended mailbox ≡ false }
    requires line { line ≤ 999999 }
    requires amount { (0 < unsigned_abs amount) × (unsigned_abs amount ≤ 1000000000000) }
    ensures open { (P.sender sender.new).is_ended ≡ (P.sender sender.old).is_ended }
    ensures same { ((P.sender sender.new).pool ≡ (P.sender sender.old).pool) × ((P.sender sender.new).mailboxes ≡ (P.sender sender.old).mailboxes) }
{
    if P::left(sender) == 0 {
        return writeln!(out, "none left");
    }
    match P::try_send(sender, mailbox, line, amount) {
        Posted::Sent => writeln!(out, "sent"),
        Posted::Full => writeln!(out, "full"),
    }
}

/// Sends the end marks, and tells the sender's number and how many posts it has left.
fn end_both<P: Pool, W: Write>(sender: &mut P::Sender, out: &mut W) -> io::Result<()>
    requires open { ((P.sender sender.old).is_ended 0 ≡ false) × ((P.sender sender.old).is_ended 1 ≡ false) }
    requires mailboxes { (P.sender sender.old).mailboxes ≡ 2 }
    ensures same { ((P.sender sender.new).pool ≡ (P.sender sender.old).pool) × ((P.sender sender.new).mailboxes ≡ 2) }
{
    P::end(sender, 0);
    P::end(sender, 1);
    writeln!(
        out,
        "{} has ended, {} left",
        P::number(sender),
        P::left(sender)
    )
}

/// Whether a sender has ended in both mailboxes.
fn has_ended<P: Pool>(sender: &P::Sender) -> bool
    requires { (P.sender sender.now).mailboxes ≡ 2 }
    ensures { result ≡ true → HasEndedEverywhere (P.sender sender.now) }
{
    P::ended(sender, 0) && P::ended(sender, 1)
}

/// Takes an item, reads it twice and gives it back.
fn read_twice<P: Pool, W: Write>(receiver: &mut P::Receiver, out: &mut W) -> io::Result<()>
    ensures { ((P.receiver receiver.new).pool ≡ (P.receiver receiver.old).pool) × ((P.receiver receiver.new).mailbox ≡ (P.receiver receiver.old).mailbox) }
{
    match P::take(receiver) {
        Took::Held(held) => {
            let (number, item) = P::read(receiver, &held);
            let again = P::read(receiver, &held) == (number, item);
            P::give_back(receiver, held);
            tell(number, item, out)?;
            writeln!(out, "the same again: {again}")
        }
        Took::Empty | Took::Busy => writeln!(out, "nothing"),
    }
}

/// Takes an item and gives it back.
fn take<P: Pool, W: Write>(receiver: &mut P::Receiver, out: &mut W) -> io::Result<()>
    ensures { ((P.receiver receiver.new).pool ≡ (P.receiver receiver.old).pool) × ((P.receiver receiver.new).mailbox ≡ (P.receiver receiver.old).mailbox) }
{
    match P::take(receiver) {
        Took::Held(held) => {
            let (number, item) = P::read(receiver, &held);
            P::give_back(receiver, held);
            tell(number, item, out)
        }
        Took::Empty | Took::Busy => writeln!(out, "nothing"),
    }
}
