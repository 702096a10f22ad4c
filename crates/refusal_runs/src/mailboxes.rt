//! What the calls of a mailbox answer, of any kind.
ghost use Rattle.std.specs.Prelude.{unsigned_abs, ◌≡◌, ◌≤◌, ◌<◌, false};

use mail_box::{Item, Mail, Posted, Took, receive};
use std::alloc::Global;
use std::io::{self, Write};
use std::sync::Wait;

/// Opens a mailbox of two senders, each with one node and five posts, and prints what each call on it answers until it is empty.
pub fn exchange<M: Mail, R: Wait, W: Write>(
    rt: &R,
    alloc: Global,
    mail: &M,
    out: &mut W,
) -> io::Result<()> {
    let Ok((mut senders, mut receiver)) = mail.open(alloc, 2, 1, 5) else {
        return writeln!(out, "no memory");
    };
    writeln!(out, "opened")?;
    out.flush()?;
    let mut other = senders.swap_remove(1);
    let mut sender = senders.swap_remove(0);
    post::<M, R, W>(rt, &mut sender, 3, 10, out)?;
    post::<M, R, W>(rt, &mut sender, 4, -20, out)?;
    read_twice::<M, R, W>(rt, &mut receiver, out)?;
    post::<M, R, W>(rt, &mut sender, 4, -20, out)?;
    post::<M, R, W>(rt, &mut sender, 5, 30, out)?;
    take::<M, R, W>(rt, &mut receiver, out)?;
    end::<M, R, W>(rt, &mut sender, out)?;
    take::<M, R, W>(rt, &mut receiver, out)?;
    take::<M, R, W>(rt, &mut receiver, out)?;
    end::<M, R, W>(rt, &mut other, out)?;
    take::<M, R, W>(rt, &mut receiver, out)?;
    writeln!(out, "{} left, {} left", M::left(&sender), M::left(&other))?;
    if M::ended(&sender) && M::ended(&other) {
        M::take_in(rt, &mut receiver, sender);
        M::take_in(rt, &mut receiver, other);
    }
    take::<M, R, W>(rt, &mut receiver, out)
}

/// Sends a post, if one is left.
fn post<M: Mail, R: Wait, W: Write>(
    rt: &R,
    sender: &mut M::Sender,
    line: u64,
    amount: i64,
    out: &mut W,
) -> io::Result<()>
    requires open { (M.sender sender.old).is_ended ≡ false }
    requires line { line ≤ 999999 }
    requires amount { (0 < unsigned_abs amount) × (unsigned_abs amount ≤ 1000000000000) }
    ensures open { (M.sender sender.new).is_ended ≡ false }
    ensures mailbox { (M.sender sender.new).mailbox ≡ (M.sender sender.old).mailbox }
{
    if M::left(sender) == 0 {
        return writeln!(out, "none left");
    }
    match M::try_send(rt, sender, line, amount) {
        Posted::Sent => writeln!(out, "sent"),
        Posted::Full => writeln!(out, "full"),
    }
}

/// Sends the end mark.
fn end<M: Mail, R: Wait, W: Write>(rt: &R, sender: &mut M::Sender, out: &mut W) -> io::Result<()>
    requires open { (M.sender sender.old).is_ended ≡ false }
    ensures mailbox { (M.sender sender.new).mailbox ≡ (M.sender sender.old).mailbox }
{
    match M::end(rt, sender) {
        Posted::Sent => writeln!(out, "ended"),
        Posted::Full => writeln!(out, "full"),
    }
}

/// Takes an item, reads it twice and gives it back.
fn read_twice<M: Mail, R: Wait, W: Write>(
    rt: &R,
    receiver: &mut M::Receiver,
    out: &mut W,
) -> io::Result<()>
    ensures mailbox { (M.receiver receiver.new).mailbox ≡ (M.receiver receiver.old).mailbox }
{
    match M::take(rt, receiver) {
        Took::Held(held) => {
            let (number, item) = M::read(rt, receiver, &held);
            let again = M::read(rt, receiver, &held) == (number, item);
            M::give_back(rt, receiver, held);
            tell(number, item, out)?;
            writeln!(out, "the same again: {again}")
        }
        Took::Empty | Took::Busy => writeln!(out, "nothing"),
    }
}

/// Takes an item and gives it back.
fn take<M: Mail, R: Wait, W: Write>(
    rt: &R,
    receiver: &mut M::Receiver,
    out: &mut W,
) -> io::Result<()>
    ensures mailbox { (M.receiver receiver.new).mailbox ≡ (M.receiver receiver.old).mailbox }
{
    match receive::<M, R>(rt, receiver) {
        Some((number, item)) => tell(number, item, out),
        None => writeln!(out, "nothing"),
    }
}

/// Tells the sender's number and the item.
pub fn tell<W: Write>(number: u64, item: Item, out: &mut W) -> io::Result<()> {
    match item {
        Item::Post { line, amount } => writeln!(out, "{number}: line {line}, {amount}"),
        Item::End => writeln!(out, "{number}: end"),
    }
}
