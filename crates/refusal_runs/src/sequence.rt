//! One sequence of calls on a mailbox of linked nodes, made by its own functions.
ghost use Rattle.std.specs.Prelude.{unsigned_abs, ◌≡◌, ◌+◌, ◌≤◌, ◌<◌, false, true, IfOk};
ghost use Rattle.mail_box.specs.LinkViews.{held_of, receiver_of, sender_of};
ghost use Rattle.mail_box.specs.Mails.{opened_sender};

use mail_box::{Item, LinkHeld, LinkMail, LinkReceiver, LinkSender, Posted, Took};
use std::alloc::{AllocError, Global};
use std::io::{self, Write};

/// Opens a mailbox of two senders, each with one node and five posts, and prints what each call answers, a line each.
pub fn linked_sequence<W: Write>(alloc: Global, out: &mut W) -> io::Result<()> {
    let Ok((mut sender, other, mut receiver)) = open_two(alloc) else {
        return writeln!(out, "no memory");
    };
    writeln!(out, "opened")?;
    out.flush()?;
    post_and_end(&mut receiver, &mut sender, out)?;
    take_all(receiver, sender, other, out)
}

fn open_two(alloc: Global) -> Result<(LinkSender, LinkSender, LinkReceiver), AllocError>
    ensures first { IfOk result (λ r. sender_of r.0 ≡ opened_sender (receiver_of r.2).mailbox 0 1 5) }
    ensures second { IfOk result (λ r. sender_of r.1 ≡ opened_sender (receiver_of r.2).mailbox 1 1 5) }
{
    let (mut senders, receiver) = LinkMail::open(alloc, 2, 1, 5)?;
    let second = senders.swap_remove(1);
    let first = senders.swap_remove(0);
    Ok((first, second, receiver))
}

/// Of five posts two are sent: the others find the only node taken, one of them while its item is held. The end mark is sent
/// while the node is taken.
fn post_and_end<W: Write>(
    receiver: &mut LinkReceiver,
    sender: &mut LinkSender,
    out: &mut W,
) -> io::Result<()>
    requires open { (sender_of sender.old).is_ended ≡ false }
    requires left { 5 ≤ (sender_of sender.old).left }
    ensures ended { IfOk result (λ _. (sender_of sender.new).is_ended ≡ true) }
    ensures mailbox { (sender_of sender.new).mailbox ≡ (sender_of sender.old).mailbox }
    ensures receiver { (receiver_of receiver.new).mailbox ≡ (receiver_of receiver.old).mailbox }
{
    try_send(sender, 3, 10, out)?;
    try_send(sender, 4, 20, out)?;
    take_and_send(receiver, sender, out)?;
    try_send(sender, 4, 20, out)?;
    try_send(sender, 5, 30, out)?;
    end(sender, out)?;
    writeln!(out, "left: {}", LinkMail::left(sender))
}

/// What is left is taken, then the other sender's end mark, and both senders are taken in.
fn take_all<W: Write>(
    mut receiver: LinkReceiver,
    sender: LinkSender,
    mut other: LinkSender,
    out: &mut W,
) -> io::Result<()>
    requires ended { (sender_of sender).is_ended ≡ true }
    requires open { (sender_of other).is_ended ≡ false }
    requires first { (sender_of sender).mailbox ≡ (receiver_of receiver).mailbox }
    requires second { (sender_of other).mailbox ≡ (receiver_of receiver).mailbox }
{
    take(&mut receiver, out)?;
    take(&mut receiver, out)?;
    take(&mut receiver, out)?;
    end(&mut other, out)?;
    take(&mut receiver, out)?;
    LinkMail::take_in(&mut receiver, sender);
    LinkMail::take_in(&mut receiver, other);
    writeln!(out, "take_in: done")?;
    take(&mut receiver, out)
}

/// Sends a post.
fn try_send<W: Write>(
    sender: &mut LinkSender,
    line: u64,
    amount: i64,
    out: &mut W,
) -> io::Result<()>
    requires open { (sender_of sender.old).is_ended ≡ false }
    requires left { 0 < (sender_of sender.old).left }
    requires line { line ≤ 999999 }
    requires amount { (0 < unsigned_abs amount) × (unsigned_abs amount ≤ 1000000000000) }
    ensures open { (sender_of sender.new).is_ended ≡ false }
    ensures left { (sender_of sender.old).left ≤ (sender_of sender.new).left + 1 }
    ensures mailbox { (sender_of sender.new).mailbox ≡ (sender_of sender.old).mailbox }
{
    match LinkMail::try_send(sender, line, amount) {
        Posted::Sent => writeln!(out, "try_send {line} {amount}: Sent"),
        Posted::Full => writeln!(out, "try_send {line} {amount}: Full"),
    }
}

/// Sends the end mark.
fn end<W: Write>(sender: &mut LinkSender, out: &mut W) -> io::Result<()>
    requires open { (sender_of sender.old).is_ended ≡ false }
    ensures ended { (sender_of sender.new).is_ended ≡ true }
    ensures mailbox { (sender_of sender.new).mailbox ≡ (sender_of sender.old).mailbox }
{
    match LinkMail::end(sender) {
        Posted::Sent => writeln!(out, "end: Sent"),
        Posted::Full => writeln!(out, "end: Full"),
    }
}

/// Takes an item, reads it twice and sends a post before it gives it back.
fn take_and_send<W: Write>(
    receiver: &mut LinkReceiver,
    sender: &mut LinkSender,
    out: &mut W,
) -> io::Result<()>
    requires open { (sender_of sender.old).is_ended ≡ false }
    requires left { 0 < (sender_of sender.old).left }
    ensures open { (sender_of sender.new).is_ended ≡ false }
    ensures left { (sender_of sender.old).left ≤ (sender_of sender.new).left + 1 }
    ensures mailbox { (sender_of sender.new).mailbox ≡ (sender_of sender.old).mailbox }
    ensures receiver { (receiver_of receiver.new).mailbox ≡ (receiver_of receiver.old).mailbox }
{
    match LinkMail::take(receiver) {
        Took::Held(held) => {
            let told = read_and_send(receiver, sender, &held, out);
            LinkMail::give_back(receiver, held);
            told?;
            writeln!(out, "give_back: done")
        }
        Took::Empty => writeln!(out, "take: Empty"),
        Took::Busy => writeln!(out, "take: Busy"),
    }
}

/// What is done while an item is held.
fn read_and_send<W: Write>(
    receiver: &mut LinkReceiver,
    sender: &mut LinkSender,
    held: &LinkHeld,
    out: &mut W,
) -> io::Result<()>
    requires held { (held_of held.now).mailbox ≡ (receiver_of receiver.old).mailbox }
    requires open { (sender_of sender.old).is_ended ≡ false }
    requires left { 0 < (sender_of sender.old).left }
    ensures open { (sender_of sender.new).is_ended ≡ false }
    ensures left { (sender_of sender.old).left ≤ (sender_of sender.new).left + 1 }
    ensures mailbox { (sender_of sender.new).mailbox ≡ (sender_of sender.old).mailbox }
    ensures receiver { receiver_of receiver.new ≡ receiver_of receiver.old }
{
    writeln!(out, "take: Held")?;
    read(receiver, held, out)?;
    read(receiver, held, out)?;
    try_send(sender, 4, 20, out)
}

/// Takes an item, reads it and gives it back.
fn take<W: Write>(receiver: &mut LinkReceiver, out: &mut W) -> io::Result<()>
    ensures mailbox { (receiver_of receiver.new).mailbox ≡ (receiver_of receiver.old).mailbox }
{
    match LinkMail::take(receiver) {
        Took::Held(held) => {
            let told = read_held(receiver, &held, out);
            LinkMail::give_back(receiver, held);
            told?;
            writeln!(out, "give_back: done")
        }
        Took::Empty => writeln!(out, "take: Empty"),
        Took::Busy => writeln!(out, "take: Busy"),
    }
}

fn read_held<W: Write>(receiver: &mut LinkReceiver, held: &LinkHeld, out: &mut W) -> io::Result<()>
    requires { (held_of held.now).mailbox ≡ (receiver_of receiver.old).mailbox }
    ensures { receiver_of receiver.new ≡ receiver_of receiver.old }
{
    writeln!(out, "take: Held")?;
    read(receiver, held, out)
}

/// Reads the item that is held.
fn read<W: Write>(receiver: &mut LinkReceiver, held: &LinkHeld, out: &mut W) -> io::Result<()>
    requires { (held_of held.now).mailbox ≡ (receiver_of receiver.old).mailbox }
    ensures { receiver_of receiver.new ≡ receiver_of receiver.old }
{
    match LinkMail::read(receiver, held) {
        (number, Item::Post { line, amount }) => {
            writeln!(out, "read: {number}, Post {line} {amount}")
        }
        (number, Item::End) => writeln!(out, "read: {number}, End"),
    }
}
