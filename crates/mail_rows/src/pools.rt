//! The life of a pool.
//!
//! A question asks a sender by its number: `0 posts 1 3 10`, to send to mailbox 1 a post of line 3
//! and amount 10; `0 ends 1`, to send its end mark there; `0 ended 1`, whether it has ended there;
//! and `0 is`, for its number and how many posts it has left. `1 takes` asks the receiver of mailbox
//! 1 for an item, which it reads and gives back. `1 holds; 0 is; gives back` asks a sender while an
//! item of mailbox 1 is held, which is read before and after. `settles` gathers all receivers and
//! takes in all senders, the last first.

ghost use Rattle.std.specs.Prelude.{◌≡◌, ◌<◌, All, IfOk, vec_items};

use crate::lines::{amount_at, number_at, questions_in, while_held, word_at};
use anyhow::{Result, bail};
use pool_box::{Item, Pool, Posted, Took};
use std::alloc::Global;

/// The ends of a pool: its senders by number, its receivers by mailbox, and its tally.
#[derive(Drop)]
struct Ends<P: Pool> {
    senders: Vec<P::Sender>,
    receivers: Vec<P::Receiver>,
    tally: P::Tally,
    mailboxes: u64,
}

/// The lines of a life, each with what a pool answers to its questions: `of` says how many senders
/// and mailboxes it has, how many nodes each sender has for all its posts, and how often it may post.
pub fn life<P: Pool>(alloc: Global, pool: &P, of: &str, lines: &str) -> Result<String> {
    let mut ends = open(alloc, pool, of)?;
    lived(alloc, &mut ends, lines)
}

fn open<P: Pool>(alloc: Global, pool: &P, of: &str) -> Result<Ends<P>>
    ensures sending { IfOk result (λ ends. All (λ s. ((P.sender s).pool ≡ (P.tally ends.tally).pool)
        × ((P.sender s).mailboxes ≡ ends.mailboxes)) (vec_items ends.senders)) }
    ensures receiving { IfOk result (λ ends. All (λ r. (P.receiver r).pool ≡ (P.tally ends.tally).pool)
        (vec_items ends.receivers)) }
{
    let (senders, mailboxes) = (number_at(of, 0), number_at(of, 1));
    let (nodes, most) = (number_at(of, 2), number_at(of, 3));
    if senders == 0 || senders > 8 || mailboxes == 0 || mailboxes > 16_384 {
        bail!("there is no pool of so many ends");
    }
    if nodes == 0 || nodes > 64 || most > 257_000_000 {
        bail!("there is no pool of so many nodes or posts");
    }
    let (senders, receivers, tally) = pool.open(alloc, senders, mailboxes, nodes, most)?;
    Ok(Ends {
        senders,
        receivers,
        tally,
        mailboxes,
    })
}

/// Lines, each with what is answered to its questions.
fn lived<P: Pool>(alloc: Global, ends: &mut Ends<P>, lines: &str) -> Result<String>
    requires sending { All (λ s. ((P.sender s).pool ≡ (P.tally ends.old.tally).pool)
        × ((P.sender s).mailboxes ≡ ends.old.mailboxes)) (vec_items ends.old.senders) }
    requires receiving { All (λ r. (P.receiver r).pool ≡ (P.tally ends.old.tally).pool) (vec_items ends.old.receivers) }
{
    let mut found = String::new(alloc);
    for line in lines.lines() {
        let line = line_of(alloc, ends, questions_in(line))?;
        found.push_str(line.as_str())?;
    }
    Ok(found)
}

/// A line of questions and of what is answered to them.
fn line_of<P: Pool>(alloc: Global, ends: &mut Ends<P>, questions: &str) -> Result<String>
    requires sending { All (λ s. ((P.sender s).pool ≡ (P.tally ends.old.tally).pool)
        × ((P.sender s).mailboxes ≡ ends.old.mailboxes)) (vec_items ends.old.senders) }
    requires receiving { All (λ r. (P.receiver r).pool ≡ (P.tally ends.old.tally).pool) (vec_items ends.old.receivers) }
    ensures sending { All (λ s. ((P.sender s).pool ≡ (P.tally ends.new.tally).pool)
        × ((P.sender s).mailboxes ≡ ends.new.mailboxes)) (vec_items ends.new.senders) }
    ensures receiving { All (λ r. (P.receiver r).pool ≡ (P.tally ends.new.tally).pool) (vec_items ends.new.receivers) }
{
    let answer = match while_held(questions) {
        Some((mailbox, question)) => answer_while_held(alloc, ends, mailbox, question),
        None if questions == "settles" => settled(alloc, ends),
        None => answer(alloc, ends, questions),
    };
    Ok(format!(in alloc; "{questions}: {}\n", answer?)?)
}

/// What a sender or the receiver of a mailbox answers to a question.
fn answer<P: Pool>(alloc: Global, ends: &mut Ends<P>, question: &str) -> Result<String>
    requires sending { All (λ s. ((P.sender s).pool ≡ (P.tally ends.old.tally).pool)
        × ((P.sender s).mailboxes ≡ ends.old.mailboxes)) (vec_items ends.old.senders) }
    requires receiving { All (λ r. (P.receiver r).pool ≡ (P.tally ends.old.tally).pool) (vec_items ends.old.receivers) }
    ensures sending { All (λ s. ((P.sender s).pool ≡ (P.tally ends.new.tally).pool)
        × ((P.sender s).mailboxes ≡ ends.new.mailboxes)) (vec_items ends.new.senders) }
    ensures receiving { All (λ r. (P.receiver r).pool ≡ (P.tally ends.new.tally).pool) (vec_items ends.new.receivers) }
{
    let number = number_at(question, 0) as usize;
    let is_taking = word_at(question, 1) == "takes";
    if number >= ends.senders.len() && !is_taking || number >= ends.receivers.len() && is_taking {
        bail!("there is nobody to ask");
    }
    if is_taking {
        return Ok(format!(in alloc; "{:?}", take::<P>(&mut ends.receivers[number]))?);
    }
    let mailboxes = ends.mailboxes;
    sender_answer::<P>(alloc, &mut ends.senders[number], mailboxes, question)
}

/// Takes an item, reads it and gives it back.
fn take<P: Pool>(receiver: &mut P::Receiver) -> Took<(u64, Item)>
    ensures { (P.receiver receiver.new).pool ≡ (P.receiver receiver.old).pool }
{
    match P::take(receiver) {
        Took::Held(held) => {
            let pair = P::read(receiver, &held);
            P::give_back(receiver, held);
            Took::Held(pair)
        }
        Took::Empty => Took::Empty,
        Took::Busy => Took::Busy,
    }
}

/// What a sender answers to a question.
fn sender_answer<P: Pool>(
    alloc: Global,
    sender: &mut P::Sender,
    mailboxes: u64,
    question: &str,
) -> Result<String>
    requires { (P.sender sender.old).mailboxes ≡ mailboxes }
    ensures pool { (P.sender sender.new).pool ≡ (P.sender sender.old).pool }
    ensures mailboxes { (P.sender sender.new).mailboxes ≡ (P.sender sender.old).mailboxes }
{
    let verb = word_at(question, 1);
    if verb == "is" {
        return Ok(format!(in alloc; "{} {}", P::number(sender), P::left(sender))?);
    }
    let mailbox = number_at(question, 2);
    if mailbox >= mailboxes {
        bail!("there is no such mailbox");
    }
    Ok(match verb {
        "posts" => {
            let (line, amount) = (number_at(question, 3), amount_at(question, 4));
            format!(in alloc; "{:?}", post::<P>(sender, mailbox, line, amount)?)?
        }
        "ends" => {
            end::<P>(sender, mailbox)?;
            format!(in alloc; "done")?
        }
        _ => format!(in alloc; "{}", P::ended(sender, mailbox))?,
    })
}

/// Sends a post, where the sender may.
fn post<P: Pool>(sender: &mut P::Sender, mailbox: u64, line: u64, amount: i64) -> Result<Posted>
    requires { mailbox < (P.sender sender.old).mailboxes }
    ensures pool { (P.sender sender.new).pool ≡ (P.sender sender.old).pool }
    ensures mailboxes { (P.sender sender.new).mailboxes ≡ (P.sender sender.old).mailboxes }
{
    if P::ended(sender, mailbox) || P::left(sender) == 0 {
        bail!("the sender has ended there, or has no post left");
    }
    if line > 999_999 || amount == 0 || amount.unsigned_abs() > 1_000_000_000_000 {
        bail!("the line or the amount is out of range");
    }
    Ok(P::try_send(sender, mailbox, line, amount))
}

/// Sends an end mark, where the sender may.
fn end<P: Pool>(sender: &mut P::Sender, mailbox: u64) -> Result<()>
    requires { mailbox < (P.sender sender.old).mailboxes }
    ensures pool { (P.sender sender.new).pool ≡ (P.sender sender.old).pool }
    ensures mailboxes { (P.sender sender.new).mailboxes ≡ (P.sender sender.old).mailboxes }
{
    if P::ended(sender, mailbox) {
        bail!("the sender has ended there");
    }
    P::end(sender, mailbox);
    Ok(())
}

/// What a sender answers to a question while an item of a mailbox is held.
fn answer_while_held<P: Pool>(
    alloc: Global,
    ends: &mut Ends<P>,
    mailbox: &str,
    question: &str,
) -> Result<String>
    requires sending { All (λ s. ((P.sender s).pool ≡ (P.tally ends.old.tally).pool)
        × ((P.sender s).mailboxes ≡ ends.old.mailboxes)) (vec_items ends.old.senders) }
    requires receiving { All (λ r. (P.receiver r).pool ≡ (P.tally ends.old.tally).pool) (vec_items ends.old.receivers) }
    ensures sending { All (λ s. ((P.sender s).pool ≡ (P.tally ends.new.tally).pool)
        × ((P.sender s).mailboxes ≡ ends.new.mailboxes)) (vec_items ends.new.senders) }
    ensures receiving { All (λ r. (P.receiver r).pool ≡ (P.tally ends.new.tally).pool) (vec_items ends.new.receivers) }
{
    let number = number_at(question, 0) as usize;
    let mailbox = number_at(mailbox, 0) as usize;
    if number >= ends.senders.len() || mailbox >= ends.receivers.len() {
        bail!("there is nobody to ask");
    }
    let mailboxes = ends.mailboxes;
    let (sender, receiver) = (&mut ends.senders[number], &mut ends.receivers[mailbox]);
    held_answer::<P>(alloc, sender, receiver, mailboxes, question)
}

/// What a sender answers to a question while an item is held, between the item as it is read before
/// and after it.
fn held_answer<P: Pool>(
    alloc: Global,
    sender: &mut P::Sender,
    receiver: &mut P::Receiver,
    mailboxes: u64,
    question: &str,
) -> Result<String>
    requires { (P.sender sender.old).mailboxes ≡ mailboxes }
    ensures pool { (P.sender sender.new).pool ≡ (P.sender sender.old).pool }
    ensures mailboxes { (P.sender sender.new).mailboxes ≡ (P.sender sender.old).mailboxes }
    ensures receiver { (P.receiver receiver.new).pool ≡ (P.receiver receiver.old).pool }
{
    let Took::Held(held) = P::take(receiver) else {
        bail!("nothing is in the mailbox");
    };
    let before = P::read(receiver, &held);
    let found = sender_answer::<P>(alloc, sender, mailboxes, question);
    let after = P::read(receiver, &held);
    P::give_back(receiver, held);
    Ok(format!(in alloc; "{before:?}; {}; {after:?}", found?)?)
}

/// Gathers all receivers and takes in all senders, which have to have ended in every mailbox, and
/// says that it is done.
fn settled<P: Pool>(alloc: Global, ends: &mut Ends<P>) -> Result<String>
    requires sending { All (λ s. ((P.sender s).pool ≡ (P.tally ends.old.tally).pool)
        × ((P.sender s).mailboxes ≡ ends.old.mailboxes)) (vec_items ends.old.senders) }
    requires receiving { All (λ r. (P.receiver r).pool ≡ (P.tally ends.old.tally).pool) (vec_items ends.old.receivers) }
    ensures sending { All (λ s. ((P.sender s).pool ≡ (P.tally ends.new.tally).pool)
        × ((P.sender s).mailboxes ≡ ends.new.mailboxes)) (vec_items ends.new.senders) }
    ensures receiving { All (λ r. (P.receiver r).pool ≡ (P.tally ends.new.tally).pool) (vec_items ends.new.receivers) }
{
    for _ in 0..ends.receivers.len() {
        if let Some(receiver) = ends.receivers.pop() {
            P::gather(&mut ends.tally, receiver);
        }
    }
    for _ in 0..ends.senders.len() {
        if let Some(sender) = ends.senders.pop() {
            take_in::<P>(&mut ends.tally, sender, ends.mailboxes)?;
        }
    }
    Ok(format!(in alloc; "done")?)
}

/// Takes a sender in, which has to have ended in every mailbox.
fn take_in<P: Pool>(tally: &mut P::Tally, sender: P::Sender, mailboxes: u64) -> Result<()>
    requires pool { (P.sender sender).pool ≡ (P.tally tally.old).pool }
    requires mailboxes { (P.sender sender).mailboxes ≡ mailboxes }
    ensures { (P.tally tally.new).pool ≡ (P.tally tally.old).pool }
{
    for mailbox in 0..mailboxes {
        if !P::ended(&sender, mailbox) {
            bail!("a sender has not ended in every mailbox");
        }
    }
    P::take_in(tally, sender);
    Ok(())
}
