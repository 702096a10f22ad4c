//! The life of a mailbox.
//!
//! A question asks a sender by its number: `0 posts 3 10`, to send a post of line 3 and amount 10;
//! `0 ends`, to send its end mark; and `0 is`, for its number, how many posts it has left, and
//! whether it has ended. `takes` asks the receiver for an item, which it reads and gives back;
//! `takes in`, to take in the first sender that is left, for its number. `holds; 0 ends; takes;
//! gives back` asks two questions while an item is held, which is read before and after them.

ghost use Rattle.std.specs.Prelude.{◌≡◌, All, IfOk, vec_items};

use crate::lines::{amount_at, number_at, questions_in, while_held, word_at};
use anyhow::{Result, bail};
use mail_box::{Item, Mail, Posted, Took};
use std::alloc::Global;
use std::sync::Wait;

/// The ends of a mailbox: its senders by number, and its receiver.
#[derive(Drop)]
struct Ends<M: Mail> {
    senders: Vec<M::Sender>,
    receiver: M::Receiver,
}

/// The lines of a life, each with what a mailbox answers to its questions: `of` says how many senders
/// it has, how many nodes each of them has, and how often each may post.
pub fn life<M: Mail, R: Wait>(
    rt: &R,
    alloc: Global,
    mail: &M,
    of: &str,
    lines: &str,
) -> Result<String> {
    let mut ends = open(alloc, mail, of)?;
    lived(rt, alloc, &mut ends, lines)
}

fn open<M: Mail>(alloc: Global, mail: &M, of: &str) -> Result<Ends<M>>
    ensures { IfOk result (λ ends. All (λ s. (M.sender s).mailbox ≡ (M.receiver ends.receiver).mailbox)
        (vec_items ends.senders)) }
{
    let (senders, nodes, most) = (number_at(of, 0), number_at(of, 1), number_at(of, 2));
    if senders == 0 || senders > 8 || nodes == 0 || nodes > 64 || most > 1_000_000 {
        bail!("there is no such mailbox");
    }
    let (senders, receiver) = mail.open(alloc, senders, nodes, most)?;
    Ok(Ends { senders, receiver })
}

/// Lines, each with what is answered to its questions.
fn lived<M: Mail, R: Wait>(rt: &R, alloc: Global, ends: &mut Ends<M>, lines: &str) -> Result<String>
    requires { All (λ s. (M.sender s).mailbox ≡ (M.receiver ends.old.receiver).mailbox) (vec_items ends.old.senders) }
{
    let mut found = String::new(alloc);
    for line in lines.lines() {
        let line = line_of(rt, alloc, ends, questions_in(line))?;
        found.push_str(line.as_str())?;
    }
    Ok(found)
}

/// A line of questions and of what is answered to them.
fn line_of<M: Mail, R: Wait>(
    rt: &R,
    alloc: Global,
    ends: &mut Ends<M>,
    questions: &str,
) -> Result<String>
    requires { All (λ s. (M.sender s).mailbox ≡ (M.receiver ends.old.receiver).mailbox) (vec_items ends.old.senders) }
    ensures { All (λ s. (M.sender s).mailbox ≡ (M.receiver ends.new.receiver).mailbox) (vec_items ends.new.senders) }
{
    let answer = match while_held(questions) {
        Some((_, questions)) => answers_while_held(rt, alloc, ends, questions),
        None => answer(rt, alloc, ends, questions),
    };
    Ok(format!(in alloc; "{questions}: {}\n", answer?)?)
}

/// What is answered to questions while an item is held, between the item as it is read before and
/// after them.
fn answers_while_held<M: Mail, R: Wait>(
    rt: &R,
    alloc: Global,
    ends: &mut Ends<M>,
    questions: &str,
) -> Result<String>
    requires { All (λ s. (M.sender s).mailbox ≡ (M.receiver ends.old.receiver).mailbox) (vec_items ends.old.senders) }
    ensures { All (λ s. (M.sender s).mailbox ≡ (M.receiver ends.new.receiver).mailbox) (vec_items ends.new.senders) }
{
    let Took::Held(held) = M::take(rt, &mut ends.receiver) else {
        bail!("nothing is in the mailbox");
    };
    let before = M::read(rt, &mut ends.receiver, &held);
    let found = answers(rt, alloc, ends, questions);
    let after = M::read(rt, &mut ends.receiver, &held);
    M::give_back(rt, &mut ends.receiver, held);
    Ok(format!(in alloc; "{before:?}; {}{after:?}", found?)?)
}

/// What is answered to questions.
fn answers<M: Mail, R: Wait>(
    rt: &R,
    alloc: Global,
    ends: &mut Ends<M>,
    questions: &str,
) -> Result<String>
    requires { All (λ s. (M.sender s).mailbox ≡ (M.receiver ends.old.receiver).mailbox) (vec_items ends.old.senders) }
    ensures senders { All (λ s. (M.sender s).mailbox ≡ (M.receiver ends.new.receiver).mailbox)
        (vec_items ends.new.senders) }
    ensures same { (M.receiver ends.new.receiver).mailbox ≡ (M.receiver ends.old.receiver).mailbox }
{
    let mut found = String::new(alloc);
    for question in questions.split("; ") {
        let answer = answer(rt, alloc, ends, question)?;
        found.push_str(answer.as_str())?;
        found.push_str("; ")?;
    }
    Ok(found)
}

/// What is answered to a question.
fn answer<M: Mail, R: Wait>(
    rt: &R,
    alloc: Global,
    ends: &mut Ends<M>,
    question: &str,
) -> Result<String>
    requires { All (λ s. (M.sender s).mailbox ≡ (M.receiver ends.old.receiver).mailbox) (vec_items ends.old.senders) }
    ensures senders { All (λ s. (M.sender s).mailbox ≡ (M.receiver ends.new.receiver).mailbox)
        (vec_items ends.new.senders) }
    ensures same { (M.receiver ends.new.receiver).mailbox ≡ (M.receiver ends.old.receiver).mailbox }
{
    match question {
        "takes" => Ok(format!(in alloc; "{:?}", take::<M, R>(rt, &mut ends.receiver))?),
        "takes in" => Ok(format!(in alloc; "{}", take_in(rt, ends)?)?),
        _ => {
            let number = number_at(question, 0) as usize;
            if number >= ends.senders.len() {
                bail!("there is no such sender");
            }
            sender_answer::<M, R>(rt, alloc, &mut ends.senders[number], question)
        }
    }
}

/// Takes an item, reads it and gives it back.
fn take<M: Mail, R: Wait>(rt: &R, receiver: &mut M::Receiver) -> Took<(u64, Item)>
    ensures { (M.receiver receiver.new).mailbox ≡ (M.receiver receiver.old).mailbox }
{
    match M::take(rt, receiver) {
        Took::Held(held) => {
            let pair = M::read(rt, receiver, &held);
            M::give_back(rt, receiver, held);
            Took::Held(pair)
        }
        Took::Empty => Took::Empty,
        Took::Busy => Took::Busy,
    }
}

/// Takes in the first sender, which has to have ended. The number of the sender.
fn take_in<M: Mail, R: Wait>(rt: &R, ends: &mut Ends<M>) -> Result<u64>
    requires { All (λ s. (M.sender s).mailbox ≡ (M.receiver ends.old.receiver).mailbox) (vec_items ends.old.senders) }
    ensures senders { All (λ s. (M.sender s).mailbox ≡ (M.receiver ends.new.receiver).mailbox)
        (vec_items ends.new.senders) }
    ensures same { (M.receiver ends.new.receiver).mailbox ≡ (M.receiver ends.old.receiver).mailbox }
{
    if ends.senders.is_empty() || !M::ended(&ends.senders[0]) {
        bail!("no sender has ended");
    }
    let sender = ends.senders.swap_remove(0);
    let number = M::number(&sender);
    M::take_in(rt, &mut ends.receiver, sender);
    Ok(number)
}

/// What a sender answers.
fn sender_answer<M: Mail, R: Wait>(
    rt: &R,
    alloc: Global,
    sender: &mut M::Sender,
    question: &str,
) -> Result<String>
    ensures { (M.sender sender.new).mailbox ≡ (M.sender sender.old).mailbox }
{
    let (line, amount) = (number_at(question, 2), amount_at(question, 3));
    Ok(match word_at(question, 1) {
        "posts" => format!(in alloc; "{:?}", post::<M, R>(rt, sender, line, amount)?)?,
        "ends" => format!(in alloc; "{:?}", end::<M, R>(rt, sender)?)?,
        _ => {
            let (number, left, ended) = (M::number(sender), M::left(sender), M::ended(sender));
            format!(in alloc; "{number} {left} {ended}")?
        }
    })
}

/// Sends a post, where the sender may.
fn post<M: Mail, R: Wait>(rt: &R, sender: &mut M::Sender, line: u64, amount: i64) -> Result<Posted>
    ensures { (M.sender sender.new).mailbox ≡ (M.sender sender.old).mailbox }
{
    if M::ended(sender) || M::left(sender) == 0 {
        bail!("the sender has ended, or has no post left");
    }
    if line > 999_999 || amount == 0 || amount.unsigned_abs() > 1_000_000_000_000 {
        bail!("the line or the amount is out of range");
    }
    Ok(M::try_send(rt, sender, line, amount))
}

/// Sends an end mark, where the sender may.
fn end<M: Mail, R: Wait>(rt: &R, sender: &mut M::Sender) -> Result<Posted>
    ensures { (M.sender sender.new).mailbox ≡ (M.sender sender.old).mailbox }
{
    if M::ended(sender) {
        bail!("the sender has ended");
    }
    Ok(M::end(rt, sender))
}
