//! What rows ask of runs.

use crate::gates::Told;
use crate::inputs::{Inputs, inputs_in, number_at, plan_in, plan_of};
use crate::kinds;
use crate::roll_call::RollCall;
use anyhow::{Result, bail};
use payee_book::Book;
use split_run::{MeetingGate, NoGate};
use std::alloc::Global;
use std::rt::Files;
use std::sync::Wait;
use std::thread::Threads;

/// How often a run that is cut is tried.
const MOST_TRIES: u32 = 1_000;

/// The answer to a question below a heading.
pub fn answer<R: Files + AllocGlobal + Threads + Wait + Sync>(
    rt: &R,
    alloc: Global,
    ask: &str,
    of: &str,
    question: &str,
) -> Result<String> {
    let mut words = of.split(' ');
    let kind = words.next().unwrap_or("");
    let cwr = words.next().unwrap_or("");
    let inputs = inputs_in(rt, alloc, cwr, words.next().unwrap_or(""))?;
    match ask {
        "book" => book(rt, alloc, kind, &inputs, question),
        "books" => books(rt, alloc, kind, &inputs, question),
        "cut" => cut(rt, alloc, kind, &inputs, question),
        "cut-told" => cut_told(rt, alloc, kind, &inputs, question),
        "takes" => takes(rt, alloc, kind, &inputs, question),
        "told" => told(rt, alloc, kind, &inputs, question),
        "early" if kind == "pool" => early(rt, alloc, &inputs, question),
        "opened" => opened(rt, alloc, kind, &inputs, question),
        "workers-meet" => workers_meet(rt, alloc, kind, &inputs, question),
        "readers-meet" => readers_meet(rt, alloc, kind, &inputs, question),
        _ => bail!("nothing is asked so"),
    }
}

/// What a book has: of few usage lines each account's postings and their sum, and of many the sum alone. Where
/// there are many accounts, the residue's sum, and the least and the greatest of the others.
fn shown(alloc: Global, inputs: &Inputs, book: &Book) -> Result<String> {
    let mut text = String::new(alloc);
    if book.accounts() > 10 {
        add_extremes(alloc, book, &mut text)?;
        return Ok(text);
    }
    for account in 0..book.accounts() {
        if inputs.usage.len() > 100 {
            text.push_str(format!(in alloc; "{account}: {}\n", book.total(account))?.as_str())?;
        } else {
            let (lines, total) = (book.lines(account), book.total(account));
            text.push_str(format!(in alloc; "{account}: {lines:?} {total}\n")?.as_str())?;
        }
    }
    Ok(text)
}

fn add_extremes(alloc: Global, book: &Book, text: &mut String) -> Result<()> {
    let (mut least, mut greatest) = (i128::MAX, i128::MIN);
    for account in 1..book.accounts() {
        least = least.min(book.total(account));
        greatest = greatest.max(book.total(account));
    }
    let residue = if book.accounts() > 0 {
        book.total(0)
    } else {
        0
    };
    let accounts = book.accounts();
    text.push_str(format!(in alloc;
        "{accounts} accounts: {residue}, {least} to {greatest}\n"
    )?.as_str())?;
    Ok(())
}

/// The book of a run by a plan: workers, readers and nodes.
fn book<R: Threads + Wait + Sync>(
    rt: &R,
    alloc: Global,
    kind: &str,
    inputs: &Inputs,
    question: &str,
) -> Result<String> {
    let book = kinds::book(rt, alloc, kind, inputs, plan_in(question)?, &NoGate)?;
    shown(alloc, inputs, &book)
}

/// The book of the runs by all plans of some numbers of workers, of readers and of nodes, `1 2/1 8/1 64`; or two
/// that differ.
fn books<R: Threads + Wait + Sync>(
    rt: &R,
    alloc: Global,
    kind: &str,
    inputs: &Inputs,
    question: &str,
) -> Result<String> {
    let (workers, rest) = question.split_once('/').unwrap_or((question, ""));
    let (readers, nodes) = rest.split_once('/').unwrap_or((rest, ""));
    let mut first = String::new(alloc);
    for worker in workers.split(' ') {
        for reader in readers.split(' ') {
            for node in nodes.split(' ') {
                let plan = format!(in alloc; "{worker} {reader} {node}")?;
                let next = book(rt, alloc, kind, inputs, plan.as_str())?;
                if first.is_empty() {
                    first = next;
                } else if first.as_str() != next.as_str() {
                    return Ok(format!(in alloc; "{plan}: {next}")?);
                }
            }
        }
    }
    Ok(first)
}

/// The book of a run by a plan whose thread with the number at the end counts as refused, readers first.
fn cut<R: Threads + Wait + Sync>(
    rt: &R,
    alloc: Global,
    kind: &str,
    inputs: &Inputs,
    question: &str,
) -> Result<String> {
    let threads = number_at(question, 3)?;
    match kinds::book_cut(
        rt,
        alloc,
        kind,
        inputs,
        plan_in(question)?,
        &NoGate,
        threads,
    )? {
        Some(book) => shown(alloc, inputs, &book),
        None => Ok(String::from_str(alloc, "no book")?),
    }
}

/// Whether a worker comes to a line in a run without a book, whose thread with the number at the end counts as refused.
/// It is tried until one comes, since those that were started may find the run stopped.
fn cut_told<R: Threads + Wait + Sync>(
    rt: &R,
    alloc: Global,
    kind: &str,
    inputs: &Inputs,
    question: &str,
) -> Result<String> {
    let (plan, threads) = (plan_in(question)?, number_at(question, 3)?);
    let gate = Told::new();
    for _ in 0..MOST_TRIES {
        if kinds::book_cut(rt, alloc, kind, inputs, plan, &gate, threads)?.is_some() {
            bail!("there is a book");
        }
        if gate.has_come() {
            return Ok(String::from_str(alloc, "no book, a line")?);
        }
    }
    Ok(String::from_str(alloc, "no book, no line")?)
}

/// How many items a run by a plan takes.
fn takes<R: Threads + Wait + Sync>(
    rt: &R,
    alloc: Global,
    kind: &str,
    inputs: &Inputs,
    question: &str,
) -> Result<String> {
    let takes = kinds::takes(rt, alloc, kind, inputs, plan_in(question)?)?;
    Ok(format!(in alloc; "{takes}")?)
}

/// What a gate is told by a run of so many workers, each of which waits there for the others at its first line.
fn told<R: Threads + Wait + Sync>(
    rt: &R,
    alloc: Global,
    kind: &str,
    inputs: &Inputs,
    question: &str,
) -> Result<String> {
    let workers = number_at(question, 0)?;
    let gate = RollCall::of(alloc, workers, inputs.usage.len())?;
    let _ = kinds::book(rt, alloc, kind, inputs, plan_of(workers, 2, 64)?, &gate)?;
    gate.told(alloc)
}

/// How many lines of so many postings each a gate is told by a worker, and how many of them had something taken while
/// the worker waited there.
fn early<R: Threads + Wait + Sync>(
    rt: &R,
    alloc: Global,
    inputs: &Inputs,
    question: &str,
) -> Result<String> {
    let (told, late) = kinds::early(
        rt,
        alloc,
        inputs,
        plan_of(1, 1, 64)?,
        number_at(question, 0)?,
    )?;
    Ok(format!(in alloc; "{told} lines, {late} with something taken")?)
}

/// How many nodes the mailboxes of a run by a plan are opened with, and how many readers take from them at once.
fn opened<R: Threads + Wait + Sync>(
    rt: &R,
    alloc: Global,
    kind: &str,
    inputs: &Inputs,
    question: &str,
) -> Result<String> {
    let (nodes, readers) = kinds::opened(rt, alloc, kind, inputs, plan_in(question)?)?;
    Ok(format!(in alloc; "{nodes} nodes, {readers} readers")?)
}

/// The book of a run by a plan whose first worker is held at its first line until the other has come to so many
/// lines, for at most so many turns.
fn workers_meet<R: Threads + Wait + Sync>(
    rt: &R,
    alloc: Global,
    kind: &str,
    inputs: &Inputs,
    question: &str,
) -> Result<String> {
    let turns = u32::try_from(number_at(question, 4)?)?;
    let gate = MeetingGate::after(number_at(question, 3)?, turns);
    let book = kinds::book(rt, alloc, kind, inputs, plan_in(question)?, &gate)?;
    met(alloc, inputs, &book, gate.has_met())
}

/// The book of a run by a plan whose first reader is held at its first take until the other takes.
fn readers_meet<R: Threads + Wait + Sync>(
    rt: &R,
    alloc: Global,
    kind: &str,
    inputs: &Inputs,
    question: &str,
) -> Result<String> {
    let (book, has_met) = kinds::book_where_readers_meet(
        rt,
        alloc,
        kind,
        inputs,
        plan_in(question)?,
    )?;
    met(alloc, inputs, &book, has_met)
}

/// Whether two have met, and the book.
fn met(alloc: Global, inputs: &Inputs, book: &Book, has_met: bool) -> Result<String> {
    let met = if has_met { "met" } else { "not met" };
    let book = shown(alloc, inputs, book)?;
    Ok(format!(in alloc; "{met}\n{book}")?)
}
