//! Each call that takes memory, on a small input.
ghost use Rattle.std.specs.Prelude.{◌<◌, ◌≡◌, All, true};

use block_draw::Draw;
use cwr_share::{CwrFault, PayeeFault, Payees, Registry};
use line_split::{ClaimFault, Claims, LineFault, MOST_CLAIMS, Portions, Reason, Usage};
use mail_box::{LaneMail, LinkMail, Mail, ShyMail};
use pair_split::{PairFault, split_words};
use payee_book::{Book, Journal};
use pool_box::{Pool, PoolMail};
use queue_core::{Core, PoolCore};
use settle_run::{Fault, settle, settle_paid};
use small_run::{B_PAID_TO_A, STATEMENTS, TERRITORIES, TWO_PARTIES, USES};
use split_run::{NoGate, Plan, RunFault, run, run_cut};
use std::alloc::{AllocError, Global};
use std::io::{self, Write};
use std::sync::Wait;
use std::thread::Threads;
use tis_tree::{TisFault, TisTable};

/// What a call answered: a number that its answer comes to. None: memory was refused.
type Answer = Option<u64>;

/// What stands for an answer that no call should give here: a fault, or a book that a refused posting has changed.
const WRONG: u64 = 1_000_000;

/// Makes each call, and prints a line for each.
pub fn make_calls<R: Threads + Wait + Sync, W: Write>(
    rt: &R,
    alloc: Global,
    out: &mut W,
) -> io::Result<()> {
    tell("TisTable::read", territories(alloc), out)?;
    tell("Payees::read", payees(alloc), out)?;
    tell("Registry::read", registrations(alloc), out)?;
    tell("Registry::paid", paid_registrations(alloc), out)?;
    tell("Registry::scratch", scratch(alloc), out)?;
    tell("Usage::read", lines(alloc), out)?;
    tell("Claims::of", claims(alloc), out)?;
    tell("Claims::room", claims_room(alloc), out)?;
    tell("Portions::room", portions_room(alloc), out)?;
    tell("split_words", pairs(alloc), out)?;
    tell("Book::open, Book::post", postings(alloc), out)?;
    tell("Journal::open, Journal::record", records(alloc), out)?;
    tell("Book::text", text(rt, alloc), out)?;
    tell("Draw::open", draw(alloc), out)?;
    tell("Core::open", core(alloc), out)?;
    tell("PoolCore::open", pool_core(alloc), out)?;
    tell("LinkMail::open", senders(alloc, &LinkMail), out)?;
    tell("LaneMail::open", senders(alloc, &LaneMail), out)?;
    tell("ShyMail::open", senders(alloc, &ShyMail(LinkMail)), out)?;
    tell("PoolMail::open", receivers(alloc, &PoolMail), out)?;
    tell("run", total(rt, alloc, None), out)?;
    tell("run_cut", total(rt, alloc, Some(4)), out)?;
    tell("run_cut of a thread", total(rt, alloc, Some(2)), out)?;
    tell("settle", statements(rt, alloc, None), out)?;
    tell("settle_paid", statements(rt, alloc, Some(B_PAID_TO_A)), out)
}

fn tell<W: Write>(call: &str, answer: Answer, out: &mut W) -> io::Result<()> {
    match answer {
        Some(number) => writeln!(out, "{call}: {number}"),
        None => writeln!(out, "{call}: no memory"),
    }
}

fn territories(alloc: Global) -> Answer {
    match TisTable::read(alloc, TERRITORIES.as_bytes()) {
        Ok(table) => Some(table.len() as u64),
        Err(TisFault::Memory) => None,
        Err(_) => Some(WRONG),
    }
}

fn payees(alloc: Global) -> Answer {
    match Payees::read(alloc, b"party,payee\nA,Z\n\"B\",A\n") {
        Ok(payees) => Some(payees.len() as u64),
        Err(PayeeFault::Memory) => None,
        Err(_) => Some(WRONG),
    }
}

fn registrations(alloc: Global) -> Answer {
    match Registry::read(alloc, TWO_PARTIES.as_bytes()) {
        Ok(registry) => Some(registry.works() as u64),
        Err(CwrFault::Memory) => None,
        Err(_) => Some(WRONG),
    }
}

fn paid_registrations(alloc: Global) -> Answer {
    let payees = Payees::read(alloc, B_PAID_TO_A.as_bytes()).ok()?;
    match Registry::paid(alloc, TWO_PARTIES.as_bytes(), &payees) {
        Ok(registry) => Some(u64::from(registry.accounts())),
        Err(CwrFault::Memory) => None,
        Err(_) => Some(WRONG),
    }
}

fn scratch(alloc: Global) -> Answer {
    let registry = Registry::read(alloc, TWO_PARTIES.as_bytes()).ok()?;
    let claims = registry.scratch(alloc).ok()?;
    Some(claims.spare() as u64)
}

fn lines(alloc: Global) -> Answer {
    match Usage::read(alloc, USES.as_bytes()) {
        Ok(usage) => Some(usage.len() as u64),
        Err(LineFault::Memory) => None,
        Err(_) => Some(WRONG),
    }
}

fn claims(alloc: Global) -> Answer {
    match Claims::of(alloc, &[(2, 4000), (1, 6000)]) {
        Ok(claims) => Some(claims.list().len() as u64),
        Err(ClaimFault::Memory) => None,
        Err(_) => Some(WRONG),
    }
}

fn claims_room(alloc: Global) -> Answer {
    let claims = Claims::room(alloc, MOST_CLAIMS).ok()?;
    Some(claims.spare() as u64)
}

fn portions_room(alloc: Global) -> Answer {
    let portions = Portions::room(alloc, MOST_CLAIMS + 1).ok()?;
    Some(portions.spare() as u64)
}

fn pairs(alloc: Global) -> Answer {
    let mut words = Vec::new(alloc);
    for word in ["A=3333", "B=3333", "C=3333"] {
        words.push(String::from_str(alloc, word).ok()?).ok()?;
    }
    match split_words(alloc, 100, words.as_slice()) {
        Ok(rows) => Some(rows.len() as u64),
        Err(PairFault::Memory) => None,
        Err(_) => Some(WRONG),
    }
}

/// Two postings, of which a refused one must leave the statement as it was.
fn postings(alloc: Global) -> Answer {
    let mut book = Book::open(alloc, 2).ok()?;
    let first = book.post(1, 7, 5).is_ok();
    let had = u64::from(first) * 5;
    if book.total(1) != i128::from(had) {
        return Some(WRONG);
    }
    let second = book.post(1, 2, 3).is_ok();
    let has = had + u64::from(second) * 3;
    if book.total(1) != i128::from(has)
        || book.lines(1).len() != usize::from(first) + usize::from(second)
    {
        return Some(WRONG);
    }
    if first && second { Some(has) } else { None }
}

fn records(alloc: Global) -> Answer {
    let mut journal = Journal::open(alloc, 2).ok()?;
    let first = journal.record(1, 7, 5).is_ok();
    let second = journal.record(1, 2, 3).is_ok();
    let has = u64::from(first) * 5 + u64::from(second) * 3;
    if journal.into_book().total(1) != i128::from(has) {
        return Some(WRONG);
    }
    if first && second { Some(has) } else { None }
}

/// The text of the book of the small run.
fn text<R: Threads + Sync>(rt: &R, alloc: Global) -> Answer {
    let usage = Usage::read(alloc, USES.as_bytes()).ok()?;
    let mut book = Book::open(alloc, 3).ok()?;
    book.post(1, 0, 60).ok()?;
    book.post(2, 0, 40).ok()?;
    book.post(2, 1, 20).ok()?;
    book.post(0, 1, 30).ok()?;
    book.post(0, 2, 7).ok()?;
    let mut parties = Vec::new(alloc);
    for party in ["", "A", "B"] {
        parties
            .push(Vec::from_slice(alloc, party.as_bytes()).ok()?)
            .ok()?;
    }
    let reasons = [Reason::Open, Reason::Open, Reason::Work];
    if parties.len() != 3 || usage.len() != 3 || !is_of_lines(&book, 3) {
        return Some(WRONG);
    }
    let text = book
        .text(rt, alloc, &usage, parties.as_slice(), &reasons)
        .ok()?;
    if text.as_slice() == STATEMENTS.as_bytes() {
        Some(text.len() as u64)
    } else {
        Some(WRONG)
    }
}

/// Whether the postings of a book are of the first so many lines.
fn is_of_lines(book: &Book, lines: u64) -> bool
    ensures { result ≡ true → All (All (λ posting. posting.0 < lines)) book.now }
{
    for account in 0..book.accounts() {
        if !book.lines(account).iter().all(|posting| posting.0 < lines) {
            return false;
        }
    }
    true
}

fn draw(alloc: Global) -> Answer {
    let (_draw, drawers) = Draw::open(alloc, 2, 3).ok()?;
    Some(drawers.len() as u64)
}

fn core(alloc: Global) -> Answer {
    let _core = Core::open(alloc, 2, 1).ok()?;
    Some(1)
}

fn pool_core(alloc: Global) -> Answer {
    let _core = PoolCore::open(alloc, 2, 3, 1).ok()?;
    Some(1)
}

fn senders<M: Mail>(alloc: Global, mail: &M) -> Answer {
    let (senders, _receiver) = mail.open(alloc, 2, 1, 5).ok()?;
    Some(senders.len() as u64)
}

fn receivers<P: Pool>(alloc: Global, pool: &P) -> Answer {
    let (_senders, receivers, _tally) = pool.open(alloc, 2, 3, 1, 5).ok()?;
    Some(receivers.len() as u64)
}

/// What a run pays to the first party; where a number is given the thread with that number counts as refused.
fn total<R: Threads + Wait + Sync>(rt: &R, alloc: Global, cut: Option<u64>) -> Answer {
    let tis = TisTable::read(alloc, TERRITORIES.as_bytes()).ok()?;
    let registry = Registry::read(alloc, TWO_PARTIES.as_bytes()).ok()?;
    let usage = Usage::read(alloc, USES.as_bytes()).ok()?;
    let plan = Plan::new(2, 2, 1)?;
    let book = match cut {
        Some(threads) => run_cut(
            rt, alloc, &LinkMail, &tis, &registry, &usage, plan, &NoGate, threads,
        ),
        None => run(rt, alloc, &LinkMail, &tis, &registry, &usage, plan, &NoGate),
    };
    match book {
        Ok(book) if book.accounts() > 1 => Some(u64::try_from(book.total(1)).unwrap_or(WRONG)),
        Ok(_) => Some(WRONG),
        Err(RunFault::Room) => None,
    }
}

/// How long the statements of the small run are, with a table of payees where one is given.
fn statements<R: Threads + Wait + Sync>(rt: &R, alloc: Global, payees: Option<&str>) -> Answer {
    let (tis, cwr, usage) = (
        TERRITORIES.as_bytes(),
        TWO_PARTIES.as_bytes(),
        USES.as_bytes(),
    );
    let plan = Plan::new(2, 2, 1)?;
    let answer = match payees {
        Some(payees) => settle_paid(rt, alloc, tis, payees.as_bytes(), cwr, usage, plan),
        None => settle(rt, alloc, tis, cwr, usage, plan),
    };
    match answer {
        Ok(text) => Some(text.len() as u64),
        Err(Fault::Room) => None,
        Err(_) => Some(WRONG),
    }
}
