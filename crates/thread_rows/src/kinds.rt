//! Runs over each kind of mailboxes: `links`, `lanes`, their shy ones, and a `pool`.

use crate::gates::Early;
use crate::inputs::Inputs;
use anyhow::{Result, bail};
use mail_box::{LaneMail, LinkMail, Mail, ShyMail};
use payee_book::Book;
use pool_box::{Pool, PoolMail};
use split_run::{
    CountingMail, CountingPool, Gate, MeetingMail, MeetingPool, NoGate, Plan, RollMail, RollPool,
    run, run_cut, run_pool, run_pool_cut,
};
use std::alloc::Global;
use std::sync::Wait;
use std::thread::Threads;

/// The book of a run.
pub fn book<G: Gate, R: Threads + Wait + Sync>(
    rt: &R,
    alloc: Global,
    kind: &str,
    inputs: &Inputs,
    plan: Plan,
    gate: &G,
) -> Result<Book> {
    match kind {
        "links" => over_mail(rt, alloc, &LinkMail, inputs, plan, gate),
        "lanes" => over_mail(rt, alloc, &LaneMail, inputs, plan, gate),
        "shy-links" => over_mail(rt, alloc, &ShyMail(LinkMail), inputs, plan, gate),
        "shy-lanes" => over_mail(rt, alloc, &ShyMail(LaneMail), inputs, plan, gate),
        "pool" => over_pool(rt, alloc, &PoolMail, inputs, plan, gate),
        _ => bail!("no such kind"),
    }
}

fn over_mail<M: Mail, G: Gate, R: Threads + Wait + Sync>(
    rt: &R,
    alloc: Global,
    mail: &M,
    inputs: &Inputs,
    plan: Plan,
    gate: &G,
) -> Result<Book> {
    let (tis, registry, usage) = (&inputs.tis, &inputs.registry, &inputs.usage);
    Ok(run(rt, alloc, mail, tis, registry, usage, plan, gate)?)
}

fn over_pool<P: Pool, G: Gate, R: Threads + Wait + Sync>(
    rt: &R,
    alloc: Global,
    pool: &P,
    inputs: &Inputs,
    plan: Plan,
    gate: &G,
) -> Result<Book> {
    let (tis, registry, usage) = (&inputs.tis, &inputs.registry, &inputs.usage);
    Ok(run_pool(rt, alloc, pool, tis, registry, usage, plan, gate)?)
}

/// The book of a run whose thread with a number counts as refused. None: there is no book.
pub fn book_cut<G: Gate, R: Threads + Wait + Sync>(
    rt: &R,
    alloc: Global,
    kind: &str,
    inputs: &Inputs,
    plan: Plan,
    gate: &G,
    threads: u64,
) -> Result<Option<Book>> {
    let (tis, registry, usage) = (&inputs.tis, &inputs.registry, &inputs.usage);
    let book = match kind {
        "links" => run_cut(
            rt, alloc, &LinkMail, tis, registry, usage, plan, gate, threads,
        ),
        "pool" => run_pool_cut(
            rt, alloc, &PoolMail, tis, registry, usage, plan, gate, threads,
        ),
        _ => bail!("no such kind"),
    };
    Ok(book.ok())
}

/// How many items a run takes from its mailboxes.
pub fn takes<R: Threads + Wait + Sync>(
    rt: &R,
    alloc: Global,
    kind: &str,
    inputs: &Inputs,
    plan: Plan,
) -> Result<u64> {
    match kind {
        "links" => takes_over(rt, alloc, LinkMail, inputs, plan),
        "lanes" => takes_over(rt, alloc, LaneMail, inputs, plan),
        "shy-links" => takes_over(rt, alloc, ShyMail(LinkMail), inputs, plan),
        "shy-lanes" => takes_over(rt, alloc, ShyMail(LaneMail), inputs, plan),
        "pool" => {
            let counting = CountingPool::new(alloc, PoolMail)?;
            let _ = over_pool(rt, alloc, &counting, inputs, plan, &NoGate)?;
            Ok(counting.takes())
        }
        _ => bail!("no such kind"),
    }
}

fn takes_over<M: Mail + Drop, R: Threads + Wait + Sync>(
    rt: &R,
    alloc: Global,
    mail: M,
    inputs: &Inputs,
    plan: Plan,
) -> Result<u64> {
    let counting = CountingMail::new(alloc, mail)?;
    let _ = over_mail(rt, alloc, &counting, inputs, plan, &NoGate)?;
    Ok(counting.takes())
}

/// How many lines a gate is told by a run over a pool that counts, and how many of them had something taken.
pub fn early<R: Threads + Wait + Sync>(
    rt: &R,
    alloc: Global,
    inputs: &Inputs,
    plan: Plan,
    postings: u64,
) -> Result<(u64, u64)> {
    let counting = CountingPool::new(alloc, PoolMail)?;
    let gate = Early::of(&counting, postings);
    let _ = over_pool(rt, alloc, &counting, inputs, plan, &gate)?;
    Ok((gate.told(), gate.late()))
}

/// The book of a run in whose mailboxes the first reader waits for another, and whether it was let go by it.
pub fn book_where_readers_meet<R: Threads + Wait + Sync>(
    rt: &R,
    alloc: Global,
    kind: &str,
    inputs: &Inputs,
    plan: Plan,
) -> Result<(Book, bool)> {
    match kind {
        "lanes" => {
            let mail = MeetingMail::new(alloc, LaneMail)?;
            let book = over_mail(rt, alloc, &mail, inputs, plan, &NoGate)?;
            Ok((book, mail.has_met()))
        }
        "pool" => {
            let pool = MeetingPool::new(alloc, PoolMail)?;
            let book = over_pool(rt, alloc, &pool, inputs, plan, &NoGate)?;
            Ok((book, pool.has_met()))
        }
        _ => bail!("no such kind"),
    }
}

/// How many nodes the mailboxes of a run are opened with, and how many readers take at once from the first so many, up to as
/// many as there are accounts and 8.
pub fn opened<R: Threads + Wait + Sync>(
    rt: &R,
    alloc: Global,
    kind: &str,
    inputs: &Inputs,
    plan: Plan,
) -> Result<(u64, u64)> {
    let most = u64::from(inputs.registry.accounts()).min(8);
    let mut found = (0, 0);
    for readers in 1..=most {
        let (nodes, have_met) = readers_at_once(rt, alloc, kind, inputs, plan, readers)?;
        if !have_met {
            break;
        }
        found = (nodes, readers);
    }
    Ok(found)
}

/// How many nodes the mailboxes of a run are opened with, and whether so many readers take at once.
fn readers_at_once<R: Threads + Wait + Sync>(
    rt: &R,
    alloc: Global,
    kind: &str,
    inputs: &Inputs,
    plan: Plan,
    readers: u64,
) -> Result<(u64, bool)> {
    match kind {
        "links" => {
            let mail = RollMail::new(alloc, LinkMail, readers)?;
            let _ = over_mail(rt, alloc, &mail, inputs, plan, &NoGate)?;
            Ok((mail.nodes(), mail.has_met()))
        }
        "pool" => {
            let pool = RollPool::new(alloc, PoolMail, readers)?;
            let _ = over_pool(rt, alloc, &pool, inputs, plan, &NoGate)?;
            Ok((pool.nodes(), pool.has_met()))
        }
        _ => bail!("no such kind"),
    }
}
