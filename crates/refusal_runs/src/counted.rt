//! Runs whose gate counts its calls, and whose mailboxes, or whose pool, count what is taken.

use cwr_share::Registry;
use line_split::Usage;
use mail_box::LinkMail;
use pool_box::PoolMail;
use small_run::{TERRITORIES, TWO_PARTIES, equal_uses};
use split_run::{CountingMail, CountingPool, Gate, Plan, run, run_pool};
use std::alloc::Global;
use std::io::{self, Write};
use std::sync::Wait;
use std::sync::atomic::{AtomicU64, Ordering};
use std::thread::Threads;
use tis_tree::TisTable;

/// A gate that counts the lines that it is told.
#[derive(Drop)]
struct CallCount {
    calls: AtomicU64,
}

impl Gate for CallCount {
    fn pass(&self, _worker: u64, _line: u64) {
        self.calls.fetch_add(1, Ordering::SeqCst);
    }
}

/// What a run is made of but for its mailboxes: 65 lines, one thread of each kind and one node.
#[derive(Drop)]
struct Setting {
    tis: TisTable,
    registry: Registry,
    usage: Usage,
    plan: Plan,
    gate: CallCount,
}

impl Setting {
    /// None: memory was refused.
    fn read(alloc: Global) -> Option<Setting> {
        let uses = equal_uses(alloc, 65).ok()?;
        Some(Setting {
            tis: TisTable::read(alloc, TERRITORIES.as_bytes()).ok()?,
            registry: Registry::read(alloc, TWO_PARTIES.as_bytes()).ok()?,
            usage: Usage::read(alloc, uses.as_bytes()).ok()?,
            plan: Plan::new(1, 1, 1)?,
            gate: CallCount {
                calls: AtomicU64::new(0),
            },
        })
    }

    /// Prints how many lines the gate was told, how many items were taken, and whether there was a book.
    fn tell<W: Write>(&self, takes: u64, has_book: bool, out: &mut W) -> io::Result<()> {
        let answer = if has_book { "a book" } else { "no room" };
        let calls = self.gate.calls.load(Ordering::SeqCst);
        writeln!(out, "{calls} lines, {takes} items, {answer}")
    }
}

/// Tells of a run over mailboxes that count what is taken.
pub fn run_counted<R: Threads + Wait + Sync, W: Write>(
    rt: &R,
    alloc: Global,
    out: &mut W,
) -> io::Result<()> {
    let (Ok(mail), Some(setting)) = (CountingMail::new(alloc, LinkMail), Setting::read(alloc))
    else {
        return writeln!(out, "no memory");
    };
    let (tis, registry, usage) = (&setting.tis, &setting.registry, &setting.usage);
    let (plan, gate) = (setting.plan, &setting.gate);
    let book = run(rt, alloc, &mail, tis, registry, usage, plan, gate);
    setting.tell(mail.takes(), book.is_ok(), out)
}

/// Tells of a run over a pool that counts what is taken.
pub fn run_counted_pool<R: Threads + Wait + Sync, W: Write>(
    rt: &R,
    alloc: Global,
    out: &mut W,
) -> io::Result<()> {
    let (Ok(pool), Some(setting)) = (CountingPool::new(alloc, PoolMail), Setting::read(alloc))
    else {
        return writeln!(out, "no memory");
    };
    let (tis, registry, usage) = (&setting.tis, &setting.registry, &setting.usage);
    let (plan, gate) = (setting.plan, &setting.gate);
    let book = run_pool(rt, alloc, &pool, tis, registry, usage, plan, gate);
    setting.tell(pool.takes(), book.is_ok(), out)
}
