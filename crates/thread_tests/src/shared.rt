//! What several tests share: the inputs of a small run, plans, and a watch.

use cwr_share::Registry;
use line_split::Usage;
use small_run::{TERRITORIES, TWO_PARTIES};
use split_run::Plan;
use std::alloc::Global;
use std::process::Abort;
use std::sync::atomic::{AtomicBool, Ordering};
use std::test::Fail;
use std::thread;
use tis_tree::TisTable;

/// The table, the registrations and the usage lines of a run.
#[derive(Drop)]
pub struct Inputs {
    pub tis: TisTable,
    pub registry: Registry,
    pub usage: Usage,
}

impl Inputs {
    /// Those of the small run, with these usage lines.
    pub fn read(alloc: Global, usage: &str) -> Result<Inputs, Fail> {
        let tis = TisTable::read(alloc, TERRITORIES.as_bytes())?;
        let registry = Registry::read(alloc, TWO_PARTIES.as_bytes())?;
        let usage = Usage::read(alloc, usage.as_bytes())?;
        Ok(Inputs {
            tis,
            registry,
            usage,
        })
    }
}

/// Texts before and after a row that stands so many times.
pub fn repeated(
    alloc: Global,
    before: &str,
    row: &str,
    times: u64,
    after: &str,
) -> Result<String, Fail> {
    let mut text = String::new(alloc);
    text.push_str(before)?;
    for _ in 0..times {
        text.push_str(row)?;
    }
    text.push_str(after)?;
    Ok(text)
}

/// The plan of so many workers, readers and nodes.
pub fn plan_of(threads: (u64, u64, u64)) -> Result<Plan, Fail> {
    match Plan::new(threads.0, threads.1, threads.2) {
        Some(plan) => Ok(plan),
        None => Err(Fail::new("no plan")),
    }
}

/// The most turns that a watch waits.
const MOST_WATCHED: u64 = 10_000_000;

/// Waits until a thread says that it is done, and fails the test where that takes too many turns.
pub fn watch(rt: &impl Abort, done: &AtomicBool) {
    for _ in 0..MOST_WATCHED {
        if done.load(Ordering::SeqCst) {
            return;
        }
        thread::yield_now();
    }
    panic!(rt; "a thread goes on that should be done");
}
