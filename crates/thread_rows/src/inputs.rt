//! The inputs of a run, and the numbers of a question.

use anyhow::{Context, Result};
use cwr_share::Registry;
use line_split::Usage;
use row_tables::written_out;
use split_run::Plan;
use std::alloc::Global;
use std::fs;
use std::rt::Files;
use tis_tree::TisTable;

/// The table, the registrations and the usage lines of a run.
#[derive(Drop)]
pub struct Inputs {
    pub tis: TisTable,
    pub registry: Registry,
    pub usage: Usage,
}

/// Those in two files, and the table of territories.
pub fn inputs_in<R: Files + AllocGlobal>(
    rt: &R,
    alloc: Global,
    cwr: &str,
    usage: &str,
) -> Result<Inputs> {
    let tis = TisTable::read(alloc, bytes_in(rt, alloc, "territories.csv")?.as_slice())?;
    let registry = Registry::read(alloc, bytes_in(rt, alloc, cwr)?.as_slice())?;
    let usage = Usage::read(alloc, bytes_in(rt, alloc, usage)?.as_slice())?;
    Ok(Inputs {
        tis,
        registry,
        usage,
    })
}

/// The bytes of a file, with its repetitions written out.
fn bytes_in<R: Files + AllocGlobal>(rt: &R, alloc: Global, name: &str) -> Result<Vec<u8>> {
    let text = fs::read_to_string(rt, name)?;
    Ok(written_out(alloc, text.as_str())?)
}

/// The number at a place of a text, in which blanks divide them.
pub fn number_at(text: &str, place: usize) -> Result<u64> {
    Ok(text.split(' ').nth(place).unwrap_or("").parse()?)
}

/// The plan of workers, readers and nodes that a text begins with.
pub fn plan_in(text: &str) -> Result<Plan> {
    plan_of(
        number_at(text, 0)?,
        number_at(text, 1)?,
        number_at(text, 2)?,
    )
}

pub fn plan_of(workers: u64, readers: u64, nodes: u64) -> Result<Plan> {
    Plan::new(workers, readers, nodes).context("no plan")
}
