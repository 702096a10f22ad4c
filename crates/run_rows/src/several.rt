//! Runs over the files of several submitters.

use crate::files::bytes_in;
use crate::running::plan_in;
use anyhow::{Result, bail};
use linked_works::Submitters;
use row_tables::text_of;
use run_inputs::Tables;
use settle_run::settle_tables_to;
use split_run::Plan;
use std::alloc::{AllocError, Global};
use std::rt::Files;
use std::sync::Wait;
use std::thread::Threads;
use submitted_inputs::{SubmittedTables, SubmitterFiles, read_submitted};

/// Files in memory, some of which cannot be read.
#[derive(Drop)]
struct Kept {
    files: Vec<Option<Vec<u8>>>,
}

impl SubmitterFiles for Kept {
    ghost holds = { λ _ _ _. Unit {0} };

    ghost refuses = { λ _ _. Unit {0} };

    ghost lacks = { λ _ _. Unit {0} };

    fn read(&self, alloc: Global, place: usize) -> Result<Option<Vec<u8>>, AllocError> {
        match self.files.get(place) {
            Some(Some(bytes)) => Ok(Some(Vec::from_slice(alloc, bytes.as_slice())?)),
            _ => Ok(None),
        }
    }
}

/// The statements of a run by a plan, or what it is refused for. The files are territories, payees, works and usage
/// lines, and then `NAME=FILE` of each submitter; `-` stands for no payees, and for a file that cannot be read.
pub fn statements<R: Files + AllocGlobal + Threads + Wait + Sync>(
    rt: &R,
    alloc: Global,
    of: &str,
    question: &str,
) -> Result<String> {
    let mut names = of.split(' ');
    let territories = bytes_in(rt, alloc, names.next().unwrap_or(""))?;
    let payees = bytes_if_any(rt, alloc, names.next().unwrap_or(""))?;
    let works = bytes_in(rt, alloc, names.next().unwrap_or(""))?;
    let usage = bytes_in(rt, alloc, names.next().unwrap_or(""))?;
    let tables = SubmittedTables {
        territories,
        payees,
        works,
        usage,
    };
    let mut submitters = Submitters::none(alloc);
    let mut files = Vec::new(alloc);
    for word in names {
        let (name, file) = word.split_once('=').unwrap_or((word, "-"));
        if !submitters.add(alloc, name.as_bytes())? {
            bail!("{name} is no name, or there already");
        }
        files.push(bytes_if_any(rt, alloc, file)?)?;
    }
    let plan = plan_in(question)?;
    let kept = Kept { files };
    match read_submitted(rt, alloc, &submitters, tables, &kept, plan.thread_count()) {
        Ok(tables) => printed(rt, alloc, tables, plan),
        Err(fault) => Ok(format!(in alloc; "{fault:?}")?),
    }
}

/// The statements of tables that were read.
fn printed<R: Threads + Wait + Sync>(
    rt: &R,
    alloc: Global,
    tables: Tables,
    plan: Plan,
) -> Result<String> {
    let mut text = Vec::new(alloc);
    tables.registry.accounts();
    match settle_tables_to(rt, alloc, tables, plan, &mut text)? {
        Ok(()) => Ok(String::from_str(alloc, text_of(text.as_slice()))?),
        Err(error) => Ok(format!(in alloc; "a refused write: {error}")?),
    }
}

/// The bytes of a file, where its name is not `-`.
fn bytes_if_any<R: Files + AllocGlobal>(
    rt: &R,
    alloc: Global,
    name: &str,
) -> Result<Option<Vec<u8>>> {
    if name == "-" {
        return Ok(None);
    }
    Ok(Some(bytes_in(rt, alloc, name)?))
}

/// Which of some texts are names of submitters, each once.
pub fn names(alloc: Global, texts: &str) -> Result<String> {
    let mut submitters = Submitters::none(alloc);
    let mut answer = String::new(alloc);
    for text in texts.split(' ') {
        let added = submitters.add(alloc, text.as_bytes())?;
        answer.push_str(if added { "1" } else { "0" })?;
    }
    Ok(answer)
}
