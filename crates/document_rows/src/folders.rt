//! The documents that a run writes.

ghost use Rattle.std.specs.Prelude.{◌≤◌};

use crate::files::{bytes_in, inputs_in};
use crate::memory::{Kept, Memory, NamedPage};
use anyhow::{Context, Result, bail};
use document_names::TerritoryNames;
use document_run::{SubmittedRun, Wording, document_files, document_submitted};
use linked_works::Submitters;
use row_tables::{text_of, written_out};
use split_run::Plan;
use std::alloc::Global;
use std::rt::Files;
use std::sync::Wait;
use std::thread::Threads;
use submitted_inputs::SubmittedTables;

/// What is asked of the documents of a run over one CWR file, whose inputs a heading names behind a table of names of
/// territories. The question has the threads, and then `names` for the names of all files, `refused NAME` for a folder
/// that refuses the file of a name, the name of a file for its bytes, or `NAME has TEXT` for whether it has a text.
pub fn of_one_file<R: Files + AllocGlobal + Threads + Wait + Sync>(
    rt: &R,
    alloc: Global,
    of: &str,
    question: &str,
) -> Result<String> {
    let (lands, inputs) = of.split_once(' ').context("no inputs")?;
    let lands = territories_in(rt, alloc, lands)?;
    let inputs = inputs_in(rt, alloc, inputs)?;
    let plan = plan_in(question)?;
    let what = what_in(question);
    let folder = Memory {
        refused: refused_in(what).as_bytes(),
    };
    match document_files(rt, alloc, &inputs, &wording(&lands), plan, &folder) {
        Ok(Some(pages)) => told(alloc, pages.as_slice(), what),
        Ok(None) => Ok(String::from_str(alloc, "a refused file")?),
        Err(fault) => Ok(format!(in alloc; "{fault:?}")?),
    }
}

/// The same over the files of several submitters: a heading names the table of names of territories, the tables of
/// territories, payees, works and usage lines, and then `NAME=FILE` of each submitter; `-` stands for no payees, and
/// for a file that cannot be read.
pub fn of_submitters<R: Files + AllocGlobal + Threads + Wait + Sync>(
    rt: &R,
    alloc: Global,
    of: &str,
    question: &str,
) -> Result<String> {
    let plan = plan_in(question)?;
    let given = given_in(rt, alloc, of)?;
    written_for(rt, alloc, &given, plan, what_in(question))
}

/// The inputs of a run over the files of several submitters, and the names of territories.
#[derive(Drop)]
struct Given {
    lands: TerritoryNames,
    tables: SubmittedTables<Vec<u8>>,
    submitters: Submitters,
    kept: Kept,
}

/// What is asked of the documents of such a run.
fn written_for<R: Threads + Wait + Sync>(
    rt: &R,
    alloc: Global,
    given: &Given,
    plan: Plan,
    what: &str,
) -> Result<String> {
    let folder = Memory {
        refused: refused_in(what).as_bytes(),
    };
    let run = SubmittedRun {
        submitters: &given.submitters,
        tables: &given.tables,
        files: &given.kept,
    };
    match document_submitted(rt, alloc, run, &wording(&given.lands), plan, &folder) {
        Ok(Some(pages)) => told(alloc, pages.as_slice(), what),
        Ok(None) => Ok(String::from_str(alloc, "a refused file")?),
        Err(fault) => Ok(format!(in alloc; "{fault:?}")?),
    }
}

/// The inputs that a heading names.
fn given_in<R: Files + AllocGlobal>(rt: &R, alloc: Global, of: &str) -> Result<Given> {
    let lands = territories_in(rt, alloc, word_in(of, 0))?;
    let tables = tables_in(rt, alloc, of)?;
    let mut submitters = Submitters::none(alloc);
    let kept = files_in(rt, alloc, of, &mut submitters)?;
    Ok(Given {
        lands,
        tables,
        submitters,
        kept,
    })
}

/// The tables that a heading names behind that of the names of territories.
fn tables_in<R: Files + AllocGlobal>(
    rt: &R,
    alloc: Global,
    of: &str,
) -> Result<SubmittedTables<Vec<u8>>> {
    let territories = bytes_in(rt, alloc, word_in(of, 1))?;
    let payees = bytes_if_any(rt, alloc, word_in(of, 2))?;
    let works = bytes_in(rt, alloc, word_in(of, 3))?;
    let usage = bytes_in(rt, alloc, word_in(of, 4))?;
    Ok(SubmittedTables {
        territories,
        payees,
        works,
        usage,
    })
}

/// The files that a heading names behind the tables, each by its submitter, whose name is added to these.
fn files_in<R: Files + AllocGlobal>(
    rt: &R,
    alloc: Global,
    of: &str,
    submitters: &mut Submitters,
) -> Result<Kept> {
    let mut files = Vec::new(alloc);
    for word in of.split(' ').skip(5) {
        let (name, file) = word.split_once('=').unwrap_or((word, "-"));
        if !submitters.add(alloc, name.as_bytes())? {
            bail!("{name} is no name, or there already");
        }
        files.push(bytes_if_any(rt, alloc, file)?)?;
    }
    Ok(Kept { files })
}

/// The word of a place in a heading.
fn word_in(of: &str, place: usize) -> &str {
    of.split(' ').nth(place).unwrap_or("")
}

/// A table of names of territories; none where its name is `-`.
fn territories_in<R: Files + AllocGlobal>(
    rt: &R,
    alloc: Global,
    name: &str,
) -> Result<TerritoryNames> {
    match bytes_if_any(rt, alloc, name)? {
        Some(table) => Ok(TerritoryNames::read(alloc, table.as_slice())?),
        None => Ok(TerritoryNames::none(alloc)),
    }
}

/// The bytes of a file, where its name is not `-`.
fn bytes_if_any<R: Files + AllocGlobal>(
    rt: &R,
    alloc: Global,
    name: &str,
) -> Result<Option<Vec<u8>>> {
    if name == "-" {
        return Ok(None);
    }
    Ok(Some(bytes_in(rt, alloc, name)?))
}

/// How these documents are worded.
fn wording(territories: &TerritoryNames) -> Wording<'_>
    ensures { result.decimals ≤ 9 }
{
    Wording {
        title: b"Distribution",
        currency: b"EUR",
        decimals: 2,
        territories,
    }
}

/// A plan of as many workers as a question begins with.
fn plan_in(question: &str) -> Result<Plan> {
    let mut words = question.split(' ');
    let threads = words.next().unwrap_or("").parse()?;
    Plan::new(threads, 1, 1).context("no plan")
}

/// What a question asks, behind the number of threads.
fn what_in(question: &str) -> &str {
    match question.split_once(' ') {
        Some((_, what)) => what,
        None => "",
    }
}

/// The name of the file that the folder is to refuse, where it is asked for.
fn refused_in(what: &str) -> &str {
    match what.split_once(' ') {
        Some(("refused", name)) => name,
        _ => "",
    }
}

/// The names of all files, each on a line; or the bytes of one, or whether it has a text.
fn told(alloc: Global, pages: &[NamedPage], what: &str) -> Result<String> {
    if what == "names" {
        return names_of(alloc, pages);
    }
    match what.split_once(" has ") {
        Some((name, text)) => {
            let text = written_out(alloc, text)?;
            let has = text_in(pages, name)?.contains(text_of(text.as_slice()));
            Ok(format!(in alloc; "{has}")?)
        }
        None => Ok(String::from_str(alloc, text_in(pages, what)?)?),
    }
}

/// The names of files, each on a line.
fn names_of(alloc: Global, pages: &[NamedPage]) -> Result<String> {
    let mut names = String::new(alloc);
    for page in pages {
        names.push_str(text_of(page.name.as_slice()))?;
        names.push_str("\n")?;
    }
    Ok(names)
}

/// The bytes of the file of a name.
fn text_in<'a>(pages: &'a [NamedPage], name: &str) -> Result<&'a str> {
    for page in pages {
        if text_of(page.name.as_slice()) == name {
            return Ok(text_of(page.bytes.as_slice()));
        }
    }
    bail!("no such file")
}
