//! CWR files, good and bad, and the claims that they give.

ghost use Rattle.cwr_share.specs.CwrFile.{AreSound};
ghost use Rattle.cwr_share.specs.Lines.{lines_of};

use crate::asked::{Asked, add_in_brackets, named_and_numbered};
use csv_table::{FileFault, first_piece};
use cwr_share::{CwrFault, Payees, Registry, Tally, unknown_territories, unused_payees};
use line_split::{Line, Right};
use memchr::memmem;
use row_tables::text_of;
use std::alloc::{AllocError, Global};
use tis_tree::TisTable;

pub fn add_answer(alloc: Global, asked: &Asked<'_>, answer: &mut String) -> Result<(), AllocError> {
    match asked.ask {
        "outcome" | "unknown" => {
            let file = edited(alloc, asked, answer)?;
            add_answer_of(alloc, file.as_slice(), asked, answer)
        }
        "prefixes" => add_prefixes(alloc, asked, answer),
        "fault" => add_fault(fault_in(asked.text()), answer),
        "claims" | "account" | "parties" | "unused" => {
            add_answer_of(alloc, asked.file(0), asked, answer)
        }
        _ => asked.add_unknown(answer),
    }
}

/// A file after an edit, `OLD>NEW`: the first OLD in it is replaced by NEW.
fn edited(alloc: Global, asked: &Asked<'_>, answer: &mut String) -> Result<Vec<u8>, AllocError> {
    let (old, new) = first_piece(asked.question, b'>');
    let file = asked.file(0);
    let Some(place) = memmem::find(file, old) else {
        answer.push_str("no place for the edit: ")?;
        return Vec::from_slice(alloc, file);
    };
    let mut bytes = Vec::from_slice(alloc, file.get(..place).unwrap_or(b""))?;
    bytes.extend_from_slice(new)?;
    bytes.extend_from_slice(file.get(place.saturating_add(old.len())..).unwrap_or(b""))?;
    Ok(bytes)
}

/// Adds what a file answers, or what it is refused for.
fn add_answer_of(
    alloc: Global,
    file: &[u8],
    asked: &Asked<'_>,
    answer: &mut String,
) -> Result<(), AllocError> {
    match Registry::read(alloc, file) {
        Ok(registry) => add_answer_by(alloc, file, &registry, asked, answer),
        Err(fault) => write!(answer, "{fault:?}"),
    }
}

/// Adds what the registry of a file answers.
fn add_answer_by(
    alloc: Global,
    file: &[u8],
    registry: &Registry,
    asked: &Asked<'_>,
    answer: &mut String,
) -> Result<(), AllocError>
    requires { AreSound (lines_of file.now) }
{
    match asked.ask {
        "outcome" | "prefixes" => add_counts(registry, answer),
        "account" => add_account(registry, asked.question, answer),
        "parties" => add_parties(registry, answer),
        "unused" => add_unused(alloc, registry, asked, answer),
        "claims" => match TisTable::read(alloc, asked.file(1)) {
            Ok(tis) => add_claims(alloc, &tis, registry, asked.text(), answer),
            Err(fault) => write!(answer, "{fault}"),
        },
        "unknown" => match TisTable::read(alloc, asked.file(1)) {
            Ok(tis) => add_tally(&unknown_territories(file, &tis), answer),
            Err(fault) => write!(answer, "{fault}"),
        },
        _ => asked.add_unknown(answer),
    }
}

/// Adds how many accounts and works there are.
fn add_counts(registry: &Registry, answer: &mut String) -> Result<(), AllocError> {
    let (accounts, works) = (registry.accounts(), registry.works());
    write!(answer, "accounts {accounts}, works {works}")
}

/// Adds the outcomes of all prefixes of a file, each with the length from which on it holds.
fn add_prefixes(alloc: Global, asked: &Asked<'_>, answer: &mut String) -> Result<(), AllocError> {
    let file = asked.file(0);
    let mut last = String::new(alloc);
    for end in 0..=file.len() {
        let mut now = String::new(alloc);
        add_answer_of(alloc, &file[..end], asked, &mut now)?;
        if now != last {
            writeln!(answer, "{end}: {now}")?;
            last = now;
        }
    }
    Ok(())
}

/// Adds the rows of a table of payees whose party no registration in force has.
fn add_unused(
    alloc: Global,
    registry: &Registry,
    asked: &Asked<'_>,
    answer: &mut String,
) -> Result<(), AllocError> {
    let table = asked.below(alloc)?;
    match Payees::read(alloc, table.as_slice()) {
        Ok(payees) => add_tally(&unused_payees(&payees, registry), answer),
        Err(fault) => write!(answer, "{fault}"),
    }
}

/// Adds how many there are, and the first ten of them.
fn add_tally(tally: &Tally, answer: &mut String) -> Result<(), AllocError> {
    write!(answer, "{} in {:?}", tally.count, tally.first.as_slice())
}

/// The usage line of a work, a land and a right, divided by commas.
fn usage_line(text: &str) -> Line<'_> {
    let (work, place) = text.split_once(',').unwrap_or((text, ""));
    let (land, name) = place.split_once(',').unwrap_or((place, ""));
    Line {
        usage: b"",
        work: work.as_bytes(),
        territory: land.parse().unwrap_or(0),
        right: match name {
            "P" => Right::P,
            "M" => Right::M,
            _ => Right::S,
        },
        amount: 100,
    }
}

/// Adds what stands against all claims on a usage line, and the claims.
pub fn add_claims(
    alloc: Global,
    tis: &TisTable,
    registry: &Registry,
    line: &str,
    answer: &mut String,
) -> Result<(), AllocError> {
    let mut out = registry.scratch(alloc)?;
    let against = registry.claims(tis, &usage_line(line), &mut out);
    write!(answer, "{against:?} {:?}", out.list())
}

/// Adds the account of a party, and the party of that account.
fn add_account(registry: &Registry, party: &[u8], answer: &mut String) -> Result<(), AllocError> {
    match registry.account_of(party) {
        Some(account) => write!(answer, "{account} of {}", text_of(registry.party(account))),
        None => answer.push_str("none"),
    }
}

/// Adds the parties by account, each in brackets.
pub fn add_parties(registry: &Registry, answer: &mut String) -> Result<(), AllocError> {
    for party in registry.parties() {
        add_in_brackets(party.as_slice(), answer)?;
    }
    Ok(())
}

/// Adds a fault's number, its line and its text.
fn add_fault(fault: CwrFault, answer: &mut String) -> Result<(), AllocError> {
    write!(answer, "{} {:?} {fault}", fault.number(), fault.place())
}

/// The fault of a name and a line.
fn fault_in(text: &str) -> CwrFault {
    let (name, line) = named_and_numbered(text);
    match name {
        "Short" => CwrFault::Short(line),
        "Share" => CwrFault::Share(line),
        "Mark" => CwrFault::Mark(line),
        "Land" => CwrFault::Land(line),
        "Party" => CwrFault::Party(line),
        "Work" => CwrFault::Work(line),
        "Many" => CwrFault::Many(line),
        "Accounts" => CwrFault::Accounts,
        _ => CwrFault::Memory,
    }
}
