//! The texts of failures that no small file brings about.

use crate::asks::on_one_line;
use anyhow::{Result, bail};
use cwr_share::{CwrFault, PayeeFault};
use document_names::NameFault;
use line_split::LineFault;
use linked_works::WorksFault;
use pair_split::PairFault;
use royalty_program::{Failure, words_of};
use run_inputs::Fault;
use std::alloc::Global;
use std::io;
use tis_tree::TisFault;
use value_maps::MapFault;

/// The text of the failure of a name.
pub fn text_of_failure(alloc: Global, name: &str) -> Result<String> {
    let failure = failure_named(alloc, name)?;
    let text = format!(in alloc; "{failure}")?;
    Ok(on_one_line(alloc, text.as_str())?)
}

fn failure_named(alloc: Global, name: &str) -> Result<Failure> {
    match name {
        "the share of pair 7" => Ok(Failure::from(PairFault::Share(7))),
        "too many pairs" => Ok(Failure::from(PairFault::Many)),
        "memory of pairs" => Ok(Failure::from(PairFault::Memory)),
        "words that are no text" => failure_of_words(alloc, io::ErrorKind::InvalidData),
        "other words" => failure_of_words(alloc, io::ErrorKind::Other),
        "too many territories" => Ok(Failure::from(Fault::Tis(TisFault::Rows))),
        "too many payees" => Ok(Failure::from(Fault::Cwr(CwrFault::Accounts))),
        "too many rows of payees" => Ok(Failure::from(Fault::Payee(PayeeFault::Rows))),
        "the party of row 7" => Ok(Failure::from(Fault::Payee(PayeeFault::Twice(7)))),
        "too many lines" => Ok(Failure::from(Fault::Usage(LineFault::Lines))),
        "a payee of nobody" => Ok(Failure::from(Fault::Payee(PayeeFault::Submitter(7)))),
        "the work of row 7" => Ok(Failure::Works(WorksFault::Work(7))),
        "too many rows of works" => Ok(Failure::Works(WorksFault::Rows)),
        "too many payees of a work" => Ok(Failure::Works(WorksFault::Many(1_048_576))),
        "too many payees of all works" => Ok(Failure::Works(WorksFault::Accounts)),
        "the party of line 7 of north.cwr" => failure_of_file(alloc, CwrFault::Party(7)),
        "too many share lines of north.cwr" => failure_of_file(alloc, CwrFault::Many(1_000_000)),
        "the name of row 7" => Ok(Failure::from(NameFault::Twice(7))),
        "too many names" => Ok(Failure::from(NameFault::Rows)),
        "memory of names" => Ok(Failure::from(NameFault::Memory)),
        "the value of row 7 of works.csv" => failure_of_map(alloc, MapFault::Twice(7)),
        "too many values of works.csv" => failure_of_map(alloc, MapFault::Rows),
        "memory of a run" => Ok(Failure::from(Fault::Room)),
        _ => bail!("no failure has this name"),
    }
}

/// The failure of a submitter's file that has a fault.
fn failure_of_file(alloc: Global, fault: CwrFault) -> Result<Failure> {
    let path = String::from_str(alloc, "in/north.cwr")?;
    Ok(Failure::Registrations { fault, path })
}

/// The failure of a table of values that has a fault.
fn failure_of_map(alloc: Global, fault: MapFault) -> Result<Failure> {
    let path = String::from_str(alloc, "in/works.csv")?;
    Ok(Failure::Map { fault, path })
}

/// Why there are no words, by the kind of the error.
fn failure_of_words(alloc: Global, kind: io::ErrorKind) -> Result<Failure> {
    match words_of(alloc, Err(io::Error::from(kind))) {
        Ok(_) => bail!("an error is taken for words"),
        Err(failure) => Ok(failure),
    }
}
