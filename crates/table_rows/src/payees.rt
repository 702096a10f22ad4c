//! Tables of payees, good and bad, and registries whose parties are paid by one.

use crate::asked::{Asked, add_in_brackets};
use crate::registrations::{add_claims, add_parties};
use csv_table::FileFault;
use cwr_share::{Payees, Registry};
use row_tables::text_of;
use std::alloc::{AllocError, Global};
use tis_tree::TisTable;

pub fn add_answer(alloc: Global, asked: &Asked<'_>, answer: &mut String) -> Result<(), AllocError> {
    let table = asked.below(alloc)?;
    match Payees::read(alloc, table.as_slice()) {
        Ok(payees) => add_answer_by(alloc, &payees, asked, answer),
        Err(fault) if asked.ask == "payees" || asked.ask == "count" => {
            write!(answer, "{} {:?}", fault.number(), fault.place())
        }
        Err(fault) => write!(answer, "no answer: {fault}"),
    }
}

/// Adds what a table of payees answers.
fn add_answer_by(
    alloc: Global,
    payees: &Payees,
    asked: &Asked<'_>,
    answer: &mut String,
) -> Result<(), AllocError> {
    match asked.ask {
        "payees" => add_payees(payees, asked.file(0), answer),
        "count" => write!(answer, "{}", payees.len()),
        "unpaid" => add_payees(&Payees::none(alloc), asked.file(0), answer),
        _ => match Registry::paid(alloc, asked.file(0), payees) {
            Ok(registry) => add_answer_from(alloc, &registry, asked, answer),
            Err(fault) => write!(answer, "{fault:?}"),
        },
    }
}

/// Adds the payee of each of some parties, which spaces divide, in brackets.
fn add_payees(payees: &Payees, parties: &[u8], answer: &mut String) -> Result<(), AllocError> {
    for party in text_of(parties).split_whitespace() {
        add_in_brackets(payees.payee_of(party.as_bytes()), answer)?;
    }
    Ok(())
}

/// Adds what a registry answers whose parties are paid by a table.
fn add_answer_from(
    alloc: Global,
    registry: &Registry,
    asked: &Asked<'_>,
    answer: &mut String,
) -> Result<(), AllocError> {
    match asked.ask {
        "accounts" => write!(answer, "{}", registry.accounts()),
        "accounts_and_claims" => match TisTable::read(alloc, asked.file(1)) {
            Ok(tis) => add_accounts_and_claims(alloc, &tis, registry, answer),
            Err(fault) => write!(answer, "{fault}"),
        },
        "payees_of" => add_payees_of(registry, answer),
        "accounts_of" => add_accounts_of(registry, asked.text(), answer),
        _ => asked.add_unknown(answer),
    }
}

/// Adds the payees by account, each in brackets, and the claims in 276 and in 840.
fn add_accounts_and_claims(
    alloc: Global,
    tis: &TisTable,
    registry: &Registry,
    answer: &mut String,
) -> Result<(), AllocError> {
    add_parties(registry, answer)?;
    answer.push(' ')?;
    add_claims(alloc, tis, registry, "W1,276,P", answer)?;
    answer.push(' ')?;
    add_claims(alloc, tis, registry, "W1,840,P", answer)
}

/// Adds the payee of each of some parties, and a hyphen for one that the registrations do not have.
fn add_payees_of(registry: &Registry, answer: &mut String) -> Result<(), AllocError> {
    for party in ["A", "B", "C", "D", "X", "", "1234567890"] {
        let payee = match registry.payee_of(party.as_bytes()) {
            Some(payee) => text_of(payee),
            None => "-",
        };
        answer.push_str(payee)?;
    }
    Ok(())
}

/// Adds the accounts of the payee and of the party in a row of payees, and how many accounts there are.
fn add_accounts_of(registry: &Registry, row: &str, answer: &mut String) -> Result<(), AllocError> {
    let (party, payee) = row.split_once(',').unwrap_or((row, ""));
    let own = registry.account_of(payee.as_bytes());
    let other = registry.account_of(party.as_bytes());
    write!(answer, "{own:?} {other:?} {}", registry.accounts())
}
