//! What documents call works, payees and territories, and the portions that they list.

ghost use Rattle.std.specs.Prelude.{◌≤◌, ◌<◌, All, IfOk, IsTrue, length, unsigned_abs};
ghost use Rattle.line_split.specs.declared.TheConstants.{MOST_AMOUNT, MOST_LINES};

use crate::files::{bytes_in, inputs_in};
use anyhow::{Context, Result, bail};
use document_names::{
    FirstTexts, TerritoryNames, names_in_file, names_in_table, titles_in_file, titles_in_table,
    with_names_in_file,
};
use line_split::{Account, MOST_AMOUNT, MOST_CLAIMS, MOST_LINES, Portions, split};
use payee_documents::{add_uses, sheet_of};
use payee_portions::{Portion, list_of};
use row_tables::text_of;
use run_inputs::{Tables, read_inputs};
use std::alloc::Global;
use std::rt::Files;

/// The title of a work in a CWR file.
pub fn title_in_file<R: Files + AllocGlobal>(
    rt: &R,
    alloc: Global,
    file: &str,
    work: &str,
) -> Result<String> {
    let file = bytes_in(rt, alloc, file)?;
    let titles = titles_in_file(alloc, file.as_slice())?;
    Ok(String::from_str(alloc, text_of(titles.text_of(work.as_bytes())))?)
}

/// The title of a work in a table of works.
pub fn title_in_table<R: Files + AllocGlobal>(
    rt: &R,
    alloc: Global,
    table: &str,
    work: &str,
) -> Result<String> {
    let table = bytes_in(rt, alloc, table)?;
    let titles = titles_in_table(alloc, table.as_slice())?;
    Ok(String::from_str(alloc, text_of(titles.text_of(work.as_bytes())))?)
}

/// The name of an account in a run over one CWR file; or over those of submitters, where a heading has a table of payees and
/// then a submitter's name and file.
pub fn name_of<R: Files + AllocGlobal>(
    rt: &R,
    alloc: Global,
    of: &str,
    account: &str,
) -> Result<String> {
    let mut accounts = Vec::new(alloc);
    accounts.push(Vec::from_slice(alloc, account.as_bytes())?)?;
    let mut words = of.split(' ');
    let first = bytes_in(rt, alloc, words.next().unwrap_or(""))?;
    let names = match words.next() {
        None => names_in_file(alloc, accounts.as_slice(), first.as_slice())?,
        Some(submitter) => {
            let names = names_in_table(alloc, accounts.as_slice(), first.as_slice())?;
            let file = bytes_in(rt, alloc, words.next().unwrap_or(""))?;
            let (submitter, file) = (submitter.as_bytes(), file.as_slice());
            with_names_in_file(
                alloc,
                accounts.as_slice(),
                submitter,
                file,
                names.as_slice(),
            )?
        }
    };
    let name = names.as_slice().first().context("no name")?;
    Ok(String::from_str(alloc, text_of(name.as_slice()))?)
}

/// The name of a territory in a table, or what the table is refused for.
pub fn territory<R: Files + AllocGlobal>(
    rt: &R,
    alloc: Global,
    table: &str,
    code: &str,
) -> Result<String> {
    let table = bytes_in(rt, alloc, table)?;
    Ok(match TerritoryNames::read(alloc, table.as_slice()) {
        Ok(names) => String::from_str(alloc, text_of(names.name_of(code.parse()?)))?,
        Err(fault) => format!(in alloc; "{fault:?}")?,
    })
}

/// The sheet of an account's portions.
pub fn sheet<R: Files + AllocGlobal>(
    rt: &R,
    alloc: Global,
    of: &str,
    account: &str,
) -> Result<String> {
    let (tables, titles) = tables_and_titles(rt, alloc, of)?;
    let list = portions(alloc, &tables, &titles, account)?;
    let sheet = sheet_of(alloc, list.as_slice())?;
    Ok(String::from_str(alloc, text_of(sheet.as_slice()))?)
}

/// The table of an account's portions as it stands in a page, with two decimal places. A heading has the names of
/// territories first.
pub fn uses<R: Files + AllocGlobal>(
    rt: &R,
    alloc: Global,
    of: &str,
    account: &str,
) -> Result<String> {
    let (names, of) = of.split_once(' ').context("no files")?;
    let names = bytes_in(rt, alloc, names)?;
    let names = TerritoryNames::read(alloc, names.as_slice())?;
    let (tables, titles) = tables_and_titles(rt, alloc, of)?;
    uses_in(alloc, &names, &tables, &titles, account)
}

/// The tables of a run, and the titles in its CWR file.
fn tables_and_titles<R: Files + AllocGlobal>(
    rt: &R,
    alloc: Global,
    of: &str,
) -> Result<(Tables, FirstTexts)> {
    let inputs = inputs_in(rt, alloc, of)?;
    let titles = titles_in_file(alloc, inputs.registrations.as_slice())?;
    Ok((read_inputs(alloc, inputs)?, titles))
}

/// The table of an account's portions, as it stands in a page.
fn uses_in(
    alloc: Global,
    names: &TerritoryNames,
    tables: &Tables,
    titles: &FirstTexts,
    account: &str,
) -> Result<String> {
    let list = portions(alloc, tables, titles, account)?;
    let mut page = Vec::new(alloc);
    add_uses(alloc, &mut page, names, 2, list.as_slice())?;
    Ok(String::from_str(alloc, text_of(page.as_slice()))?)
}

/// The portions of an account.
fn portions<'a>(
    alloc: Global,
    tables: &'a Tables,
    titles: &'a FirstTexts,
    account: &str,
) -> Result<Vec<Portion<'a>>>
    ensures few { IfOk result (λ list. length list.items ≤ MOST_LINES) }
    ensures small { IfOk result (λ list. All (λ portion. unsigned_abs portion.amount ≤ MOST_AMOUNT) list.items) }
{
    let Tables {
        territories,
        registry,
        usage,
    } = tables;
    let account = registry
        .account_of(account.as_bytes())
        .context("no account")?;
    let statement = statement_of(alloc, tables, account)?;
    if statement.len() as u64 > MOST_LINES || !are_postings(statement.as_slice(), usage.len()) {
        bail!("no statement");
    }
    Ok(list_of(
        alloc,
        territories,
        registry,
        usage,
        titles,
        account,
        statement.as_slice(),
    )?)
}

/// Whether these are postings of this many usage lines.
fn are_postings(statement: &[(u64, i64)], lines: usize) -> bool
    ensures lines { IsTrue result → All (λ posting. posting.0 < lines) statement.now }
    ensures small { IsTrue result → All (λ posting. unsigned_abs posting.1 ≤ MOST_AMOUNT) statement.now }
{
    for place in 0..statement.len() {
        if statement[place].0 >= lines as u64 {
            return false;
        }
        if statement[place].1.unsigned_abs() > MOST_AMOUNT {
            return false;
        }
    }
    true
}

/// The statement of an account, by dividing one usage line after another.
fn statement_of(alloc: Global, tables: &Tables, account: Account) -> Result<Vec<(u64, i64)>> {
    let Tables {
        territories,
        registry,
        usage,
    } = tables;
    let mut claims = registry.scratch(alloc)?;
    let mut portions = Portions::room(alloc, MOST_CLAIMS + 1)?;
    let mut statement = Vec::new(alloc);
    for place in 0..usage.len() {
        let line = usage.line(place);
        registry.claims(territories, &line, &mut claims);
        split(line.amount, &claims, &mut portions);
        let amount = portion_of(portions.list(), account);
        if amount != 0 {
            statement.push((place as u64, amount))?;
        }
    }
    Ok(statement)
}

/// The portion of an account, and 0 where it has none.
fn portion_of(portions: &[(Account, i64)], account: Account) -> i64 {
    for place in 0..portions.len() {
        if portions[place].0 == account {
            return portions[place].1;
        }
    }
    0
}
