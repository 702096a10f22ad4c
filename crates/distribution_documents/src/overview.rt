//! What the overview is made of.

ghost use Rattle.std.specs.Prelude.{◌≡◌, ◌≤◌, ◌<◌, All, IfOk, length, map, unsigned_abs};
ghost use Rattle.distribution_documents.specs.Ready.{AreReady};
ghost use Rattle.distribution_documents.specs.Runs.{file_of, overview_of, payee_line, payees_in, run_shown};
ghost use Rattle.line_split.specs.declared.TheConstants.{MOST_AMOUNT, MOST_LINES};
ghost use Rattle.overview_documents.specs.Overviews.{CanBeShown, overview_shown};
ghost use Rattle.overview_documents.specs.Page.{IsOverviewPage};
ghost use Rattle.overview_documents.specs.Payees.{AreFew, line_shown, lines_shown};
ghost use Rattle.page_parts.specs.Facts.{distribution_shown};
ghost use Rattle.payee_book.specs.Statement.{total_of};
ghost use Rattle.residue_documents.specs.Page.{AreFew as AreFewHeld, residue_shown};

use crate::documents::Documents;
use crate::payee_files::file_name;
use line_split::Right;
use overview_documents::{
    Overview, PayeeLine, page_of, sum_of_lines, sum_of_reversals, sum_of_right,
};
use payee_book::Posting;
use residue_documents::{Residue, sums_of};
use std::alloc::{AllocError, Global};

/// The accounts of the payees that have portions.
pub(crate) fn payees_of(alloc: Global, documents: &Documents<'_>) -> Result<Vec<u16>, AllocError>
    requires { AreReady documents.now }
    ensures payees { IfOk result (λ payees. payees.items ≡ payees_in (run_shown documents.now)) }
    ensures known { IfOk result (λ payees. All
        (λ account. account < length documents.now.divided.now.book) payees.items) }
{
    let book = &documents.divided.book;
    let mut payees = Vec::new(alloc);
    for account in 1..book.accounts() {
        if !book.lines(account).is_empty() {
            payees.push(account)?;
        }
    }
    Ok(payees)
}

/// The page of the overview.
pub(crate) fn overview_page(
    alloc: Global,
    documents: &Documents<'_>,
    payees: &[u16],
    residue: &Residue<'_>,
) -> Result<Vec<u8>, AllocError>
    requires ready { AreReady documents.now }
    requires payees { payees.now ≡ payees_in (run_shown documents.now) }
    requires known { All (λ account. account < length documents.now.divided.now.book) payees.now }
    requires few { AreFewHeld residue.now }
    ensures { IfOk result (λ text. IsOverviewPage (distribution_shown documents.now.distribution)
        (overview_of (run_shown documents.now) (residue_shown residue.now)) text.items) }
{
    let files = files_of(alloc, documents, payees)?;
    let lines = lines_of(alloc, documents, payees, files.as_slice())?;
    let usage = &documents.divided.tables.usage;
    let overview = Overview {
        lines: sum_of_lines(usage),
        reversals: sum_of_reversals(usage),
        performing: sum_of_right(usage, Right::P),
        mechanical: sum_of_right(usage, Right::M),
        synchronisation: sum_of_right(usage, Right::S),
        payees: lines.as_slice(),
        residue: sums_of(residue),
    };
    page_of(alloc, &documents.distribution, &overview)
}

/// The names of the payees' files.
fn files_of(
    alloc: Global,
    documents: &Documents<'_>,
    payees: &[u16],
) -> Result<Vec<Vec<u8>>, AllocError>
    requires ready { AreReady documents.now }
    requires known { All (λ account. account < length documents.now.divided.now.book) payees.now }
    ensures { IfOk result (λ files. map (λ file. file.items) files.items ≡ map (file_of
        (run_shown documents.now)) payees.now) }
{
    let mut files = Vec::new(alloc);
    for place in 0..payees.len() {
        files.push(file_name(alloc, documents, payees[place])?)?;
    }
    Ok(files)
}

/// The payees, as the overview lists them.
fn lines_of<'a>(
    alloc: Global,
    documents: &'a Documents<'a>,
    payees: &[u16],
    files: &'a [Vec<u8>],
) -> Result<Vec<PayeeLine<'a>>, AllocError>
    requires ready { AreReady documents.now }
    requires known { All (λ account. account < length documents.now.divided.now.book) payees.now }
    requires files { map (λ file. file.items) files.now ≡ map (file_of (run_shown documents.now)) payees.now }
    ensures lines { IfOk result (λ lines. lines_shown lines.items ≡ map (payee_line
        (run_shown documents.entry.now)) payees.now) }
    ensures few { IfOk result (λ lines. (length payees.now ≤ 65536) → AreFew lines.items) }
{
    let mut lines = Vec::new(alloc);
    for place in 0..payees.len() {
        lines.push(line_of(documents, payees[place], files[place].as_slice()))?;
    }
    Ok(lines)
}

/// A payee, as the overview lists it.
fn line_of<'a>(documents: &'a Documents<'a>, account: u16, file: &'a [u8]) -> PayeeLine<'a>
    requires ready { AreReady documents.now }
    requires known { account < length documents.now.divided.now.book }
    requires file { file.now ≡ file_of (run_shown documents.now) account }
    ensures line { line_shown result ≡ payee_line (run_shown documents.entry.now) account }
    ensures few { result.count ≤ MOST_LINES }
{
    let divided = documents.divided;
    let statement = divided.book.lines(account);
    // an account has no more postings than there are lines
    let _lines = divided.tables.usage.len();
    PayeeLine {
        number: u64::from(account),
        account: divided.tables.registry.party(account),
        name: documents.names[account as usize].as_slice(),
        file,
        count: statement.len() as u64,
        total: total(statement),
    }
}

/// What postings come to, in minor units.
fn total(statement: &[Posting]) -> i64
    requires few { length statement.now ≤ MOST_LINES }
    requires small { All (λ posting. unsigned_abs posting.1 ≤ MOST_AMOUNT) statement.now }
    ensures { result ≡ total_of statement.now }
{
    let mut total = 0;
    for place in 0..statement.len() {
        total += statement[place].1;
    }
    total
}
