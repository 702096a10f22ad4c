//! The explanation of a usage line, from the inputs of a run over the files of several submitters.

ghost use Rattle.std.specs.Prelude.{◌≡◌, ◌⊎◌, ◌≤◌, ◌<◌, ◌-◌, ℕ, [], All, List, IfErr, IfNone, IfOk, IfSome, Ok, Some};
ghost use Rattle.std.specs.Prelude.{length, slice_get, unwrap_or};
ghost use Rattle.cwr_share.specs.Registrations.{ShareLine, find_work};
ghost use Rattle.cwr_share.specs.declared.TheConstants.{MOST_SHARE_LINES};
ghost use Rattle.std.specs.Option.{option_map};
ghost use Rattle.csv_table.specs.Table.{rows_of};
ghost use Rattle.csv_table.specs.Written.{text_of};
ghost use Rattle.explain_line.specs.LookedAt.{AreRowsOf, HasNoRowBy, IsExplainedBy, IsFaultBehind, IsFaultOfUses, IsFoundFor, IsRowExplained};
ghost use Rattle.explain_line.specs.Submitted.{IsSubmittedExplanationOf, SubmittedHaveNoRow, submitted_rows};
ghost use Rattle.line_split.specs.UsageLine.{UsageLine, usage_line_of};
ghost use Rattle.line_split.specs.UsageLines.{IsUsageLine};
ghost use Rattle.linked_works.specs.Linked.{Link};
ghost use Rattle.linked_works.specs.Rows.{IsKnownRow};
ghost use Rattle.submitted_inputs.specs.Submitted.{ArePayees, IsFaultOf, map_tables};
ghost use Rattle.tis_tree.specs.TisRows as tis_rows;

use crate::rows::{write_claims, write_division, write_line};
use crate::submitted_files::{Found, found_in};
use crate::submitted_rows::{write_linked, write_reason};
use csv_table::RowWriter;
use cwr_share::{Payees, ShareRecord};
use line_split::{Line, LineFault, Usage};
use linked_works::{Submitters, Works, WorksRow};
use run_inputs::{Input, read_territories};
use std::alloc::{AllocError, Global};
use submitted_inputs::{SubmittedFault, SubmittedTables, SubmitterFiles, read_payees_if_given};
use tis_tree::{Code, TisTable};

/// Explains the usage line in a row of the usage list, from 1, as CSV rows: the line, why no claim counts, each row of the table
/// of works that has its work with the share lines of the registration in force, what all of these claim together, and how
/// each portion comes about. None: the list has no such row. The inputs are read in the order of a run, the files one after
/// another, and the first that is refused is the answer.
pub fn explain_submitted<I: Input, F: SubmitterFiles>(
    alloc: Global,
    submitters: &Submitters,
    inputs: &SubmittedTables<I>,
    files: &F,
    row: u64,
) -> Result<Option<Vec<u8>>, SubmittedFault>
    ensures explained { IfOk result (λ answer. IfSome answer (λ text.
        IsSubmittedExplanationOf submitters.now (F.holds files.now) (map_tables I.bytes inputs.now) row text.items)) }
    ensures none { IfOk result (λ answer. IfNone answer
        (SubmittedHaveNoRow submitters.now (F.holds files.now) (map_tables I.bytes inputs.now) row)) }
    ensures fault { IfErr result
        (IsFaultOf submitters.now (F.holds files.now) (F.refuses files.now) (map_tables I.bytes inputs.now)) }
{
    let territories = read_territories(alloc, &inputs.territories)?;
    let payees = read_payees_if_given(alloc, submitters, &inputs.payees)?;
    explain_linked(alloc, submitters, inputs, files, row, &territories, &payees)
}

/// The same, where the tables of territories and of payees were read.
fn explain_linked<I: Input, F: SubmitterFiles>(
    alloc: Global,
    submitters: &Submitters,
    inputs: &SubmittedTables<I>,
    files: &F,
    row: u64,
    tis: &TisTable,
    payees: &Payees,
) -> Result<Option<Vec<u8>>, SubmittedFault>
    requires territories { tis_rows.IsTableOf (rows_of (I.bytes inputs.now.territories)) tis.now }
    requires payees { ArePayees submitters.now (option_map I.bytes inputs.now.payees) payees.now }
    ensures explained { IfOk result (λ answer. IfSome answer (λ text.
        IsSubmittedExplanationOf submitters.now (F.holds files.now) (map_tables I.bytes inputs.now) row text.items)) }
    ensures none { IfOk result (λ answer. IfNone answer
        (SubmittedHaveNoRow submitters.now (F.holds files.now) (map_tables I.bytes inputs.now) row)) }
    ensures fault { IfErr result
        (IsFaultOf submitters.now (F.holds files.now) (F.refuses files.now) (map_tables I.bytes inputs.now)) }
{
    let works = Works::read(alloc, submitters, inputs.works.bytes())?;
    // Which registrations are looked for is in the usage list, whose faults come behind those of the files.
    let usage = Usage::read(alloc, inputs.usage.bytes());
    explain_by_works(alloc, submitters, &works, files, row, tis, payees, usage)
}

/// The same, where the table of works was read too, and this is the usage list, or why there is none.
fn explain_by_works<F: SubmitterFiles>(
    alloc: Global,
    submitters: &Submitters,
    works: &Works<'_>,
    files: &F,
    row: u64,
    tis: &TisTable,
    payees: &Payees,
    usage: Result<Usage, LineFault>,
) -> Result<Option<Vec<u8>>, SubmittedFault>
    requires { works.now.names ≡ submitters.now }
    ensures explained { IfOk result (λ answer. IfSome answer (λ text.
        IsExplainedBy submitters.now (F.holds files.now) tis.now payees.now works.now.links usage row text.items)) }
    ensures none { IfOk result (λ answer. IfNone answer
        (HasNoRowBy submitters.now (F.holds files.now) payees.now works.now.links usage row)) }
    ensures fault { IfErr result
        (IsFaultBehind submitters.now (F.holds files.now) (F.refuses files.now) payees.now works.now.links usage) }
{
    let rows = rows_wanted(alloc, works, &usage, row)?;
    let found = found_in(alloc, submitters, works, files, payees, rows.as_slice())?;
    explain_row(alloc, tis, &found, rows.as_slice(), row, usage)
}

/// The explanation of the line in a row of a usage list, if there is one, by what was found for the rows of its work.
fn explain_row(
    alloc: Global,
    tis: &TisTable,
    found: &Found,
    rows: &[WorksRow<'_>],
    row: u64,
    usage: Result<Usage, LineFault>,
) -> Result<Option<Vec<u8>>, SubmittedFault>
    requires few { (work : List ℕ) (shares : List ShareLine) → find_work work found.now.linked ≡ Some shares
        → length shares ≤ MOST_SHARE_LINES }
    requires all { length found.now.filed.items ≡ length rows.now }
    ensures explained { IfOk result (λ answer. IfSome answer (λ text.
        IsRowExplained tis.now found.now rows.now usage row text.items)) }
    ensures none { IfOk result (λ answer. IfNone answer
        ((uses : List UsageLine) × (usage ≡ Ok uses) × ((row ≡ 0) ⊎ (length uses < row)))) }
    ensures fault { IfErr result (IsFaultOfUses usage) }
{
    let usage = usage?;
    if row == 0 || row > usage.len() as u64 {
        return Ok(None);
    }
    let line = usage.line(row as usize - 1);
    let text = submitted_explanation(alloc, tis, found, rows, row, &line)?;
    Ok(Some(text))
}

/// The rows of the table of works that have the work of the line in a row of the usage list; none where there is no such line.
fn rows_wanted<'a>(
    alloc: Global,
    works: &'a Works<'a>,
    usage: &Result<Usage, LineFault>,
    row: u64,
) -> Result<Vec<WorksRow<'a>>, AllocError>
    ensures rows { IfOk result (λ rows. IfOk usage.now (λ usage. (line : UsageLine) → 0 < row
        → slice_get usage (row - 1) ≡ Some line → AreRowsOf works.entry.now.links line.work rows.items)) }
    ensures known { IfOk result (λ rows. All (IsKnownRow works.entry.now.names) rows.items) }
{
    match usage {
        Ok(usage) if row > 0 && row <= usage.len() as u64 => {
            works.of_work(alloc, usage.line(row as usize - 1).work)
        }
        _ => Ok(Vec::new(alloc)),
    }
}

/// The explanation of a line, which stands in this row, by what was found for the rows of its work.
fn submitted_explanation(
    alloc: Global,
    tis: &TisTable,
    found: &Found,
    rows: &[WorksRow<'_>],
    row: u64,
    line: &Line<'_>,
) -> Result<Vec<u8>, AllocError>
    requires line { IsUsageLine (usage_line_of line.now) }
    requires few { (work : List ℕ) (shares : List ShareLine) → find_work work found.now.linked ≡ Some shares
        → length shares ≤ MOST_SHARE_LINES }
    requires all { length found.now.filed.items ≡ length rows.now }
    ensures { (files : List (List ℕ × List (List ℕ))) (links : List Link)
        → AreRowsOf links line.now.work.now rows.now → IsFoundFor files links rows.now found.now
        → IfOk result (λ text. text.items
        ≡ text_of (submitted_rows tis.now found.now.registry files links row (usage_line_of line.now))) }
{
    let Some(land) = Code::of(line.territory) else {
        unreachable!()
    };
    let registry = &found.registry;
    let mut claims = registry.scratch(alloc)?;
    let reason = registry.claims(tis, line, &mut claims);
    let mut out = RowWriter::new(alloc);
    write_line(&mut out, row, line)?;
    write_reason(&mut out, reason)?;
    write_linked(
        alloc,
        &mut out,
        tis,
        registry,
        land,
        line.right,
        rows,
        found.filed.as_slice(),
    )?;
    let shares = shares_of(found, line.work);
    write_claims(alloc, &mut out, tis, registry, land, line.right, shares)?;
    write_division(&mut out, registry, line.amount, &claims)?;
    out.into_text()
}

/// The share lines of a work, of all its registrations in force.
fn shares_of<'a>(found: &'a Found, work: &[u8]) -> &'a [ShareRecord]
    ensures { result.now ≡ unwrap_or (find_work work.now found.now.linked) [] }
{
    match found.linked.find(work) {
        Some(shares) => shares,
        None => &[],
    }
}
