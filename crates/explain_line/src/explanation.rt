//! The explanation of a usage line, from the inputs of a run.

ghost use Rattle.std.specs.Prelude.{◌≡◌, IfErr, IfNone, IfOk, IfSome};
ghost use Rattle.csv_table.specs.Written.{text_of};
ghost use Rattle.cwr_share.specs.CwrFile.{AreSound};
ghost use Rattle.cwr_share.specs.Lines.{lines_of};
ghost use Rattle.explain_line.specs.Explanation.{HasNoRow, IsExplanationOf, explanation_rows};
ghost use Rattle.line_split.specs.UsageLine.{usage_line_of};
ghost use Rattle.line_split.specs.UsageLines.{IsUsageLine};
ghost use Rattle.run_inputs.specs.Inputs.{IsFaultOf, map_inputs};

use crate::rows::{write_division, write_filed, write_line};
use csv_table::RowWriter;
use cwr_share::filed_registration;
use line_split::Line;
use run_inputs::{Fault, Input, Inputs, Tables, read_inputs};
use std::alloc::{AllocError, Global};
use tis_tree::Code;

/// Explains the usage line in a row of the usage list, from 1, as CSV rows: the line, the registration in force of its
/// work and its share lines, the claims, and how each portion comes about. None: the list has no such row. The inputs
/// are read in their order, and the first that is refused is the answer.
pub fn explain<I: Input>(
    alloc: Global,
    inputs: &Inputs<I>,
    row: u64,
) -> Result<Option<Vec<u8>>, Fault>
    ensures explained { IfOk result (λ answer.
        IfSome answer (λ text. IsExplanationOf (map_inputs I.bytes inputs.now) row text.items)) }
    ensures none { IfOk result (λ answer. IfNone answer (HasNoRow (map_inputs I.bytes inputs.now) row)) }
    ensures fault { IfErr result (IsFaultOf (map_inputs I.bytes inputs.now)) }
{
    let tables = read_inputs(alloc, inputs.lent())?;
    if row == 0 || row > tables.usage.len() as u64 {
        return Ok(None);
    }
    let line = tables.usage.line(row as usize - 1);
    let text = explanation(alloc, &tables, inputs.registrations.bytes(), row, &line)?;
    Ok(Some(text))
}

/// The explanation of a line, which stands in this row.
fn explanation(
    alloc: Global,
    tables: &Tables,
    cwr: &[u8],
    row: u64,
    line: &Line<'_>,
) -> Result<Vec<u8>, AllocError>
    requires sound { AreSound (lines_of cwr.now) }
    requires line { IsUsageLine (usage_line_of line.now) }
    ensures { IfOk result (λ text. text.items
        ≡ text_of (explanation_rows tables.now (lines_of cwr.now) row (usage_line_of line.now))) }
{
    let Tables {
        territories,
        registry,
        ..
    } = tables;
    let Some(land) = Code::of(line.territory) else {
        unreachable!()
    };
    let filed = filed_registration(alloc, cwr, line.work)?;
    let mut claims = registry.scratch(alloc)?;
    let reason = registry.claims(territories, line, &mut claims);
    let mut rows = RowWriter::new(alloc);
    write_line(&mut rows, row, line)?;
    write_filed(
        alloc,
        &mut rows,
        territories,
        registry,
        line,
        land,
        &filed,
        reason,
    )?;
    write_division(&mut rows, registry, line.amount, &claims)?;
    rows.into_text()
}
