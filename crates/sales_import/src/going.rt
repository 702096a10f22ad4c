//! An import that is going on.

ghost use Rattle.std.specs.Prelude.{◌≤◌, ◌<◌, ◌+◌, ◌^◌, IfErr, OnOk};
ghost use Rattle.sales_import.specs.Imported.{IsMade, Made};
ghost use Rattle.sales_import.specs.SoFar.{IsAdded, IsOfRows};
ghost use Rattle.sales_import.specs.Tallies.{AreWithin};

use crate::page::{push_line, push_reject};
use crate::{ImportFault, Summary};
use csv_table::RowWriter;
use export_rows::Row;
use sales_lines::{Outcome, Settings};
use std::alloc::Global;
use std::io::Write;

/// What is on its way to the two tables, and what was counted so far.
#[derive(Drop)]
pub(crate) struct Going {
    pub(crate) lines: RowWriter,
    pub(crate) rejects: RowWriter,
    /// Room for what a use is called.
    pub(crate) usage: Vec<u8>,
    pub(crate) summary: Summary,
}

impl Going {
    /// Adds what becomes of the row with a number.
    pub(crate) fn add_row<W: Write, X: Write>(
        &mut self,
        alloc: Global,
        settings: &Settings,
        number: u64,
        row: &Row,
        lines: &mut W,
        rejects: &mut X,
    ) -> Result<(), ImportFault>
        requires places { settings.now.places ≤ 9 }
        requires number { number + 1 < 2 ^ 64 }
        requires within { AreWithin number self.old.summary }
        ensures added { OnOk result ((made : Made) × IsMade settings.now number row.now made
            × IsAdded made W.contents X.contents self.old lines.old rejects.old self.new lines.new rejects.new) }
        ensures within { OnOk result (AreWithin (number + 1) self.new.summary) }
        ensures fault { IfErr result IsOfRows }
    {
        match settings.outcome(row, &mut self.usage)? {
            Outcome::Passed => {
                let counted = settings.counted(row);
                self.summary.add_passed(number, counted);
                Ok(())
            }
            Outcome::Rejected(reason) => {
                push_reject(alloc, &mut self.rejects, rejects, number, reason, row)?;
                let counted = settings.counted(row);
                self.summary.add_rejected(number, counted, reason);
                Ok(())
            }
            Outcome::Line(line) => {
                push_line(&mut self.lines, lines, &line)?;
                self.summary.add_line(number, &line);
                Ok(())
            }
        }
    }
}
