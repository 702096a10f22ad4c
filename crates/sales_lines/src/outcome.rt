//! What becomes of a row.

ghost use Rattle.std.specs.Prelude.{◌≡◌, ◌≤◌, IfErr, IfOk};
ghost use Rattle.export_rows.specs.Places.{HasLineBreak};
ghost use Rattle.sales_lines.specs.Sales.{IsLineOf, IsOutcomeOf, IsRejectedFor, usage_in};

use crate::{Reason, Settings};
use csv_table::forms::is_printable;
use decimal_amounts::units_of;
use export_rows::Row;
use line_split::MOST_TEXT_BYTES;
use std::alloc::AllocError;
use value_maps::Kind;

/// A usage line that is made of a row. Its amount is in units of as many decimal places as the settings say.
#[derive(Clone, Copy)]
pub struct SalesLine<'a> {
    pub usage: &'a [u8],
    pub work: &'a [u8],
    pub territory: &'a [u8],
    pub right: &'a [u8],
    pub amount: i64,
}

/// What becomes of a row.
#[derive(Clone, Copy)]
pub enum Outcome<'a> {
    /// Nothing: it is blank, or whole and not one of those that are kept.
    Passed,
    /// It becomes no usage line, for this reason.
    Rejected(Reason),
    /// It becomes this one.
    Line(SalesLine<'a>),
}

impl Settings {
    /// What becomes of a row. `usage` is room for what its use is called.
    pub fn outcome<'a>(
        &'a self,
        row: &'a Row,
        usage: &'a mut Vec<u8>,
    ) -> Result<Outcome<'a>, AllocError>
        requires { self.now.places ≤ 9 }
        ensures { IfOk result (IsOutcomeOf self.now row.now) }
    {
        if row.is_blank() {
            return Ok(Outcome::Passed);
        }
        if row.has_line_break() {
            return Ok(Outcome::Rejected(Reason::Broken));
        }
        if self.passes_over(row) {
            return Ok(Outcome::Passed);
        }
        self.join_usage(row, usage)?;
        match self.line(row, usage.as_slice()) {
            Ok(line) => Ok(Outcome::Line(line)),
            Err(reason) => Ok(Outcome::Rejected(reason)),
        }
    }

    /// The line of a row without line breaks whose use is called so.
    fn line<'a>(&'a self, row: &'a Row, usage: &'a [u8]) -> Result<SalesLine<'a>, Reason>
        requires places { self.now.places ≤ 9 }
        requires whole { ¬ HasLineBreak row.now }
        requires usage { usage.now ≡ usage_in self.now row.now }
        ensures line { IfOk result (IsLineOf self.now row.now) }
        ensures reason { IfErr result (IsRejectedFor self.now row.now) }
    {
        if !self.has_fields(row) {
            return Err(Reason::Fields);
        }
        if !is_printable(usage, MOST_TEXT_BYTES) {
            return Err(Reason::Usage);
        }
        let work = match self.value(Kind::Works, row) {
            Ok(work) => work,
            Err(reason) => return Err(reason),
        };
        let territory = match self.value(Kind::Territories, row) {
            Ok(territory) => territory,
            Err(reason) => return Err(reason),
        };
        let right = match self.value(Kind::Rights, row) {
            Ok(right) => right,
            Err(reason) => return Err(reason),
        };
        match units_of(self.amount.text(row), self.mark, self.places) {
            Ok(amount) => Ok(SalesLine {
                usage,
                work,
                territory,
                right,
                amount,
            }),
            Err(fault) => Err(Reason::Amount(fault)),
        }
    }
}
