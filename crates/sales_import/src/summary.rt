//! What an import came to.

ghost use Rattle.std.specs.Prelude.{◌≡◌, ◌≤◌, ◌<◌, ◌+◌, ◌^◌, IfSome, Some, slice_set, unsigned_abs};
ghost use Rattle.sales_import.specs.SoFar.{tally_for};
ghost use Rattle.sales_import.specs.Tallies.{AreWithin, no_rows, place_of, with_row};
ghost use Rattle.sales_lines.specs.declared.reason.Reason.{Reason};

use crate::Tally;
use crate::reasons::{REASON_COUNT, place};
use sales_lines::{Reason, SalesLine};

/// What became of the rows below the header, and what their amounts come to.
#[derive(Clone, Copy, Debug, PartialEq, Eq)]
pub struct Summary {
    /// All of them.
    pub all: Tally,
    /// Those that became usage lines.
    pub lines: Tally,
    /// Those that were rejected.
    pub rejected: Tally,
    /// Those that were rejected for each reason, in the order in which a row is looked at for them.
    pub reasons: [Tally; REASON_COUNT],
    /// Those that were passed over.
    pub passed: Tally,
}

impl Summary {
    /// Of no rows.
    pub(crate) fn none() -> Summary
        ensures all { result.all ≡ no_rows }
        ensures lines { result.lines ≡ no_rows }
        ensures rejected { result.rejected ≡ no_rows }
        ensures reasons { (reason : Reason) → tally_for reason result ≡ no_rows }
        ensures passed { result.passed ≡ no_rows }
        ensures within { AreWithin 1 result }
    {
        Summary {
            all: Tally::none(),
            lines: Tally::none(),
            rejected: Tally::none(),
            reasons: [Tally::none(); REASON_COUNT],
            passed: Tally::none(),
        }
    }

    /// Counts a row that became a usage line.
    pub(crate) fn add_line(&mut self, number: u64, line: &SalesLine<'_>)
        requires number { number + 1 < 2 ^ 64 }
        requires within { AreWithin number self.old }
        requires amount { unsigned_abs line.now.amount ≤ 10 ^ 12 }
        ensures added { self.new ≡ record self.old {
          all = with_row self.old.all (Some line.now.amount);
          lines = with_row self.old.lines (Some line.now.amount);
        } }
        ensures within { AreWithin (number + 1) self.new }
    {
        self.all.add(Some(line.amount));
        self.lines.add(Some(line.amount));
    }

    /// Counts a row that was rejected.
    pub(crate) fn add_rejected(&mut self, number: u64, counted: Option<i64>, reason: Reason)
        requires number { number + 1 < 2 ^ 64 }
        requires within { AreWithin number self.old }
        requires counted { IfSome counted (λ amount. unsigned_abs amount ≤ 10 ^ 12) }
        ensures added { self.new ≡ record self.old {
          all = with_row self.old.all counted;
          rejected = with_row self.old.rejected counted;
          reasons = slice_set self.old.reasons (place_of reason) (with_row (tally_for reason self.old) counted);
        } }
        ensures within { AreWithin (number + 1) self.new }
    {
        self.all.add(counted);
        self.rejected.add(counted);
        self.reasons[place(reason)].add(counted);
    }

    /// Counts a row that was passed over.
    pub(crate) fn add_passed(&mut self, number: u64, counted: Option<i64>)
        requires number { number + 1 < 2 ^ 64 }
        requires within { AreWithin number self.old }
        requires counted { IfSome counted (λ amount. unsigned_abs amount ≤ 10 ^ 12) }
        ensures added { self.new ≡ record self.old {
          all = with_row self.old.all counted;
          passed = with_row self.old.passed counted;
        } }
        ensures within { AreWithin (number + 1) self.new }
    {
        self.all.add(counted);
        self.passed.add(counted);
    }

    /// How many rows were rejected for a reason, and what they come to.
    pub fn rejected_for(&self, reason: Reason) -> Tally
        ensures { result ≡ tally_for reason self.now }
    {
        self.reasons[place(reason)]
    }
}
