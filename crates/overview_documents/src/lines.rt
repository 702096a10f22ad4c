//! What usage lines come to.

ghost use Rattle.std.specs.Prelude.{◌≡◌};
ghost use Rattle.overview_documents.specs.Lines.{IsOfLines, line_sum, lines_for, reversals_of, sum_shown};

use line_split::{Right, Usage};

/// A number of usage lines, and what they come to.
#[derive(Clone, Copy, Debug, PartialEq, Eq)]
pub struct LineSum {
    /// How many lines.
    pub lines: u64,
    /// What they come to, in minor units.
    pub amount: i64,
}

/// What all usage lines come to.
pub fn sum_of_lines(usage: &Usage) -> LineSum
    ensures sum { sum_shown result ≡ line_sum usage.now }
    ensures small { IsOfLines result }
{
    let mut amount = 0;
    for place in 0..usage.len() {
        amount += usage.line(place).amount;
    }
    LineSum {
        lines: usage.len() as u64,
        amount,
    }
}

/// What those of a right come to.
pub fn sum_of_right(usage: &Usage, right: Right) -> LineSum
    ensures sum { sum_shown result ≡ line_sum (lines_for right usage.now) }
    ensures small { IsOfLines result }
{
    let mut lines = 0;
    let mut amount = 0;
    for place in 0..usage.len() {
        let line = usage.line(place);
        if line.right == right {
            lines += 1;
            amount += line.amount;
        }
    }
    LineSum { lines, amount }
}

/// What the reversals come to: lines with an amount below 0.
pub fn sum_of_reversals(usage: &Usage) -> LineSum
    ensures sum { sum_shown result ≡ line_sum (reversals_of usage.now) }
    ensures small { IsOfLines result }
{
    let mut lines = 0;
    let mut amount = 0;
    for place in 0..usage.len() {
        let line = usage.line(place);
        if line.amount < 0 {
            lines += 1;
            amount += line.amount;
        }
    }
    LineSum { lines, amount }
}
