//! How many usage lines there are of some kind, and what they come to.

ghost use Rattle.std.specs.Prelude.{◌≡◌, ◌+◌, ◌+ℤ◌, ◌≤◌, pos, unsigned_abs};
ghost use Rattle.line_split.specs.declared.TheConstants.{MOST_AMOUNT};

/// So many usage lines, and what they come to.
#[derive(Clone, Copy, Debug, PartialEq, Eq)]
pub struct Total {
    /// How many lines there are.
    pub lines: u64,
    /// What their amounts come to, in minor units.
    pub amount: i64,
}

impl Total {
    ghost use Rattle.usage_totals.specs.SoFar.{HasRoom};

    /// The total of no lines.
    pub(crate) fn none() -> Total
        ensures { result ≡ record { lines = 0; amount = pos 0 } }
    {
        Total {
            lines: 0,
            amount: 0,
        }
    }

    /// The total with one line more, of this amount.
    pub(crate) fn with(self, amount: i64) -> Total
        requires room { HasRoom self }
        requires small { unsigned_abs amount ≤ MOST_AMOUNT }
        ensures { result ≡ record { lines = self.lines + 1; amount = self.amount +ℤ amount } }
    {
        Total {
            lines: self.lines + 1,
            amount: self.amount + amount,
        }
    }
}
