//! How many rows there are of a kind, and what their amounts come to.

ghost use Rattle.std.specs.Prelude.{◌≡◌, ◌≤◌, ◌<◌, ◌+◌, ◌+ℤ◌, ◌*◌, ◌^◌, IfSome, unsigned_abs};
ghost use Rattle.sales_import.specs.Tallies.{IsSmall, no_rows, with_row};

/// How many rows there are of a kind, and what their amounts come to, in the units of usage lines.
#[derive(Clone, Copy, Debug, PartialEq, Eq)]
pub struct Tally {
    pub rows: u64,
    /// How many of them have no amount that can be read.
    pub without: u64,
    /// What the others come to.
    pub amount: i128,
}

impl Tally {
    /// No rows.
    pub(crate) fn none() -> Tally
        ensures { result ≡ no_rows }
    {
        Tally {
            rows: 0,
            without: 0,
            amount: 0,
        }
    }

    /// Counts one row more.
    pub(crate) fn add(&mut self, amount: Option<i64>)
        requires few { self.old.rows + 1 < 2 ^ 64 }
        requires small { IsSmall self.old }
        requires amount { IfSome amount (λ amount. unsigned_abs amount ≤ 10 ^ 12) }
        ensures { self.new ≡ with_row self.old amount }
    {
        self.rows += 1;
        match amount {
            Some(amount) => self.amount = plus(self.amount, amount),
            None => self.without += 1,
        }
    }
}

/// A sum with one amount more.
fn plus(sum: i128, amount: i64) -> i128
    requires sum { unsigned_abs sum ≤ 10 ^ 32 }
    requires amount { unsigned_abs amount ≤ 10 ^ 12 }
    ensures { result ≡ sum +ℤ amount }
{
    sum + i128::from(amount)
}
