//! The numeric code of a territory.

ghost use Rattle.std.specs.Prelude.{◌≡◌, ◌≤◌, ◌<◌, IfSome, IfNone};
ghost use Rattle.csv_table.specs.declared.forms.TheConstants.{MOST_CODE};

use csv_table::forms::MOST_CODE;
use std::marker::Model;

/// A TIS numeric code: a whole number from 1 to 9999. 2136 is the world.
#[derive(Clone, Copy, Debug, PartialEq, Eq)]
pub struct Code {
    number: u16,
}

impl Model for Code {
    ghost use Rattle.std.specs.Prelude.{ℕ, ◌≤◌, ◌<◌};
    ghost use Rattle.csv_table.specs.declared.forms.TheConstants.{MOST_CODE};

    ghost Value = { ℕ };

    ghost view = { λ code. code.number };

    ghost inverse = { λ number. record { number = number } };

    ghost invariant = { λ code. (0 < code.number) × (code.number ≤ MOST_CODE) };
}

impl Code {
    /// The code with this number, where it is in range.
    pub fn of(n: u16) -> Option<Code>
        ensures some { IfSome result (λ code. (code ≡ n) × (0 < n) × (n ≤ MOST_CODE)) }
        ensures none { IfNone result (¬ ((0 < n) × (n ≤ MOST_CODE))) }
    {
        if n > 0 && n <= MOST_CODE {
            Some(Code { number: n })
        } else {
            None
        }
    }

    /// Its number.
    pub fn number(self) -> u16
        ensures number { result ≡ self }
        ensures in_range { (0 < result) × (result ≤ MOST_CODE) }
    {
        self.number
    }
}
