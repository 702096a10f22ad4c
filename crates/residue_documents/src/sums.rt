//! What is held back for a reason, in figures.

ghost use Rattle.std.specs.Prelude.{◌≡◌, ◌≤◌, All, length, unsigned_abs};
ghost use Rattle.line_split.specs.declared.TheConstants.{MOST_AMOUNT, MOST_LINES};
ghost use Rattle.payee_portions.specs.Shown.{portions_shown};
ghost use Rattle.residue_documents.specs.Sums.{held_sum, sum_shown};

use payee_portions::{Portion, count_of_sections, sum_of};

/// What is held back for a reason.
#[derive(Clone, Copy, Debug, PartialEq, Eq)]
pub struct HeldSum {
    /// How many lines.
    pub lines: u64,
    /// Of how many works.
    pub works: u64,
    /// What is held back of them, in minor units.
    pub amount: i64,
}

/// What is held back for a reason, by the portions that have it.
pub fn sum_of_reason(list: &[Portion<'_>]) -> HeldSum
    requires few { length list.now ≤ MOST_LINES }
    requires small { All (λ portion. unsigned_abs portion.amount ≤ MOST_AMOUNT) list.now }
    ensures { sum_shown result ≡ held_sum (portions_shown list.now) }
{
    HeldSum {
        lines: list.len() as u64,
        works: count_of_sections(list),
        amount: sum_of(list),
    }
}
