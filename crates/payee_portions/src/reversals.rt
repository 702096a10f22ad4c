//! Portions of reversals.

ghost use Rattle.std.specs.Prelude.{◌≡◌, ◌≤◌, All, length, unsigned_abs};
ghost use Rattle.line_split.specs.declared.TheConstants.{MOST_AMOUNT, MOST_LINES};
ghost use Rattle.payee_portions.specs.Reversals.{reversals_of};
ghost use Rattle.payee_portions.specs.Shown.{portions_shown};
ghost use Rattle.payee_portions.specs.Sums.{sum_of as sum_of_list};

use crate::Portion;

/// How many portions are of reversals.
pub fn count_of_reversals(list: &[Portion<'_>]) -> u64
    ensures { result ≡ length (reversals_of (portions_shown list.now)) }
{
    let mut count = 0;
    for place in 0..list.len() {
        if list[place].line.amount < 0 {
            count += 1;
        }
    }
    count
}

/// What they come to, in minor units.
pub fn sum_of_reversals(list: &[Portion<'_>]) -> i64
    requires few { length list.now ≤ MOST_LINES }
    requires small { All (λ portion. unsigned_abs portion.amount ≤ MOST_AMOUNT) list.now }
    ensures { result ≡ sum_of_list (reversals_of (portions_shown list.now)) }
{
    let mut sum = 0;
    for place in 0..list.len() {
        if list[place].line.amount < 0 {
            sum += list[place].amount;
        }
    }
    sum
}
