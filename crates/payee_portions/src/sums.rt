//! What portions come to.

ghost use Rattle.std.specs.Prelude.{◌≡◌, ◌≤◌, All, length, unsigned_abs};
ghost use Rattle.line_split.specs.declared.TheConstants.{MOST_AMOUNT, MOST_LINES};
ghost use Rattle.payee_portions.specs.Shown.{portions_shown};
ghost use Rattle.payee_portions.specs.Sums.{portions_for, sum_for as sum_for_right, sum_of as sum_of_list};

use crate::Portion;
use line_split::Right;

/// What portions come to, in minor units.
pub fn sum_of(list: &[Portion<'_>]) -> i64
    requires few { length list.now ≤ MOST_LINES }
    requires small { All (λ portion. unsigned_abs portion.amount ≤ MOST_AMOUNT) list.now }
    ensures { result ≡ sum_of_list (portions_shown list.now) }
{
    let mut sum = 0;
    for place in 0..list.len() {
        sum += list[place].amount;
    }
    sum
}

/// What those of a right come to, in minor units.
pub fn sum_for(list: &[Portion<'_>], right: Right) -> i64
    requires few { length list.now ≤ MOST_LINES }
    requires small { All (λ portion. unsigned_abs portion.amount ≤ MOST_AMOUNT) list.now }
    ensures { result ≡ sum_for_right right (portions_shown list.now) }
{
    let mut sum = 0;
    for place in 0..list.len() {
        if list[place].line.right == right {
            sum += list[place].amount;
        }
    }
    sum
}

/// How many are of a right.
pub fn count_for(list: &[Portion<'_>], right: Right) -> u64
    ensures { result ≡ length (portions_for right (portions_shown list.now)) }
{
    let mut count = 0;
    for place in 0..list.len() {
        if list[place].line.right == right {
            count += 1;
        }
    }
    count
}
