//! A part of a whole, as it is drawn: by thousandths, which are rounded. No amount is made of them.

ghost use Rattle.std.specs.Prelude.{◌≡◌, ◌≤◌, ◌<◌, ◌^◌};
ghost use Rattle.page_parts.specs.Parts.{thousandths};

/// How many thousandths of a whole a part is, rounded half up.
pub fn part_of(part: u128, whole: u128) -> u64
    requires within { part ≤ whole }
    requires some { 0 < whole }
    requires small { whole < 2 ^ 110 }
    ensures is { result ≡ thousandths part whole }
    ensures bound { result ≤ 1000 }
{
    ((2000 * part + whole) / (2 * whole)) as u64
}
