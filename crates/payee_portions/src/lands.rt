//! Portions by territory.

ghost use Rattle.std.specs.Prelude.{◌≡◌, ◌≤◌, ◌<◌, ◌+◌, ◌⊎◌, ℕ, All, Contains, IfOk, OnOk, length, slice_index, unsigned_abs};
ghost use Rattle.line_split.specs.declared.TheConstants.{MOST_AMOUNT, MOST_LINES};
ghost use Rattle.payee_portions.specs.Lands.{AreTerritories, portions_in};
ghost use Rattle.payee_portions.specs.Shown.{portions_shown};
ghost use Rattle.payee_portions.specs.Sums.{sum_of as sum_of_list};

use crate::Portion;
use std::alloc::{AllocError, Global};

/// The codes of the territories of portions, each once, from the lowest to the highest.
pub fn territories_of(alloc: Global, list: &[Portion<'_>]) -> Result<Vec<u16>, AllocError>
    ensures { IfOk result (λ found. AreTerritories (portions_shown list.now) found.items) }
{
    let mut codes = Vec::new(alloc);
    for place in 0..list.len() {
        note(&mut codes, list[place].line.territory)?;
    }
    Ok(codes)
}

/// Adds a code to codes that rise, unless it is among them.
fn note(codes: &mut Vec<u16>, code: u16) -> Result<(), AllocError>
    requires { (k : ℕ) → k + 1 < length codes.old.items → slice_index codes.old.items k < slice_index codes.old.items (k + 1) }
    ensures rising { OnOk result ((k : ℕ) → k + 1 < length codes.new.items
        → slice_index codes.new.items k < slice_index codes.new.items (k + 1)) }
    ensures kept { OnOk result ((other : ℕ) → Contains codes.old.items other → Contains codes.new.items other) }
    ensures noted { OnOk result (Contains codes.new.items code) }
    ensures no_other { OnOk result ((other : ℕ) → Contains codes.new.items other → (other ≡ code) ⊎ Contains codes.old.items other) }
{
    let place = place_of(codes.as_slice(), code);
    if place < codes.len() && codes[place] == code {
        return Ok(());
    }
    codes.insert(place, code)?;
    Ok(())
}

/// Where a code belongs among codes that rise: behind those that are below it.
fn place_of(codes: &[u16], code: u16) -> usize
    ensures within { result ≤ length codes.now }
    ensures below { (k : ℕ) → k < result → slice_index codes.now k < code }
    ensures here { result < length codes.now → code ≤ slice_index codes.now result }
{
    let mut place = 0;
    while place < codes.len() && codes[place] < code {
        place += 1;
    }
    place
}

/// How many portions are of uses in a territory.
pub fn count_in(list: &[Portion<'_>], code: u16) -> u64
    ensures { result ≡ length (portions_in code (portions_shown list.now)) }
{
    let mut count = 0;
    for place in 0..list.len() {
        if list[place].line.territory == code {
            count += 1;
        }
    }
    count
}

/// What they come to, in minor units.
pub fn sum_in(list: &[Portion<'_>], code: u16) -> i64
    requires few { length list.now ≤ MOST_LINES }
    requires small { All (λ portion. unsigned_abs portion.amount ≤ MOST_AMOUNT) list.now }
    ensures { result ≡ sum_of_list (portions_in code (portions_shown list.now)) }
{
    let mut sum = 0;
    for place in 0..list.len() {
        if list[place].line.territory == code {
            sum += list[place].amount;
        }
    }
    sum
}
