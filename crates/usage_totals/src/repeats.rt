//! Usage lines that are the same as an earlier one, such as those of a list that was put in twice.

ghost use Rattle.std.specs.Prelude.{◌≡◌, ◌<◌, ◌≤◌, IfOk, length, slice_index};
ghost use Rattle.cwr_share.specs.PassedOver.{IsTallyOf};
ghost use Rattle.line_split.specs.UsageLine.{UsageLine, usage_line_of};
ghost use Rattle.line_split.specs.declared.TheConstants.{MOST_LINES};
ghost use Rattle.usage_totals.specs.Repeats.{is_same_line, repeated_rows as rows_repeated};
ghost use Rattle.usage_totals.specs.RepeatsSoFar.{AreInOrderOfHash, AreMarks, hash_of, is_repeated_at, place_in};
ghost use Rattle.usage_totals.specs.RepeatsSoFar.{rows_marked as rows_of_marks};

use cwr_share::Tally;
use line_split::{Line, Usage};
use std::alloc::{AllocError, Global};
use std::hash::{FoldHasher, Hasher};

/// The rows of a usage list whose line is the same as an earlier one in all five fields. The header is row 0.
pub fn repeated_rows(alloc: Global, usage: &Usage) -> Result<Tally, AllocError>
    ensures { IfOk result (IsTallyOf (rows_repeated usage.now)) }
{
    let order = in_order_of_hash(alloc, usage)?;
    let repeated = marks(alloc, usage, order.as_slice())?;
    Ok(rows_marked(repeated.as_slice()))
}

/// The places of all lines, each below a hash of its line, in order: lines that are the same stand near each other, the
/// first of them first.
fn in_order_of_hash(alloc: Global, usage: &Usage) -> Result<Vec<u64>, AllocError>
    ensures { IfOk result (λ order. AreInOrderOfHash usage.now order.items) }
{
    let mut order = Vec::with_capacity(alloc, usage.len())?;
    for place in 0..usage.len() {
        order.push((u64::from(hash_of_line(&usage.line(place))) << 32) + place as u64)?;
    }
    order.sort_unstable();
    Ok(order)
}

/// A hash of a line, half as wide as a place may be. Whoever writes a list can give many lines one hash: these take
/// longer to compare.
fn hash_of_line(line: &Line<'_>) -> u32
    ensures { result ≡ hash_of (usage_line_of line.now) }
{
    let mut state = FoldHasher::default();
    state.write(line.usage);
    state.write(line.work);
    state.write(&line.territory.to_le_bytes());
    state.write(&line.amount.to_le_bytes());
    (state.finish() >> 32) as u32
}

/// Whether each line is the same as an earlier one.
fn marks(alloc: Global, usage: &Usage, order: &[u64]) -> Result<Vec<bool>, AllocError>
    requires { AreInOrderOfHash usage.now order.now }
    ensures marks { IfOk result (λ marks. AreMarks usage.now marks.items) }
    ensures few { IfOk result (λ marks. length marks.items ≤ MOST_LINES) }
{
    let mut repeated = vec![in alloc; false; usage.len()]?;
    for next in 0..order.len() {
        if has_same_before(usage, order, next) {
            repeated[place_of(order[next])] = true;
        }
    }
    Ok(repeated)
}

/// Whether a line before the next has its hash, and is the same.
fn has_same_before(usage: &Usage, order: &[u64], next: usize) -> bool
    requires order { AreInOrderOfHash usage.now order.now }
    requires next { next < length order.now }
    ensures { result ≡ is_repeated_at usage.now (place_in (slice_index order.now next)) }
{
    let line = usage.line(place_of(order[next]));
    let mut before = next;
    while before > 0 && order[before - 1] >> 32 == order[next] >> 32 {
        before -= 1;
        if are_same(&line, &usage.line(place_of(order[before]))) {
            return true;
        }
    }
    false
}

/// The place of a line, below its hash.
fn place_of(hashed: u64) -> usize
    ensures { result ≡ place_in hashed }
{
    (hashed & 0xFFFF_FFFF) as usize
}

/// The rows of the lines that are marked.
fn rows_marked(marks: &[bool]) -> Tally
    requires { length marks.now ≤ MOST_LINES }
    ensures { IsTallyOf (rows_of_marks marks.now) result }
{
    let mut tally = Tally::none();
    for place in 0..marks.len() {
        if marks[place] {
            tally.add(place as u64 + 1);
        }
    }
    tally
}

/// Whether two lines are the same in all five fields.
fn are_same(line: &Line<'_>, other: &Line<'_>) -> bool
    ensures { result ≡ is_same_line (usage_line_of line.now) (usage_line_of other.now) }
{
    line.usage == other.usage
        && line.work == other.work
        && line.territory == other.territory
        && line.right == other.right
        && line.amount == other.amount
}
