//! What uses come to, in byte order.

ghost use Rattle.std.specs.Prelude.{ℕ, ◌≡◌, ◌≤◌, ◌<◌, ◌+◌, ◌^◌, ◌∷◌, [], All, IfNone, IfOk, IfSome, List, OnOk, Some};
ghost use Rattle.std.specs.Prelude.{false, length, map, true, unsigned_abs};
ghost use Rattle.csv_table.specs.Written.{text_of};
ghost use Rattle.merge_statements.specs.Fields.{fields_of};
ghost use Rattle.merge_statements.specs.Statements.{Rest};
ghost use Rattle.adjust_statements.specs.Adjusted.{rests_for};
ghost use Rattle.adjust_statements.specs.SoFar.{AreSmall, AreSums, IsKindOfPortion, IsNamed, IsTextOf, named_row};
ghost use Rattle.adjust_statements.specs.SoFar.{signed_by, value_at, with_row, with_rows, with_sum};

use merge_statements::amount::amount_of;
use merge_statements::{Row, RowReader, RowRoom};
use std::alloc::{AllocError, Global};
use std::collections::BTreeMap;
use std::marker::Model;

/// What uses come to, in byte order.
#[derive(Drop)]
pub(crate) struct Sums {
    sums: BTreeMap<Vec<u8>, i128>,
}

impl Model for Sums {
    ghost use Rattle.std.specs.Prelude.{List, map};
    ghost use Rattle.merge_statements.specs.Statements.{Portion};

    ghost Value = { List Portion };

    ghost view = { λ b. map (λ entry. record { usage = entry.0.items; amount = entry.1 }) b.sums.entries };
}

impl Sums {
    /// None.
    fn new(alloc: Global) -> Sums
        ensures { result ≡ [] }
    {
        Sums {
            sums: BTreeMap::new(alloc),
        }
    }

    /// How many uses there are.
    pub(crate) fn len(&self) -> usize
        ensures { result ≡ length self.now }
    {
        self.sums.len()
    }

    /// What a use comes to, which is nothing where there is no amount of it.
    fn sum_at(&self, usage: &[u8]) -> i128
        ensures { result ≡ value_at usage.now self.now }
    {
        match self.sums.get(usage) {
            Some(sum) => *sum,
            None => 0,
        }
    }

    /// Adds an amount to what a use comes to.
    fn add(&mut self, alloc: Global, usage: &[u8], amount: i128) -> Result<(), AllocError>
        requires small { unsigned_abs amount ≤ 10 ^ 12 }
        requires sums { All (λ sum. unsigned_abs sum.amount ≤ 10 ^ 36) self.old }
        ensures { OnOk result (self.new ≡ with_sum usage.now amount self.old) }
    {
        let sum = self.sum_at(usage) + amount;
        let mut name = Vec::with_capacity(alloc, usage.len())?;
        name.extend_from_slice(usage)?;
        self.sums.insert(name, sum)?;
        Ok(())
    }

    /// Takes the first use away, and answers what it comes to.
    pub(crate) fn take_first(&mut self) -> Option<(Vec<u8>, i128)>
        ensures some { IfSome result (λ first. self.old
            ≡ record { usage = first.0.items; amount = first.1 } ∷ self.new) }
        ensures none { IfNone result (self.old ≡ []) }
    {
        self.sums.pop_first()
    }
}

/// What uses come to in the rows of what is right more than in the rows of what was paid, of those rows that stand
/// under a name.
pub(crate) fn sums_of(
    alloc: Global,
    paid: &[u8],
    right: &[u8],
    name: &[u8],
) -> Result<Sums, AllocError>
    ensures { IfOk result (λ sums. (kind : List ℕ) (before after : List Rest) → IsTextOf kind before paid.now
        → IsTextOf kind after right.now
        → AreSums (rests_for name.now before) (rests_for name.now after) sums) }
{
    let mut sums = Sums::new(alloc);
    let mut room = RowRoom::new(alloc)?;
    count_rows(alloc, &mut sums, &mut room, paid, name, true)?;
    count_rows(alloc, &mut sums, &mut room, right, name, false)?;
    Ok(sums)
}

/// Counts the rows of a text that stand under a name.
fn count_rows(
    alloc: Global,
    sums: &mut Sums,
    room: &mut RowRoom,
    text: &[u8],
    name: &[u8],
    is_paid: bool,
) -> Result<(), AllocError>
    requires { AreSmall (2 ^ 64) sums.old }
    ensures counted { OnOk result ((kind : List ℕ) (rows : List Rest) → IsTextOf kind rows text.now
        → sums.new ≡ with_rows is_paid name.now rows sums.old) }
    ensures small { OnOk result ((count : ℕ) → AreSmall count sums.old → AreSmall (count + length text.now) sums.new) }
    ensures short { OnOk result (length text.now < 2 ^ 64) }
{
    let mut rows = RowReader::new(alloc, text)?;
    for _row in 0..text.len() {
        let found = count_next(alloc, sums, &mut rows, room, name, is_paid)?;
        if !found {
            return Ok(());
        }
    }
    Ok(())
}

/// Goes on to the next row of a text, and counts it, where it stands under a name. Answers whether there is one.
fn count_next(
    alloc: Global,
    sums: &mut Sums,
    rows: &mut RowReader<&[u8]>,
    room: &mut RowRoom,
    name: &[u8],
    is_paid: bool,
) -> Result<bool, AllocError>
    requires { AreSmall (2 ^ 66) sums.old }
    ensures row { IfOk result (λ found. (kind : List ℕ) (row : Rest) (others : List Rest) → IsKindOfPortion kind
        → IsNamed row
        → rows.old.left ≡ Some (text_of (map (named_row kind) (row ∷ others)))
        → (found ≡ true) × (rows.new.left ≡ Some (text_of (map (named_row kind) others)))
        × (sums.new ≡ with_row is_paid name.now row sums.old)) }
    ensures end { IfOk result (λ found. rows.old.left ≡ Some [] → (found ≡ false) × (sums.new ≡ sums.old)) }
    ensures small { OnOk result ((count : ℕ) → AreSmall count sums.old → AreSmall (count + 1) sums.new) }
{
    match rows.next() {
        Ok(true) => {}
        Ok(false) => return Ok(false),
        Err(_) => return Err(AllocError),
    }
    if let Some(row) = rows.row(room) {
        count_row(alloc, sums, &row, name, is_paid)?;
    }
    Ok(true)
}

/// Counts a row, where it stands under a name.
fn count_row(
    alloc: Global,
    sums: &mut Sums,
    row: &Row<'_>,
    name: &[u8],
    is_paid: bool,
) -> Result<(), AllocError>
    requires { AreSmall (2 ^ 66) sums.old }
    ensures counted { OnOk result ((kind : List ℕ) (of : Rest) → IsNamed of → fields_of row.now ≡ named_row kind of
        → sums.new ≡ with_row is_paid name.now of sums.old) }
    ensures small { OnOk result ((count : ℕ) → AreSmall count sums.old → AreSmall (count + 1) sums.new) }
{
    if row.payee_or_reason != name {
        return Ok(());
    }
    match amount_of(row.amount_or_total) {
        Some(amount) => sums.add(alloc, row.usage_or_count, signed(amount, is_paid)),
        None => Ok(()),
    }
}

/// What was paid is taken off.
fn signed(amount: i64, is_paid: bool) -> i128
    ensures { result ≡ signed_by is_paid amount }
{
    if is_paid {
        -(amount as i128)
    } else {
        amount as i128
    }
}
