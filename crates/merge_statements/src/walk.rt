//! The rows of a statement text one after another, of which each has to be one that can stand there.

ghost use Rattle.std.specs.Fmt.{signed_decimal};
ghost use Rattle.std.specs.Prelude.{◌≡◌, ◌⊎◌, ◌+◌, ◌+ℤ◌, ◌^◌, ◌≤◌, ◌↔◌, ℕ, pos, unsigned_abs, IfErr, IfNone, IfOk};
ghost use Rattle.std.specs.Prelude.{IfSome, IsTrue, OnOk, codes, decimal};
ghost use Rattle.std.specs.Cmp.Lexicographic.{slice_cmp};
ghost use Rattle.std.specs.Ordering.{nat_cmp};
ghost use Rattle.std.specs.declared.cmp.Ordering.TheVariants.{Less};
ghost use Rattle.merge_statements.specs.Places.{IsNextAmount, IsPayeeAt, KindFits, RowFits, RowLeads, at_first};
ghost use Rattle.merge_statements.specs.Places.{count_at, sum_at};
ghost use Rattle.merge_statements.specs.Statements.{IsAmount, IsCount, IsName, IsReason};
ghost use Rattle.merge_statements.specs.declared.walk.Place.TheVariants as Place;
ghost use Rattle.merge_statements.specs.declared.walk.Wrong.TheVariants as Wrong;
ghost use Rattle.merge_statements.specs.Wrong.{RowIsWrong};

use crate::amount::{MOST_COUNT, amount_of, count_of};
use crate::row::Row;
use csv_table::forms::is_printable;
use itoa::Buffer;
use line_split::Reason;
use std::alloc::{AllocError, Global};
use std::cmp::Ordering;
use std::marker::Model;

/// The longest name of a payee or of a use, in bytes.
const MOST_NAME_BYTES: usize = 64;

/// A place among the rows of a statement text.
#[derive(Clone, Copy, Debug)]
pub enum Place {
    /// Before the first row, or behind the sum of a payee.
    Between,
    /// Among the portions of a payee: how many there were so far, and what they come to.
    Within(u64, i128),
    /// Among portions that nobody gets: how many so far, and what they come to.
    Resting(u64, i128),
    /// Behind what nobody gets in all.
    Summed,
    /// Behind the last row: how many usage lines there were.
    Ended(u64),
}

/// Which field of a row is the first that cannot stand there.
#[derive(Clone, Copy, Debug, PartialEq, Eq)]
pub enum Wrong {
    Kind,
    PayeeOrReason,
    UsageOrCount,
    AmountOrTotal,
    /// None: memory was refused.
    Memory,
}

/// How far a text was read.
#[derive(Drop)]
pub struct Progress {
    place: Place,
    /// The payee that was read last.
    payee: Vec<u8>,
    /// How many portions were read, those that nobody gets among them.
    portions: u64,
    /// What the sums that were read come to.
    total: i128,
}

impl Model for Progress {
    ghost use Rattle.std.specs.Prelude.{◌≤◌, ◌^◌, ◌+◌, ◌*◌, unsigned_abs};
    ghost use Rattle.merge_statements.specs.Places.{At, count_at, sum_at};

    ghost Value = { At };

    ghost view = { λ progress. record {
      place = progress.place;
      payee = progress.payee.items;
      portions = progress.portions;
      total = progress.total;
    } };

    ghost invariant = { λ progress. (progress.portions ≤ 10 ^ 18)
        × (unsigned_abs (sum_at progress.place) ≤ 10 ^ 12 * count_at progress.place)
        × (unsigned_abs progress.total + 10 ^ 12 * count_at progress.place ≤ 10 ^ 12 * progress.portions) };
}

impl Place {
    /// Whether a row of this kind can stand there.
    fn takes(self, kind: &[u8]) -> bool
        ensures { IsTrue result ↔ KindFits self kind.now }
    {
        match self {
            Place::Between => matches!(kind, b"L" | b"M" | b"T"),
            Place::Within(_, _) => matches!(kind, b"L" | b"S"),
            Place::Resting(_, _) => matches!(kind, b"M" | b"T"),
            Place::Summed => matches!(kind, b"R"),
            Place::Ended(_) => false,
        }
    }

    /// Of how many portions a sum there is, and what they come to.
    fn so_far(self) -> (u64, i128)
        ensures count { result.0 ≡ count_at self }
        ensures sum { result.1 ≡ sum_at self }
    {
        match self {
            Place::Within(count, sum) | Place::Resting(count, sum) => (count, sum),
            Place::Between | Place::Summed | Place::Ended(_) => (0, 0),
        }
    }
}

impl Progress {
    /// Before the first row.
    pub fn new(alloc: Global) -> Progress
        ensures { result ≡ at_first }
    {
        Progress {
            place: Place::Between,
            payee: Vec::new(alloc),
            portions: 0,
            total: 0,
        }
    }

    /// Goes on behind a row, where it can stand there.
    pub fn follow(&mut self, row: &Row<'_>) -> Result<(), Wrong>
        ensures follows { OnOk result (RowFits self.old row.now) }
        ensures leads { OnOk result (RowLeads self.old row.now self.new) }
        ensures wrong { IfErr result (RowIsWrong self.old row.now) }
    {
        if !self.place.takes(row.kind) {
            return Err(Wrong::Kind);
        }
        match row.kind {
            b"L" => self.portion(row),
            b"S" => self.sum(row),
            b"M" => self.rest(row),
            b"T" => self.rests(row),
            _ => self.run(row),
        }
    }

    /// The same of a payee's portion.
    fn portion(&mut self, row: &Row<'_>) -> Result<(), Wrong>
        requires kind { row.now.kind.now ≡ codes "L" }
        requires fits { KindFits self.old.place row.now.kind.now }
        ensures follows { OnOk result (RowFits self.old row.now) }
        ensures leads { OnOk result (RowLeads self.old row.now self.new) }
        ensures wrong { IfErr result (RowIsWrong self.old row.now) }
    {
        if !self.is_payee_here(row.payee_or_reason) {
            return Err(Wrong::PayeeOrReason);
        }
        let amount = self.amount_in(row)?;
        let (count, sum) = self.place.so_far();
        if replace(&mut self.payee, row.payee_or_reason).is_err() {
            return Err(Wrong::Memory);
        }
        self.place = Place::Within(count + 1, plus(sum, amount as i128));
        self.portions += 1;
        Ok(())
    }

    /// The same of a portion that nobody gets.
    fn rest(&mut self, row: &Row<'_>) -> Result<(), Wrong>
        requires kind { row.now.kind.now ≡ codes "M" }
        requires fits { KindFits self.old.place row.now.kind.now }
        ensures follows { OnOk result (RowFits self.old row.now) }
        ensures leads { OnOk result (RowLeads self.old row.now self.new) }
        ensures wrong { IfErr result (RowIsWrong self.old row.now) }
    {
        if !is_reason(row.payee_or_reason) {
            return Err(Wrong::PayeeOrReason);
        }
        let amount = self.amount_in(row)?;
        let (count, sum) = self.place.so_far();
        self.place = Place::Resting(count + 1, plus(sum, amount as i128));
        self.portions += 1;
        Ok(())
    }

    /// The same of what a payee's portions come to.
    fn sum(&mut self, row: &Row<'_>) -> Result<(), Wrong>
        requires kind { row.now.kind.now ≡ codes "S" }
        requires fits { KindFits self.old.place row.now.kind.now }
        ensures follows { OnOk result (RowFits self.old row.now) }
        ensures leads { OnOk result (RowLeads self.old row.now self.new) }
        ensures wrong { IfErr result (RowIsWrong self.old row.now) }
    {
        if row.payee_or_reason != self.payee.as_slice() {
            return Err(Wrong::PayeeOrReason);
        }
        self.end_sum(row, Place::Between)?;
        Ok(())
    }

    /// The same of what nobody gets in all.
    fn rests(&mut self, row: &Row<'_>) -> Result<(), Wrong>
        requires kind { row.now.kind.now ≡ codes "T" }
        requires fits { KindFits self.old.place row.now.kind.now }
        ensures follows { OnOk result (RowFits self.old row.now) }
        ensures leads { OnOk result (RowLeads self.old row.now self.new) }
        ensures wrong { IfErr result (RowIsWrong self.old row.now) }
    {
        if !row.payee_or_reason.is_empty() {
            return Err(Wrong::PayeeOrReason);
        }
        self.end_sum(row, Place::Summed)?;
        Ok(())
    }

    /// Goes on to a place behind a sum, where the row has how many portions it is of and what they come to.
    fn end_sum(&mut self, row: &Row<'_>, next: Place) -> Result<(), Wrong>
        requires none { count_at next ≡ 0 }
        requires nothing { sum_at next ≡ pos 0 }
        ensures count { OnOk result (row.now.usage_or_count.now ≡ decimal (count_at self.old.place)) }
        ensures total { OnOk result (row.now.amount_or_total.now ≡ signed_decimal (sum_at self.old.place)) }
        ensures ended { OnOk result
            (self.new ≡ record {
              place = next;
              payee = self.old.payee;
              portions = self.old.portions;
              total = self.old.total +ℤ sum_at self.old.place;
            }) }
        ensures other_count { result ≡ Err Wrong.UsageOrCount
            → ¬ (row.now.usage_or_count.now ≡ decimal (count_at self.old.place)) }
        ensures other_total { result ≡ Err Wrong.AmountOrTotal
            → (row.now.usage_or_count.now ≡ decimal (count_at self.old.place))
            × (¬ (row.now.amount_or_total.now ≡ signed_decimal (sum_at self.old.place))) }
        ensures either { IfErr result (λ wrong. (wrong ≡ Wrong.UsageOrCount) ⊎ (wrong ≡ Wrong.AmountOrTotal)) }
    {
        let (count, sum) = self.place.so_far();
        if row.usage_or_count != Buffer::new().format(count).as_bytes() {
            return Err(Wrong::UsageOrCount);
        }
        if !is_written(row.amount_or_total, sum) {
            return Err(Wrong::AmountOrTotal);
        }
        self.place = next;
        self.total = plus(self.total, sum);
        Ok(())
    }

    /// The same of the usage lines.
    fn run(&mut self, row: &Row<'_>) -> Result<(), Wrong>
        requires kind { row.now.kind.now ≡ codes "R" }
        requires fits { KindFits self.old.place row.now.kind.now }
        ensures follows { OnOk result (RowFits self.old row.now) }
        ensures leads { OnOk result (RowLeads self.old row.now self.new) }
        ensures wrong { IfErr result (RowIsWrong self.old row.now) }
    {
        if !row.payee_or_reason.is_empty() {
            return Err(Wrong::PayeeOrReason);
        }
        let Some(lines) = count_of(row.usage_or_count) else {
            return Err(Wrong::UsageOrCount);
        };
        if !is_written(row.amount_or_total, self.total) {
            return Err(Wrong::AmountOrTotal);
        }
        self.place = Place::Ended(lines);
        Ok(())
    }

    /// Of how many portions a sum there is, and what they come to.
    pub(crate) fn so_far(&self) -> (u64, i128)
        ensures count { result.0 ≡ count_at self.now.place }
        ensures sum { result.1 ≡ sum_at self.now.place }
        ensures few { IsCount self.now.portions }
    {
        self.place.so_far()
    }

    /// How many portions were read, those that nobody gets among them.
    pub(crate) fn portions(&self) -> u64
        ensures same { result ≡ self.now.portions }
        ensures few { IsCount result }
    {
        self.portions
    }

    /// How many usage lines there were, where the last row was read.
    pub(crate) fn ended(&self) -> Option<u64>
        ensures some { IfSome result (λ lines. self.now.place ≡ Place.Ended lines) }
        ensures none { IfNone result ((lines : ℕ) → ¬ (self.now.place ≡ Place.Ended lines)) }
    {
        match self.place {
            Place::Ended(lines) => Some(lines),
            Place::Between | Place::Within(_, _) | Place::Resting(_, _) | Place::Summed => None,
        }
    }

    /// Whether a portion of this payee can stand here.
    pub(crate) fn is_payee_here(&self, payee: &[u8]) -> bool
        ensures { IsTrue result ↔ IsPayeeAt self.now.place self.now.payee payee.now }
    {
        match self.place {
            Place::Within(_, _) => payee == self.payee.as_slice(),
            Place::Between | Place::Resting(_, _) | Place::Summed | Place::Ended(_) => {
                is_name(payee) && is_before(self.payee.as_slice(), payee)
            }
        }
    }

    /// The amount of a portion, where one more is counted and its use has a name.
    fn amount_in(&self, row: &Row<'_>) -> Result<i64, Wrong>
        ensures amount { IfOk result (λ amount. IsName row.now.usage_or_count.now × IsCount (self.now.portions + 1)
            × IsAmount amount × (row.now.amount_or_total.now ≡ signed_decimal amount)) }
        ensures no_usage { result ≡ Err Wrong.UsageOrCount → ¬ IsName row.now.usage_or_count.now }
        ensures no_amount { result ≡ Err Wrong.AmountOrTotal → IsName row.now.usage_or_count.now
            × (¬ IsNextAmount self.now.portions row.now.amount_or_total.now) }
        ensures either { IfErr result (λ wrong. (wrong ≡ Wrong.UsageOrCount) ⊎ (wrong ≡ Wrong.AmountOrTotal)) }
    {
        if !is_name(row.usage_or_count) {
            return Err(Wrong::UsageOrCount);
        }
        if self.portions >= MOST_COUNT {
            return Err(Wrong::AmountOrTotal);
        }
        match amount_of(row.amount_or_total) {
            Some(amount) => Ok(amount),
            None => Err(Wrong::AmountOrTotal),
        }
    }
}

/// Whether a name comes before another, in byte order.
pub(crate) fn is_before(name: &[u8], other: &[u8]) -> bool
    ensures { IsTrue result ↔ (slice_cmp nat_cmp name.now other.now ≡ Less) }
{
    matches!(name.cmp(other), Ordering::Less)
}

/// The sum of two numbers, neither of which is too large.
pub(crate) fn plus(one: i128, other: i128) -> i128
    requires one { unsigned_abs one ≤ 10 ^ 30 }
    requires other { unsigned_abs other ≤ 10 ^ 30 }
    ensures { result ≡ one +ℤ other }
{
    one + other
}

/// Puts a name in the place of another.
pub(crate) fn replace(name: &mut Vec<u8>, by: &[u8]) -> Result<(), AllocError>
    ensures { OnOk result (name.new.items ≡ by.now) }
{
    if name.as_slice() == by {
        return Ok(());
    }
    name.clear();
    name.extend_from_slice(by)
}

/// Whether a field has a sum as a run writes it.
fn is_written(field: &[u8], sum: i128) -> bool
    ensures { IsTrue result ↔ (field.now ≡ signed_decimal sum) }
{
    let mut digits = Buffer::new();
    field == digits.format(sum).as_bytes()
}

/// Whether a field is a name of a payee or of a use.
fn is_name(field: &[u8]) -> bool
    ensures { IsTrue result ↔ IsName field.now }
{
    is_printable(field, MOST_NAME_BYTES)
}

/// Whether a field is a reason why nobody gets a portion.
fn is_reason(field: &[u8]) -> bool
    ensures { IsTrue result ↔ IsReason field.now }
{
    field == Reason::Work.word().as_bytes()
        || field == Reason::Land.word().as_bytes()
        || field == Reason::Over.word().as_bytes()
        || field == Reason::Open.word().as_bytes()
}
