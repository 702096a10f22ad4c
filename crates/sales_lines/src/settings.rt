//! How the rows of a sales report become usage lines.

ghost use Rattle.std.specs.Prelude.{◌≡◌, ◌↔◌, ◌≤◌, ◌^◌, All, IfErr, IfNone, IfOk, IfSome, IsTrue, None, OnOk, Some};
ghost use Rattle.std.specs.Prelude.{unsigned_abs};
ghost use Rattle.sales_lines.specs.Sales.{HasFields, Holds, IsCountedWith, IsWide, Lacks, mapped, usage_in};
ghost use Rattle.sales_lines.specs.Sales.{value_in};
ghost use Rattle.value_maps.specs.Maps.{IsValue};

use crate::source::are_there;
use crate::{Reason, Source};
use decimal_amounts::{Mark, units_of};
use export_rows::Row;
use std::alloc::AllocError;
use value_maps::{Kind, ValueMap};

/// What a value has to be for a row to be kept.
#[derive(Drop)]
pub struct Condition {
    pub source: Source,
    pub text: Vec<u8>,
}

/// How the rows of a sales report become usage lines.
#[derive(Drop)]
pub struct Settings {
    /// How many fields a row has, where a header says so.
    pub width: Option<usize>,
    /// A row is kept where all of these hold.
    pub conditions: Vec<Condition>,
    /// What its use is called: these values, with `-` between them.
    pub usage: Vec<Source>,
    pub work: Source,
    pub territory: Source,
    pub right: Source,
    pub amount: Source,
    /// What values become. Without a table they stay as they are.
    pub works: Option<ValueMap>,
    pub territories: Option<ValueMap>,
    pub rights: Option<ValueMap>,
    /// What stands before the decimals of an amount.
    pub mark: Mark,
    /// How many decimal places the units of usage lines have.
    pub places: u32,
}

impl Condition {
    /// Whether it holds of a row.
    fn holds(&self, row: &Row) -> bool
        ensures { IsTrue result ↔ Holds row.now self.now }
    {
        self.source.is_there(row) && self.source.text(row) == self.text.as_slice()
    }
}

/// Whether all conditions hold of a row.
fn hold(conditions: &[Condition], row: &Row) -> bool
    ensures { IsTrue result ↔ All (Holds row.now) conditions.now }
{
    match conditions {
        [] => true,
        [first, others @ ..] => first.holds(row) && hold(others, row),
    }
}

impl Settings {
    /// What a row counts with, whatever becomes of it: its amount in units, where that can be read.
    pub fn counted(&self, row: &Row) -> Option<i64>
        requires { self.now.places ≤ 9 }
        ensures amount { IsCountedWith self.now row.now result }
        ensures small { IfSome result (λ amount. unsigned_abs amount ≤ 10 ^ 12) }
    {
        if row.has_line_break() || !self.is_wide(row) {
            return None;
        }
        match units_of(self.amount.text(row), self.mark, self.places) {
            Ok(amount) => Some(amount),
            Err(_) => None,
        }
    }

    /// Whether a row without line breaks that is not blank is passed over: it has as many fields as a header says, and a
    /// condition does not hold.
    pub(crate) fn passes_over(&self, row: &Row) -> bool
        ensures { IsTrue result ↔ (IsWide self.now row.now × ¬ All (Holds row.now) self.now.conditions.items) }
    {
        self.is_wide(row) && !hold(self.conditions.as_slice(), row)
    }

    /// Whether a row has as many fields as it has to, and all that are asked for.
    pub(crate) fn has_fields(&self, row: &Row) -> bool
        ensures { IsTrue result ↔ HasFields self.now row.now }
    {
        self.is_wide(row)
            && are_there(self.usage.as_slice(), row)
            && self.work.is_there(row)
            && self.territory.is_there(row)
            && self.right.is_there(row)
            && self.amount.is_there(row)
    }

    /// Whether a row has as many fields as a header says.
    fn is_wide(&self, row: &Row) -> bool
        ensures { IsTrue result ↔ IsWide self.now row.now }
    {
        match self.width {
            Some(width) => row.len() == width,
            None => true,
        }
    }

    /// Puts what the use of a row is called into a text.
    pub(crate) fn join_usage(&self, row: &Row, usage: &mut Vec<u8>) -> Result<(), AllocError>
        ensures { OnOk result (usage.new.items ≡ usage_in self.now row.now) }
    {
        usage.clear();
        let [first, others @ ..] = self.usage.as_slice() else {
            return Ok(());
        };
        usage.extend_from_slice(first.text(row))?;
        for other in others {
            usage.push(b'-')?;
            usage.extend_from_slice(other.text(row))?;
        }
        Ok(())
    }

    /// The work, the territory or the right of a row.
    pub(crate) fn value<'a>(&'a self, kind: Kind, row: &'a Row) -> Result<&'a [u8], Reason>
        ensures value { IfOk result (λ value.
            (value_in self.now kind row.now ≡ Some value.now) × IsValue kind value.now) }
        ensures none { IfErr result (Lacks self.now kind row.now) }
    {
        let (source, map) = match kind {
            Kind::Works => (&self.work, &self.works),
            Kind::Territories => (&self.territory, &self.territories),
            Kind::Rights => (&self.right, &self.rights),
        };
        let Some(value) = mapped(map, source.text(row)) else {
            return Err(Reason::Unknown(kind));
        };
        if kind.takes(value) {
            Ok(value)
        } else {
            Err(Reason::Unfit(kind))
        }
    }
}

/// What a text becomes by a table, if there is one.
fn mapped<'a>(map: &'a Option<ValueMap>, text: &'a [u8]) -> Option<&'a [u8]>
    ensures some { IfSome result (λ value. mapped map.now text.now ≡ Some value.now) }
    ensures none { IfNone result (mapped map.now text.now ≡ None) }
{
    match map {
        Some(map) => map.value_of(text),
        None => Some(text),
    }
}
