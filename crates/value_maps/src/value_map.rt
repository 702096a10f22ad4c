//! A table of values.

ghost use Rattle.std.specs.Prelude.{◌≡◌, ◌++◌, ◌∷◌, ◌↔◌, [], IfErr, IfNone, IfOk, IfSome, IsTrue, None, OnOk, Some};
ghost use Rattle.std.specs.Prelude.{length};
ghost use Rattle.csv_table.specs.Table.{rows_of};
ghost use Rattle.value_maps.specs.Maps.{HasRow, IsFaultOf, IsTableOf, value_of};

use crate::{Kind, MapFault};
use csv_table::{RowTable, Rows, read_table};
use cwr_share::{Name, Sought};
use indexmap::IndexMap;
use std::alloc::{AllocError, Global};
use std::marker::Model;

/// The most rows that a table of values has below its header.
pub const MOST_VALUES: usize = 4_194_304;

/// What values of an export become, by the rows of a table.
#[derive(Drop)]
pub struct ValueMap {
    kind: Kind,
    rows: IndexMap<Name, Name>,
}

impl Model for ValueMap {
    ghost use Rattle.value_maps.specs.Maps.{Values};

    ghost Value = { Values };

    ghost view = { λ m. record { kind = m.kind; rows = m.rows.entries } };
}

impl RowTable for ValueMap {
    ghost use Rattle.std.specs.Prelude.{ℕ, List};
    ghost use Rattle.value_maps.specs.Maps.{map_rules};
    ghost use Rattle.value_maps.specs.declared.kind.Kind.{Kind};

    type Fault = MapFault;

    ghost Item = { List ℕ × List ℕ };

    ghost Known = { Kind };

    ghost known = { λ values. values.kind };

    ghost rules = { map_rules };

    ghost items = { λ values. values.rows };

    fn is_header(&self, rows: &Rows<'_>) -> bool {
        rows.is(&["from", "to"])
    }

    fn headless(&self) -> MapFault {
        MapFault::Csv(0)
    }

    fn too_many(&self) -> MapFault {
        MapFault::Rows
    }

    fn memory() -> MapFault {
        MapFault::Memory
    }

    fn is_full(&self) -> bool {
        self.len() >= MOST_VALUES
    }

    fn add_row(
        &mut self,
        alloc: Global,
        number: u64,
        rows: &Rows<'_>,
    ) -> Result<Option<MapFault>, AllocError> {
        if rows.len() != 2 {
            return Ok(Some(MapFault::Csv(number)));
        }
        if !self.kind.takes(rows.field(1)) {
            return Ok(Some(self.kind.fault(number)));
        }
        if self.has_row(rows.field(0)) {
            return Ok(Some(MapFault::Twice(number)));
        }
        self.add(alloc, rows.field(0), rows.field(1))?;
        Ok(None)
    }
}

impl ValueMap {
    /// Reads a table of values: CSV with the header `from,to`. Fields are taken as they stand, spaces too.
    pub fn read(alloc: Global, kind: Kind, bytes: &[u8]) -> Result<ValueMap, MapFault>
        ensures kind { IfOk result (λ values. values.kind ≡ kind) }
        ensures values { IfOk result (λ values. IsTableOf kind (rows_of bytes.now) values.rows) }
        ensures fault { IfErr result (IsFaultOf kind (rows_of bytes.now)) }
    {
        read_table(alloc, bytes, ValueMap::none(alloc, kind))
    }

    /// A table with no rows.
    fn none(alloc: Global, kind: Kind) -> ValueMap
        ensures { result ≡ record { kind = kind; rows = [] } }
    {
        ValueMap {
            kind,
            rows: IndexMap::new(alloc),
        }
    }

    /// What a value becomes, where it has a row.
    pub fn value_of(&self, from: &[u8]) -> Option<&[u8]>
        ensures some { IfSome result (λ to. value_of self.now.rows from.now ≡ Some to.now) }
        ensures none { IfNone result (value_of self.now.rows from.now ≡ None) }
    {
        match self.rows.get(Sought(from)) {
            Some(to) => Some(to.as_slice()),
            None => None,
        }
    }

    /// How many rows there are.
    pub fn len(&self) -> usize
        ensures { result ≡ length self.now.rows }
    {
        self.rows.len()
    }

    /// Whether a value has a row.
    fn has_row(&self, from: &[u8]) -> bool
        ensures { IsTrue result ↔ HasRow self.now.rows from.now }
    {
        self.rows.contains_key(Sought(from))
    }

    /// Adds a row for a value that has none.
    fn add(&mut self, alloc: Global, from: &[u8], to: &[u8]) -> Result<(), AllocError>
        requires { ¬ HasRow self.old.rows from.now }
        ensures kind { self.new.kind ≡ self.old.kind }
        ensures rows { OnOk result (self.new.rows ≡ self.old.rows ++ (from.now, to.now) ∷ []) }
    {
        let (from, to) = (Name::of(alloc, from)?, Name::of(alloc, to)?);
        self.rows.insert(from, to)?;
        Ok(())
    }
}
