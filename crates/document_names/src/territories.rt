//! The table of names of territories.

ghost use Rattle.std.specs.Prelude.{◌≡◌, ◌++◌, ◌∷◌, ◌↔◌, ◌≤◌, ◌<◌, [], IfErr, IfOk, IsTrue, OnOk, length};
ghost use Rattle.csv_table.specs.Table.{rows_of};
ghost use Rattle.document_names.specs.Territories.{HasRow, IsFaultOf, IsTableOf, name_of_code};

use crate::NameFault;
use csv_table::forms::code;
use csv_table::{RowTable, Rows, read_table};
use cwr_share::{Name, trimmed};
use indexmap::IndexMap;
use std::alloc::{AllocError, Global};
use std::marker::Model;

/// The most rows that a table of names of territories has below its header: one for each code.
pub const MOST_TERRITORY_NAMES: usize = 9_999;

/// The names of territories, by TIS numeric code.
#[derive(Drop)]
pub struct TerritoryNames {
    names: IndexMap<u16, Name>,
}

impl Model for TerritoryNames {
    ghost use Rattle.std.specs.Prelude.{ℕ, List};

    ghost Value = { List (ℕ × List ℕ) };

    ghost view = { λ t. t.names.entries };
}

impl RowTable for TerritoryNames {
    ghost use Rattle.std.specs.Prelude.{ℕ, List};
    ghost use Rattle.document_names.specs.Territories.{name_rules};

    type Fault = NameFault;

    ghost Item = { ℕ × List ℕ };

    ghost Known = { Unit {0} };

    ghost known = { λ _. tt };

    ghost rules = { λ _. name_rules };

    ghost items = { λ names. names };

    fn is_header(&self, rows: &Rows<'_>) -> bool {
        rows.is(&["code", "name"])
    }

    fn headless(&self) -> NameFault {
        NameFault::Csv(0)
    }

    fn too_many(&self) -> NameFault {
        NameFault::Rows
    }

    fn memory() -> NameFault {
        NameFault::Memory
    }

    fn is_full(&self) -> bool {
        self.len() >= MOST_TERRITORY_NAMES
    }

    fn add_row(
        &mut self,
        alloc: Global,
        number: u64,
        rows: &Rows<'_>,
    ) -> Result<Option<NameFault>, AllocError> {
        if rows.len() != 2 {
            return Ok(Some(NameFault::Csv(number)));
        }
        let Some(code) = code(rows.field(0)) else {
            return Ok(Some(NameFault::Code(number)));
        };
        if self.has_row(code) {
            return Ok(Some(NameFault::Twice(number)));
        }
        self.add(alloc, code, trimmed(rows.field(1)))?;
        Ok(None)
    }
}

impl TerritoryNames {
    /// Reads a table of names of territories: CSV with the header `code,name`. A name is any text, and the spaces at its
    /// ends do not count.
    pub fn read(alloc: Global, bytes: &[u8]) -> Result<TerritoryNames, NameFault>
        ensures names { IfOk result (IsTableOf (rows_of bytes.now)) }
        ensures fault { IfErr result (IsFaultOf (rows_of bytes.now)) }
    {
        read_table(alloc, bytes, TerritoryNames::none(alloc))
    }

    /// A table with no rows.
    pub fn none(alloc: Global) -> TerritoryNames
        ensures { result ≡ [] }
    {
        TerritoryNames {
            names: IndexMap::new(alloc),
        }
    }

    /// The name of the territory with a code, empty where the code has no row or a blank name.
    pub fn name_of(&self, code: u16) -> &[u8]
        ensures { result.now ≡ name_of_code self.now code }
    {
        match self.names.get(&code) {
            Some(name) => name.as_slice(),
            None => b"",
        }
    }

    /// How many rows there are.
    pub fn len(&self) -> usize
        ensures { result ≡ length self.now }
    {
        self.names.len()
    }

    /// Whether a code has a row.
    fn has_row(&self, code: u16) -> bool
        ensures { IsTrue result ↔ HasRow self.now code }
    {
        self.names.contains_key(&code)
    }

    /// Adds a row for a code that has none.
    fn add(&mut self, alloc: Global, code: u16, name: &[u8]) -> Result<(), AllocError>
        requires { ¬ HasRow self.old code }
        ensures { OnOk result (self.new ≡ self.old ++ (code, name.now) ∷ []) }
    {
        self.names.insert(code, Name::of(alloc, name)?)?;
        Ok(())
    }
}
