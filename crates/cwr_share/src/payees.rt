//! The table of payees: who is paid what a party claims.

ghost use Rattle.std.specs.Prelude.{ℕ, List, ◌≡◌, ◌<◌, ◌↔◌, ◌∷◌, ◌++◌, [], OnOk, IsTrue, IfErr, IfNone, IfOk, IfSome, length, slice_index_or};
ghost use Rattle.csv_table.specs.Forms.{IsPrintable};
ghost use Rattle.csv_table.specs.Table.{rows_of};
ghost use Rattle.cwr_share.specs.Fields.{trimmed as trimmed_text};
ghost use Rattle.cwr_share.specs.PayeeTable.{IsFaultOf, IsTableOf};
ghost use Rattle.cwr_share.specs.Payees.{AreNames, HasRow, IsName, payee_of};
ghost use Rattle.cwr_share.specs.declared.payees.TheConstants.{MOST_NAME_BYTES};

use crate::PayeeFault;
use crate::name::{Name, Sought};
use crate::share_line::trimmed;
use csv_table::forms::is_printable;
use csv_table::{RowTable, Rows, read_table};
use indexmap::IndexMap;
use std::alloc::{AllocError, Global};
use std::marker::Model;

/// The most rows that a table of payees has below its header.
pub const MOST_PAYEES: usize = 65_536;

/// The most bytes of a party and of a payee in a table of payees.
pub const MOST_NAME_BYTES: usize = 64;

/// Who is paid what parties claim, by the rows of a table. A party without a row is its own payee.
#[derive(Drop)]
pub struct Payees {
    /// The payee of each party that has a row.
    rows: IndexMap<Name, Name>,
}

impl Model for Payees {
    ghost use Rattle.std.specs.Prelude.{ℕ, List};
    ghost use Rattle.cwr_share.specs.Payees.{AreNames};

    ghost Value = { List (List ℕ × List ℕ) };

    ghost view = { λ p. p.rows.entries };

    ghost invariant = { λ p. AreNames p.rows.entries };
}

impl RowTable for Payees {
    ghost use Rattle.std.specs.Prelude.{ℕ, List};
    ghost use Rattle.cwr_share.specs.PayeeTable.{payee_rules};

    type Fault = PayeeFault;

    ghost Item = { List ℕ × List ℕ };

    ghost Known = { Unit {0} };

    ghost known = { λ _. tt };

    ghost rules = { λ _. payee_rules };

    ghost items = { λ payees. payees };

    fn is_header(&self, rows: &Rows<'_>) -> bool {
        rows.is(&["party", "payee"])
    }

    fn headless(&self) -> PayeeFault {
        PayeeFault::Csv(0)
    }

    fn too_many(&self) -> PayeeFault {
        PayeeFault::Rows
    }

    fn memory() -> PayeeFault {
        PayeeFault::Memory
    }

    fn is_full(&self) -> bool {
        self.len() >= MOST_PAYEES
    }

    fn add_row(
        &mut self,
        alloc: Global,
        number: u64,
        rows: &Rows<'_>,
    ) -> Result<Option<PayeeFault>, AllocError> {
        if rows.len() != 2 {
            return Ok(Some(PayeeFault::Csv(number)));
        }
        let Some(party) = name(rows.field(0)) else {
            return Ok(Some(PayeeFault::Fields(number)));
        };
        let Some(payee) = name(rows.field(1)) else {
            return Ok(Some(PayeeFault::Fields(number)));
        };
        if self.has_row(party) {
            return Ok(Some(PayeeFault::Twice(number)));
        }
        self.add(alloc, party, payee)?;
        Ok(None)
    }
}

impl Payees {
    /// Reads a table of payees: CSV with the header `party,payee`. The spaces at the ends of a field
    /// do not count.
    pub fn read(alloc: Global, bytes: &[u8]) -> Result<Payees, PayeeFault>
        ensures payees { IfOk result (IsTableOf (rows_of bytes.now)) }
        ensures fault { IfErr result (IsFaultOf (rows_of bytes.now)) }
    {
        read_table(alloc, bytes, Payees::none(alloc))
    }

    /// A table with no rows: every party is its own payee.
    pub fn none(alloc: Global) -> Payees
        ensures { result ≡ [] }
    {
        Payees {
            rows: IndexMap::new(alloc),
        }
    }

    /// The payee of a party: that of its row, or else the party itself. It is not looked up again.
    pub fn payee_of<'a>(&'a self, party: &'a [u8]) -> &'a [u8]
        ensures payee { result.now ≡ payee_of self.now party.now }
        ensures named { 0 < length party.now → 0 < length result.now }
    {
        match self.rows.get(Sought(party)) {
            Some(payee) => payee.as_slice(),
            None => party,
        }
    }

    /// Whether a party has a row.
    pub fn has_row(&self, party: &[u8]) -> bool
        ensures { IsTrue result ↔ HasRow self.now party.now }
    {
        self.rows.contains_key(Sought(party))
    }

    /// Adds a row for a party that has none.
    pub fn add(&mut self, alloc: Global, party: &[u8], payee: &[u8]) -> Result<(), AllocError>
        requires party { 0 < length party.now }
        requires payee { IsName payee.now }
        requires new { ¬ HasRow self.old party.now }
        ensures { OnOk result (self.new ≡ self.old ++ (party.now, payee.now) ∷ []) }
    {
        let (party, payee) = (Name::of(alloc, party)?, Name::of(alloc, payee)?);
        self.rows.insert(party, payee)?;
        Ok(())
    }

    /// How many rows there are.
    pub fn len(&self) -> usize
        ensures rows { result ≡ length self.now }
        ensures names { AreNames self.now }
    {
        self.rows.len()
    }

    /// The party of the row at a place.
    pub(crate) fn party(&self, place: usize) -> &[u8]
        requires { place < length self.now }
        ensures { (d : List ℕ × List ℕ) → result.now ≡ (slice_index_or self.now place d).0 }
    {
        let Some((party, _)) = self.rows.get_index(place) else {
            unreachable!()
        };
        party.as_slice()
    }
}

/// The name that a field writes, where it is one.
fn name(field: &[u8]) -> Option<&[u8]>
    ensures some { IfSome result (λ name. IsPrintable MOST_NAME_BYTES (trimmed_text field.now) × (name.now ≡ trimmed_text field.now)) }
    ensures none { IfNone result (¬ IsPrintable MOST_NAME_BYTES (trimmed_text field.now)) }
{
    let text = trimmed(field);
    if is_printable(text, MOST_NAME_BYTES) {
        Some(text)
    } else {
        None
    }
}
