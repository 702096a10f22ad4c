//! The table of payees of several submitters: who is paid what a party of a submitter claims.

ghost use Rattle.std.specs.Prelude.{◌≡◌, [], IfErr, IfOk, length};
ghost use Rattle.csv_table.specs.Table.{rows_of};
ghost use Rattle.linked_works.specs.SubmitterPayees.{IsFaultOf, IsTableOf};

use crate::Submitters;
use crate::submitters::{place_of, qualified};
use csv_table::forms::is_printable;
use csv_table::{RowTable, Rows, read_table};
use cwr_share::{MOST_NAME_BYTES, PayeeFault, Payees, trimmed};
use std::alloc::{AllocError, Global};
use std::marker::Model;

/// The most rows that a table of several submitters' payees has below its header.
pub const MOST_SUBMITTER_PAYEES: usize = 1_048_576;

/// The payees of parties of several submitters, over the names of these.
#[derive(Drop)]
pub struct SubmitterPayees<'a> {
    names: &'a [Vec<u8>],
    payees: Payees,
}

impl<'a> Model for SubmitterPayees<'a> {
    ghost use Rattle.std.specs.Prelude.{All};
    ghost use Rattle.linked_works.specs.Rows.{PayeesBy, names_by};
    ghost use Rattle.linked_works.specs.Submitters.{IsSubmitter};

    ghost Value = { PayeesBy };

    ghost view = { λ p. record { names = names_by p.names.now; rows = p.payees } };

    ghost invariant = { λ p. All IsSubmitter (names_by p.names.now) };
}

impl<'a> RowTable for SubmitterPayees<'a> {
    ghost use Rattle.std.specs.Prelude.{◌≡◌, ℕ, List};
    ghost use Rattle.linked_works.specs.SubmitterPayees.{payee_rules};

    type Fault = PayeeFault;

    ghost Item = { List ℕ × List ℕ };

    ghost Known = { List (List ℕ) };

    ghost known = { λ payees. payees.names };

    ghost rules = { payee_rules };

    ghost items = { λ payees. payees.rows };

    fn is_header(&self, rows: &Rows<'_>) -> bool {
        rows.is(&["submitter", "party", "payee", "name"])
    }

    fn headless(&self) -> PayeeFault {
        PayeeFault::Csv(0)
    }

    fn too_many(&self) -> PayeeFault {
        PayeeFault::Rows
    }

    fn memory() -> PayeeFault
        ensures { (names : List (List ℕ)) → result ≡ (payee_rules names).memory }
    {
        PayeeFault::Memory
    }

    fn is_full(&self) -> bool {
        self.payees.len() >= MOST_SUBMITTER_PAYEES
    }

    fn add_row(
        &mut self,
        alloc: Global,
        number: u64,
        rows: &Rows<'_>,
    ) -> Result<Option<PayeeFault>, AllocError> {
        if rows.len() != 4 {
            return Ok(Some(PayeeFault::Csv(number)));
        }
        let party = trimmed(rows.field(1));
        let payee = trimmed(rows.field(2));
        if !is_printable(party, MOST_NAME_BYTES) || !is_printable(payee, MOST_NAME_BYTES) {
            return Ok(Some(PayeeFault::Fields(number)));
        }
        let Some(place) = place_of(self.names, rows.field(0)) else {
            return Ok(Some(PayeeFault::Submitter(number)));
        };
        let name = qualified(self.names[place].as_slice(), party);
        if self.payees.has_row(name.as_slice()) {
            return Ok(Some(PayeeFault::Twice(number)));
        }
        self.payees.add(alloc, name.as_slice(), payee)?;
        Ok(None)
    }
}

impl<'a> SubmitterPayees<'a> {
    /// A table without rows.
    pub fn none(alloc: Global, submitters: &'a Submitters) -> SubmitterPayees<'a>
        ensures names { result.names ≡ submitters.entry.now }
        ensures rows { result.rows ≡ [] }
    {
        SubmitterPayees {
            names: submitters.as_slice(),
            payees: Payees::none(alloc),
        }
    }

    /// How many rows there are.
    pub fn len(&self) -> usize
        ensures { result ≡ length self.now.rows }
    {
        self.payees.len()
    }

    /// The payees, each party behind its submitter's name and a colon.
    pub fn into_payees(self) -> Payees
        ensures { result ≡ self.entry.rows }
    {
        let SubmitterPayees { names: _, payees } = self;
        payees
    }
}

/// Reads a table of payees: CSV with the header `submitter,party,payee,name`. Each submitter is one of these, and a
/// party stands in it behind its submitter's name and a colon. The spaces at the ends of a party and of a payee do not
/// count.
pub fn read_payees(
    alloc: Global,
    submitters: &Submitters,
    bytes: &[u8],
) -> Result<Payees, PayeeFault>
    ensures payees { IfOk result (IsTableOf submitters.now (rows_of bytes.now)) }
    ensures fault { IfErr result (IsFaultOf submitters.now (rows_of bytes.now)) }
{
    let table = read_table(alloc, bytes, SubmitterPayees::none(alloc, submitters))?;
    Ok(table.into_payees())
}
