//! What a table that is read row by row has to be.

ghost use Rattle.std.specs.Prelude.{◌≡◌, ◌≤◌, ◌<◌, ◌↔◌, ◌++◌, ◌∷◌, [], ℕ, List, Option};
ghost use Rattle.std.specs.Prelude.{IfNone, IfOk, IfSome, IsTrue, length};
ghost use Rattle.csv_table.specs.RowTable.{TableRules};

use crate::Rows;
use std::alloc::{AllocError, Global};

/// Why a file is refused.
pub trait FileFault {
    // its number
    ghost number_in: { Self → ℕ };
    // the number of its row or line
    ghost place_in: { Self → Option ℕ };

    /// The fault's number, in the order of its kind's faults, from 1.
    fn number(&self) -> u8
        ensures { result ≡ number_in self.now };

    /// The number of the row or line at fault, for a fault of one row or line.
    fn place(&self) -> Option<u64>
        ensures { result ≡ place_in self.now };
}

/// A table that is made of the rows of a text, one after another.
pub trait RowTable: Drop {
    /// Why a text is no such table.
    type Fault: Drop;

    // what a row is
    ghost Item: { Type 0 };
    // what is known before the first row and stays the same: which names a row may have, say
    ghost Known: { Type 0 };

    ghost known: { Self → Known };
    // what the table asks of its rows, by that
    ghost rules: { Known → TableRules Item Self.Fault };
    // the items of the rows so far
    ghost items: { Self → List Item };

    /// Whether the row at hand is the header.
    fn is_header(&self, rows: &Rows<'_>) -> bool
        ensures { IsTrue result ↔ (rows.now.row ≡ (rules (known self.now)).header) };

    /// The fault of a text whose first row is not the header.
    fn headless(&self) -> Self::Fault
        ensures { result ≡ (rules (known self.now)).headless };

    /// The fault of a text that has more rows than a table may have.
    fn too_many(&self) -> Self::Fault
        ensures { result ≡ (rules (known self.now)).too_many };

    /// Lack of memory, as a fault.
    fn memory() -> Self::Fault
        ensures { (it : Known) → result ≡ (rules it).memory };

    /// Whether there are as many rows as a table may have.
    fn is_full(&self) -> bool
        ensures { IsTrue result ↔ ((rules (known self.now)).most ≤ length (items self.now)) };

    /// Adds the row at hand, which has this number, or answers what it is refused for.
    fn add_row(
        &mut self,
        alloc: Global,
        number: u64,
        rows: &Rows<'_>,
    ) -> Result<Option<Self::Fault>, AllocError>
        requires { length (items self.old) < (rules (known self.old)).most }
        ensures known { known self.new ≡ known self.old }
        ensures row { IfOk result (λ found. IfNone found
            ((rules (known self.old)).IsRow (items self.old) rows.now.row)) }
        ensures added { IfOk result (λ found. IfNone found
            (items self.new ≡ items self.old ++ (rules (known self.old)).item_of rows.now.row ∷ [])) }
        ensures fault { IfOk result (λ found. IfSome found
            ((rules (known self.old)).Refuses (items self.old) number rows.now.row)) }
        ensures same { IfOk result (λ found. IfSome found (λ _. items self.new ≡ items self.old)) };
}
