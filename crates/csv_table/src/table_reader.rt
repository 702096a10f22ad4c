//! A table as it is read, row by row.

ghost use Rattle.std.specs.Prelude.{◌≡◌, ◌∷◌, [], false, true, IfErr, IfNone, IfOk, IfSome, drop};
ghost use Rattle.csv_table.specs.FirstFault.{HasNoHeader};
ghost use Rattle.csv_table.specs.RowTable.{AreItems, HasReadOn, IsFaultIn, IsFaultOf, IsTable};
ghost use Rattle.csv_table.specs.Table.{rows_of};

use crate::{RowTable, Rows};
use std::alloc::{AllocError, Global};
use std::marker::Model;

/// A table that is read row by row. A row that is refused is left out, and reading can go on.
#[derive(Drop)]
pub struct TableReader<'a, T: RowTable> {
    rows: Rows<'a>,
    /// The number of the next row.
    number: u64,
    is_headed: bool,
    /// A row more than a table may have was found, and no more are read.
    has_stopped: bool,
    table: T,
}

impl<'a, T: RowTable> Model for TableReader<'a, T> {
    ghost use Rattle.std.specs.Prelude.{◌<◌, ◌+◌, ◌^◌, [], if◌then◌else◌, length};
    ghost use Rattle.csv_table.specs.RowTable.{Reading};

    ghost Value = { Reading T };

    ghost view = { λ r. record {
      row = r.rows.row;
      number = r.number;
      left = if r.has_stopped then [] else r.rows.left;
      is_headed = r.is_headed;
      table = r.table;
    } };

    ghost invariant = { λ r. r.number + length r.rows.left < 2 ^ 64 };
}

impl<'a, T: RowTable> TableReader<'a, T> {
    /// A reader of a text that stands below its first row, which has to be the header. What is read goes into this
    /// table.
    pub fn of(alloc: Global, text: &'a [u8], table: T) -> Result<TableReader<'a, T>, AllocError>
        ensures begun { IfOk result (λ reader.
            (reader.table ≡ table) × (reader.number ≡ 1) × (reader.left ≡ drop 1 (rows_of text.now))) }
        ensures headed { IfOk result (λ reader.
            reader.is_headed ≡ true → rows_of text.now ≡ (T.rules (T.known table)).header ∷ reader.left) }
        ensures headless { IfOk result (λ reader.
            reader.is_headed ≡ false → HasNoHeader (T.rules (T.known table)).header (rows_of text.now)) }
    {
        let mut rows = Rows::of(alloc, text);
        let is_headed = rows.next()? && table.is_header(&rows);
        Ok(TableReader {
            rows,
            number: 1,
            is_headed,
            has_stopped: false,
            table,
        })
    }

    /// Whether the first row is the header. Where it is not, the text has the fault `headless`.
    pub fn is_headed(&self) -> bool
        ensures { result ≡ self.now.is_headed }
    {
        self.is_headed
    }

    /// Reads on to the next row that is refused, and leaves it out. None: there is no such row, and all are read. Where
    /// there are more rows than a table may have, no more are read. Where memory is refused, the row that was being
    /// read may be lost, so the reader is to be given up.
    pub fn next_fault(&mut self, alloc: Global) -> Result<Option<T::Fault>, AllocError>
        ensures fault { IfOk result (λ found. IfSome found (λ fault.
            HasReadOn (T.rules (T.known self.old.table)) T.items self.old ((self.new.row, fault) ∷ []) self.new)) }
        ensures none { IfOk result (λ found. IfNone found
            (HasReadOn (T.rules (T.known self.old.table)) T.items self.old [] self.new × (self.new.left ≡ []))) }
        ensures kept { IfOk result (λ _. self.new.is_headed ≡ self.old.is_headed) }
        ensures known { IfOk result (λ _. T.known self.new.table ≡ T.known self.old.table) }
    {
        if self.has_stopped {
            return Ok(None);
        }
        while self.rows.next()? {
            if self.table.is_full() {
                self.has_stopped = true;
                return Ok(Some(self.table.too_many()));
            }
            let number = self.number;
            self.number += 1;
            if let Some(fault) = self.table.add_row(alloc, number, &self.rows)? {
                return Ok(Some(fault));
            }
        }
        Ok(None)
    }

    /// The fault of a text whose first row is not the header.
    pub fn headless(&self) -> T::Fault
        ensures { result ≡ (T.rules (T.known self.now.table)).headless }
    {
        self.table.headless()
    }

    /// The row that was read last: behind a fault, the one that is refused for it.
    pub fn row(&self) -> &Rows<'a>
        ensures { result.now.row ≡ self.now.row }
    {
        &self.rows
    }

    /// The table of the rows that were read.
    pub fn finish(self) -> T
        ensures { result ≡ self.entry.table }
    {
        self.table
    }

    /// The table of all rows to come, or what they are refused for. The first counts as 1.
    fn read_all(mut self, alloc: Global) -> Result<T, T::Fault>
        requires { (T.items self.table ≡ []) × (self.number ≡ 1) }
        ensures known { IfOk result (λ table. T.known table ≡ T.known self.entry.table) }
        ensures items { IfOk result (λ table.
            AreItems (T.rules (T.known self.entry.table)) self.entry.left (T.items table)) }
        ensures fault { IfErr result (IsFaultIn (T.rules (T.known self.entry.table)) self.entry.left) }
    {
        match self.next_fault(alloc) {
            Ok(Some(fault)) => Err(fault),
            Ok(None) => Ok(self.finish()),
            Err(_) => Err(T::memory()),
        }
    }
}

/// Reads a table whole: a header, and rows below it, which go into a table without rows.
pub fn read_table<T: RowTable>(alloc: Global, text: &[u8], table: T) -> Result<T, T::Fault>
    requires { T.items table ≡ [] }
    ensures table { IfOk result (λ read. IsTable (T.rules (T.known table)) (rows_of text.now) (T.items read)) }
    ensures known { IfOk result (λ read. T.known read ≡ T.known table) }
    ensures fault { IfErr result (IsFaultOf (T.rules (T.known table)) (rows_of text.now)) }
{
    let Ok(reader) = TableReader::of(alloc, text, table) else {
        return Err(T::memory());
    };
    if !reader.is_headed() {
        return Err(reader.headless());
    }
    reader.read_all(alloc)
}

/// Reads rows without a header, of which the first counts as 1, into a table without rows.
pub fn read_rows<T: RowTable>(alloc: Global, text: &[u8], table: T) -> Result<T, T::Fault>
    requires { T.items table ≡ [] }
    ensures items { IfOk result (λ read. AreItems (T.rules (T.known table)) (rows_of text.now) (T.items read)) }
    ensures known { IfOk result (λ read. T.known read ≡ T.known table) }
    ensures fault { IfErr result (IsFaultIn (T.rules (T.known table)) (rows_of text.now)) }
{
    let reader = TableReader {
        rows: Rows::of(alloc, text),
        number: 1,
        is_headed: false,
        has_stopped: false,
        table,
    };
    reader.read_all(alloc)
}
