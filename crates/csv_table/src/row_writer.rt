//! A CSV text in the making, row after row.
//!
//! It is the writer of the crate `csv` with its default settings, into memory. A long text can go on to
//! an output by the page, so that it is never in memory whole.

ghost use Rattle.std.specs.Io.KnownBytes.{Appends, Keeps, append_known};
ghost use Rattle.std.specs.Prelude.{◌≡◌, ◌≤◌, ◌<◌, ◌++◌, true, false, OnOk, OnErr, IfOk, length, map};
ghost use Rattle.csv_table.specs.Written.{empty_page, page_bytes, text_of_row};

use csv::{Writer, WriterBuilder};
use std::alloc::{AllocError, Global};
use std::io::{self, Write};
use std::marker::Model;
use std::mem;

/// How long a text becomes, in bytes, before it is worth a write.
const PAGE_BYTES: usize = 131_072;

/// Rows as text, so far. They may have any number of fields.
#[derive(Drop)]
pub struct RowWriter {
    alloc: Global,
    out: Writer<Vec<u8>>,
    has_failed: bool,
}

impl Model for RowWriter {
    ghost use Rattle.std.specs.Prelude.{◌≡◌, false};
    ghost use Rattle.csv_table.specs.Written.{IsBetweenRows, Page, page_of};

    ghost Value = { Page };

    ghost view = { λ b. page_of b.out b.has_failed };

    ghost invariant = { λ b. b.has_failed ≡ false → IsBetweenRows b.out };
}

impl RowWriter {
    /// No rows yet.
    pub fn new(alloc: Global) -> RowWriter
        ensures { result ≡ empty_page }
    {
        RowWriter::over(alloc, Vec::new(alloc))
    }

    /// No rows yet, with memory for so many pages of 131072 bytes. Where the text goes on by the page, and no
    /// rows longer than a page are added meanwhile, two are enough.
    pub fn with_room(alloc: Global, pages: u16) -> Result<RowWriter, AllocError>
        ensures { IfOk result (λ rows. rows ≡ empty_page) }
    {
        let memory = Vec::with_capacity(alloc, usize::from(pages) * PAGE_BYTES)?;
        Ok(RowWriter::over(alloc, memory))
    }

    /// No rows yet, to be written into this memory, whatever it holds.
    fn over(alloc: Global, mut memory: Vec<u8>) -> RowWriter
        ensures { result ≡ empty_page }
    {
        memory.clear();
        RowWriter {
            alloc,
            out: WriterBuilder::new().flexible(true).from_writer(memory),
            has_failed: false,
        }
    }

    /// Adds a row. Writing into memory fails only where memory does, and then for good.
    pub fn row(&mut self, fields: &[&[u8]]) -> Result<(), AllocError>
        ensures row { OnOk result (self.new.text ≡ self.old.text ++ text_of_row (map (λ field. field.now) fields.now)) }
        ensures sound { OnOk result ((self.old.has_failed ≡ false) × (self.new.has_failed ≡ false)) }
        ensures refused { OnErr result (self.new.has_failed ≡ true) }
    {
        if self.has_failed {
            return Err(AllocError);
        }
        let Ok(()) = self.out.write_fields(fields) else {
            self.has_failed = true;
            return Err(AllocError);
        };
        Ok(())
    }

    /// Writes the text of the rows to an output, and starts again in the same memory. After a write that
    /// was refused no more rows are taken.
    pub fn write_to<W: Write>(&mut self, to: &mut W) -> io::Result<()>
        ensures text { OnOk result (Appends (W.contents to.old) (W.contents to.new) self.old.text) }
        ensures sound { OnOk result (self.old.has_failed ≡ false) }
        ensures emptied { OnOk result (self.new ≡ empty_page) }
        ensures refused { OnErr result (self.new.has_failed ≡ true) }
    {
        let alloc = self.alloc;
        let mut refused = RowWriter::new(alloc);
        refused.has_failed = true;
        let text = mem::replace(self, refused).into_text()?;
        to.write_all(text.as_slice())?;
        *self = RowWriter::over(alloc, text);
        Ok(())
    }

    /// The same, but only where the text has come to a page: 131072 bytes of it have left the buffer of
    /// the writer of `csv`, which holds back 8192 at most.
    pub fn write_full_page_to<W: Write>(&mut self, to: &mut W) -> io::Result<()>
        ensures kept { OnOk result (Keeps (append_known (W.contents to.old) self.old.text) (append_known (W.contents to.new) self.new.text)) }
        ensures part { self.old.ready ≤ length self.old.text }
        ensures early { OnOk result (self.old.ready < page_bytes → (self.new ≡ self.old) × (to.new ≡ to.old)) }
        ensures passed { OnOk result (page_bytes ≤ self.old.ready → Appends (W.contents to.old) (W.contents to.new) self.old.text × (self.old.has_failed ≡ false) × (self.new ≡ empty_page)) }
        ensures refused { OnErr result (self.new.has_failed ≡ true) }
    {
        if self.out.get_ref().len() < PAGE_BYTES {
            return Ok(());
        }
        self.write_to(to)
    }

    /// The text of the rows. After a row that was refused there is none.
    pub fn into_text(self) -> Result<Vec<u8>, AllocError>
        ensures text { IfOk result (λ text. text.items ≡ self.text) }
        ensures sound { OnOk result (self.has_failed ≡ false) }
    {
        if self.has_failed {
            return Err(AllocError);
        }
        match self.out.into_inner() {
            Ok(text) => Ok(text),
            Err(_) => Err(AllocError),
        }
    }
}
