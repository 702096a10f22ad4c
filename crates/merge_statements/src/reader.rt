//! The lines of a statement text, one after another, through a small buffer.

ghost use Rattle.std.specs.Io.KnownBytes.{Consumes, IsAtEnd, Keeps};
ghost use Rattle.std.specs.List.{list_any};
ghost use Rattle.std.specs.Prelude.{◌≡◌, ◌≤◌, ◌<◌, ◌++◌, ◌∷◌, [], List, ℕ, IfErr, IfNone, IfOk, IfSome, OnErr, false};
ghost use Rattle.std.specs.Prelude.{length, true};
ghost use Rattle.csv_table.specs.Written.{text_of_row};
ghost use Rattle.merge_statements.specs.Buffered.{is_feed, waiting_of};
ghost use Rattle.merge_statements.specs.Fields.{fields_of};
ghost use Rattle.merge_statements.specs.Reading.{IsFaultOf};
ghost use Rattle.merge_statements.specs.declared.read_fault.ReadFault.TheVariants.{Unended};

use crate::buffer::Buffer;
use crate::read_fault::ReadFault;
use crate::row::{Row, RowRoom};
use std::alloc::{AllocError, Global};
use std::io::{self, ErrorKind, Read};
use std::marker::Model;

/// A text that is read line by line: the line at hand, and the bytes yet to come.
#[derive(Drop)]
pub struct RowReader<R: Read> {
    from: R,
    buffer: Buffer,
}

impl<R: Read> Model for RowReader<R> {
    ghost use Rattle.std.specs.Io.KnownBytes.{prepend_known};
    ghost use Rattle.merge_statements.specs.Buffered.{line_of, waiting_of};
    ghost use Rattle.merge_statements.specs.Reading.{Reading};

    ghost Value = { Reading };

    ghost view = { λ b. record {
      line = line_of b.buffer;
      left = prepend_known (waiting_of b.buffer)
          (R.remaining b.from);
    } };
}

impl<R: Read> RowReader<R> {
    /// What a reader gives, before the first line. 32,768 bytes are in memory at a time.
    pub fn new(alloc: Global, from: R) -> Result<RowReader<R>, AllocError>
    where
        R: Drop,
        ensures line { IfOk result (λ reader. reader.line ≡ []) }
        ensures left { IfOk result (λ reader. reader.left ≡ R.remaining from) }
    {
        let buffer = Buffer::new(alloc)?;
        Ok(RowReader { from, buffer })
    }

    /// The line at hand, without its line feed. Before the first line, at the end and after a
    /// fault there is none, and this is empty.
    pub fn line(&self) -> &[u8]
        ensures line { result.now ≡ self.now.line }
        ensures short { length result.now ≤ 32768 }
    {
        self.buffer.line()
    }

    /// The row that the line at hand holds, if it holds one.
    pub fn row<'a>(&'a self, room: &'a mut RowRoom) -> Option<Row<'a>>
        ensures row { IfSome result (λ row. text_of_row (fields_of row) ≡ self.now.line ++ 10 ∷ []) }
        ensures none { IfNone result ((fields : List (List ℕ)) → length fields ≡ 4
            → ¬ (text_of_row fields ≡ self.now.line ++ 10 ∷ [])) }
    {
        Row::of(self.line(), room)
    }

    /// Goes on to the next line, and answers whether there was one. A fault leaves the bytes yet
    /// to come as they were, so a read that was refused can be tried again.
    pub fn next(&mut self) -> Result<bool, ReadFault>
        ensures found { IfOk result (λ found. found ≡ true
            → Consumes self.old.left self.new.left (self.new.line ++ 10 ∷ [])) }
        ensures one { IfOk result (λ found. found ≡ true → list_any is_feed self.new.line ≡ false) }
        ensures short { IfOk result (λ found. found ≡ true → length self.new.line < 32768) }
        ensures end { IfOk result (λ found. found ≡ false → IsAtEnd self.old.left × IsAtEnd self.new.left) }
        ensures still { IfOk result (λ found. found ≡ false → Keeps self.old.left self.new.left) }
        ensures none { IfOk result (λ found. found ≡ false → self.new.line ≡ []) }
        ensures fault { IfErr result (IsFaultOf self.old.left) }
        ensures kept { OnErr result (Keeps self.old.left self.new.left × (self.new.line ≡ [])) }
    {
        self.buffer.drop_line();
        'reads: for _ in 0..u64::MAX {
            if self.buffer.take_line() {
                return Ok(true);
            }
            if !self.buffer.make_room() {
                return Err(ReadFault::TooLong);
            }
            match self.buffer.fill(&mut self.from) {
                Ok(true) => {}
                Ok(false) => return at_end(&self.buffer),
                Err(error) => return Err(ReadFault::Refused(error)),
            }
        }
        Err(ReadFault::Refused(io::Error::from(ErrorKind::TimedOut)))
    }
}

/// The answer once a reader has nothing more to give: the end, if nothing waits.
fn at_end(buffer: &Buffer) -> Result<bool, ReadFault>
    ensures end { IfOk result (λ found. (found ≡ false) × (waiting_of buffer.now ≡ [])) }
    ensures fault { IfErr result (λ fault. (fault ≡ Unended) × (0 < length (waiting_of buffer.now))) }
{
    if buffer.is_empty() {
        Ok(false)
    } else {
        Err(ReadFault::Unended)
    }
}
