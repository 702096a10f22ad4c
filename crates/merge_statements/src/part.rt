//! One of the texts that are merged, read statement by statement.

ghost use Rattle.std.specs.Io.KnownBytes.{Appends, Keeps};
ghost use Rattle.std.specs.Prelude.{◌≡◌, ◌<◌, ◌-◌, ◌++◌, ◌∷◌, [], List, ℕ, IfErr, IfOk, IfSome, OnOk, slice_index};
ghost use Rattle.std.specs.Prelude.{true, false};
ghost use Rattle.std.specs.Option.{option_map};
ghost use Rattle.merge_statements.specs.SoFar.{CanEnd, EndsText, HasNext, IsAmongRests, IsLooked, IsNext, IsOfKind};
ghost use Rattle.merge_statements.specs.SoFar.{IsRead, IsRestsSumAt, IsSumAt};
ghost use Rattle.merge_statements.specs.SoFar.{IsWithinOne, NeedsRow, PassesSum, ReadsOn, RefusesRest, Steps};
ghost use Rattle.merge_statements.specs.SoFar.{WritesRests, WritesStatement, output};
ghost use Rattle.merge_statements.specs.Places.{KindFits, at_first};
ghost use Rattle.merge_statements.specs.Statements.{IsCount};
ghost use Rattle.merge_statements.specs.Refused.{IsOfSystem, IsRefusedFor};
ghost use Rattle.merge_statements.specs.declared.walk.Place.TheVariants as Place;

use crate::checking::{advance, follow, row_of};
use crate::page::Page;
use crate::reader::RowReader;
use crate::refusal::{Refusal, StatementFault};
use crate::row::RowRoom;
use crate::walk::{Progress, replace};
use std::alloc::Global;
use std::io::{Read, Write};
use std::marker::Model;

/// A text of statements, how far it was read, and the row at hand.
#[derive(Drop)]
pub struct Part<R: Read> {
    rows: RowReader<R>,
    /// Memory for the fields of a row that stand between quotes.
    room: RowRoom,
    progress: Progress,
    /// The number of the row at hand, from 1.
    number: u64,
    /// Whether there is a row at hand, or the text has ended.
    has_row: bool,
    /// The payee that comes next, where one does.
    payee: Vec<u8>,
    has_payee: bool,
}

impl<R: Read> Model for Part<R> {
    ghost use Rattle.std.specs.Prelude.{◌≡◌, ◌<◌, ◌++◌, ◌∷◌, [], None, Some, false, length, true, if◌then◌else◌};
    ghost use Rattle.std.specs.Io.KnownBytes.{IsAtEnd, prepend_known};
    ghost use Rattle.std.specs.List.{list_any};
    ghost use Rattle.merge_statements.specs.Buffered.{is_feed};
    ghost use Rattle.merge_statements.specs.SoFar.{IsNext, Unread};

    ghost Value = { Unread };

    ghost view = { λ b. record {
      at = b.progress;
      line = if b.has_row then b.rows.line ++ 10 ∷ [] else [];
      number = b.number;
      left = prepend_known (if b.has_row then b.rows.line ++ 10 ∷ [] else []) b.rows.left;
      payee = if b.has_payee then Some b.payee.items else None;
    } };

    ghost invariant = { λ b. (b.has_payee ≡ true
        → IsNext b.progress (if b.has_row then b.rows.line ++ 10 ∷ [] else []) b.payee.items)
        × (b.has_row ≡ false → IsAtEnd b.rows.left)
        × (list_any is_feed b.rows.line ≡ false)
        × (length b.rows.line < 32768) };
}

impl<R: Read + Drop> Part<R> {
    /// A text before its first row, which is read.
    pub fn open(alloc: Global, from: R) -> Result<Part<R>, Refusal>
        ensures at { IfOk result (λ part. part.at ≡ at_first) }
        ensures left { IfOk result (λ part. Keeps (R.remaining from) part.left) }
        ensures read { IfOk result (IsRead (R.remaining from)) }
        ensures looked { IfOk result IsLooked }
        ensures refused { IfErr result (λ refusal. IfSome (R.remaining from) (λ text. IsRefusedFor text refusal)) }
    {
        let mut rows = RowReader::new(alloc, from)?;
        let room = RowRoom::new(alloc)?;
        let has_row = advance(&mut rows, 1)?;
        let mut part = Part {
            rows,
            room,
            progress: Progress::new(alloc),
            number: 1,
            has_row,
            payee: Vec::new(alloc),
            has_payee: false,
        };
        part.look()?;
        Ok(part)
    }

    /// How many portions were read, those that nobody gets among them.
    pub fn portions(&self) -> u64
        ensures same { result ≡ self.now.at.portions }
        ensures few { IsCount result }
    {
        self.progress.portions()
    }

    /// How many rows were read before the row at hand.
    pub fn rows_read(&self) -> u64
        ensures { result ≡ self.now.number - 1 }
    {
        self.number.saturating_sub(1)
    }

    /// The payee that comes next, where one does.
    pub fn payee(&self) -> Option<&[u8]>
        ensures same { option_map (λ payee. payee.now) result ≡ self.now.payee }
        ensures next { IfSome result (λ payee. IsNext self.now.at self.now.line payee.now) }
    {
        if self.has_payee {
            Some(self.payee.as_slice())
        } else {
            None
        }
    }

    /// Looks which payee comes next, behind a statement or before the first.
    fn look(&mut self) -> Result<(), Refusal>
        requires { self.old.at.place ≡ Place.Between }
        ensures same { OnOk result ((self.new.at ≡ self.old.at) × (self.new.line ≡ self.old.line)
            × (self.new.number ≡ self.old.number) × (self.new.left ≡ self.old.left)) }
        ensures looked { OnOk result (IsLooked self.new) }
        ensures refused { IfErr result (RefusesRest self.old) }
    {
        self.has_payee = false;
        if !self.has_row {
            return Ok(());
        }
        let row = row_of(&self.rows, &mut self.room, self.number)?;
        if row.kind != b"L".as_slice() {
            return Ok(());
        }
        if !self.progress.is_payee_here(row.payee_or_reason) {
            return Err(Refusal::Fault(StatementFault::PayeeOrReason(self.number)));
        }
        replace(&mut self.payee, row.payee_or_reason)?;
        self.has_payee = true;
        Ok(())
    }

    /// Passes over the row at hand, if it can stand there.
    fn step(&mut self) -> Result<(), Refusal>
        requires { NeedsRow self.old }
        ensures steps { OnOk result (Steps self.old self.new) }
        ensures reads { OnOk result (ReadsOn self.old self.new) }
        ensures refused { IfErr result (RefusesRest self.old) }
    {
        if !self.has_row {
            return Err(Refusal::Fault(StatementFault::End(self.number)));
        }
        // A text has at most 10 ^ 18 portions, and at most two rows for each and two more: so this never saturates.
        let number = self.number.saturating_add(1);
        self.has_payee = false;
        follow(&mut self.progress, &self.rows, &mut self.room, self.number)?;
        self.has_row = advance(&mut self.rows, number)?;
        self.number = number;
        Ok(())
    }

    /// The same, and adds it to the output as it stands.
    fn pass_row<W: Write>(&mut self, page: &mut Page, out: &mut W) -> Result<(), Refusal>
        requires { NeedsRow self.old }
        ensures steps { OnOk result (Steps self.old self.new) }
        ensures reads { OnOk result (ReadsOn self.old self.new) }
        ensures passed { OnOk result (Appends (output W.contents out.old page.old)
            (output W.contents out.new page.new) self.old.line) }
        ensures refused { IfErr result (RefusesRest self.old) }
    {
        if self.has_row {
            push_line(page, out, self.rows.line())?;
        }
        self.step()
    }

    /// Whether the row at hand begins with a letter.
    fn begins_with(&self, letter: u8) -> bool
        ensures is { result ≡ true → slice_index self.now.line 0 ≡ letter }
        ensures is_not { result ≡ false → 10 < letter → ¬ (slice_index self.now.line 0 ≡ letter) }
    {
        if !self.has_row {
            return false;
        }
        match self.rows.line() {
            [first, ..] => *first == letter,
            [] => false,
        }
    }

    /// Passes over the sum of a payee's portions, behind which the next payee comes. Answers how many portions there
    /// were and what they come to.
    fn end_statement(&mut self) -> Result<(u64, i128), Refusal>
        requires no_portion { ¬ (slice_index self.old.line 0 ≡ 76) }
        requires within { IsWithinOne self.old.at }
        ensures sum { IfOk result (λ sum. PassesSum IsSumAt self.old self.new sum.0 sum.1) }
        ensures reads { IfOk result (λ _. ReadsOn self.old self.new) }
        ensures looked { IfOk result (λ _. IsLooked self.new) }
        ensures refused { IfErr result (RefusesRest self.old) }
    {
        let sum = self.progress.so_far();
        self.step()?;
        self.look()?;
        Ok(sum)
    }

    /// Passes over the statement of the payee that comes next, and adds its portions to the output. Answers how many
    /// there are and what they come to.
    pub fn pass_statement<W: Write>(
        &mut self,
        page: &mut Page,
        out: &mut W,
    ) -> Result<(u64, i128), Refusal>
        requires { HasNext self.old }
        ensures written { IfOk result (λ sum. WritesStatement self.old self.new (output W.contents out.old page.old)
            (output W.contents out.new page.new) sum.0 sum.1) }
        ensures reads { IfOk result (λ _. ReadsOn self.old self.new) }
        ensures looked { IfOk result (λ _. IsLooked self.new) }
        ensures refused { IfErr result (RefusesRest self.old) }
    {
        self.pass_row(page, out)?;
        for _passed in 0..u64::MAX {
            if !self.begins_with(b'L') {
                let sum = self.end_statement()?;
                return Ok(sum);
            }
            self.pass_row(page, out)?;
        }
        unreachable!()
    }

    /// Passes over what nobody gets in all. Answers how many portions there were and what they come to.
    fn end_rests(&mut self) -> Result<(u64, i128), Refusal>
        requires among { IsAmongRests self.old }
        requires no_rest { ¬ (slice_index self.old.line 0 ≡ 77) }
        ensures sum { IfOk result (λ sum. PassesSum IsRestsSumAt self.old self.new sum.0 sum.1) }
        ensures reads { IfOk result (λ _. ReadsOn self.old self.new) }
        ensures refused { IfErr result (RefusesRest self.old) }
    {
        if !self.begins_with(b'T') {
            return Err(self.not_here());
        }
        let sum = self.progress.so_far();
        self.step()?;
        Ok(sum)
    }

    /// Why the row at hand cannot stand here: there is none, it is no row, or it is of another kind.
    fn not_here(&mut self) -> Refusal
        requires row { NeedsRow self.old }
        requires other { (kind : List ℕ) → KindFits self.old.at.place kind → ¬ IsOfKind self.old kind }
        ensures { RefusesRest self.old result }
    {
        if !self.has_row {
            return Refusal::Fault(StatementFault::End(self.number));
        }
        match row_of(&self.rows, &mut self.room, self.number) {
            Ok(_) => Refusal::Fault(StatementFault::Kind(self.number)),
            Err(refusal) => refusal,
        }
    }

    /// Passes over all that nobody gets, behind the last payee, and adds it to the output without its sum. Answers how
    /// many portions there are and what they come to.
    pub fn pass_rests<W: Write>(
        &mut self,
        page: &mut Page,
        out: &mut W,
    ) -> Result<(u64, i128), Refusal>
        requires { CanEnd self.old }
        ensures written { IfOk result (λ sum. WritesRests self.old self.new (output W.contents out.old page.old)
            (output W.contents out.new page.new) sum.0 sum.1) }
        ensures reads { IfOk result (λ _. ReadsOn self.old self.new) }
        ensures refused { IfErr result (RefusesRest self.old) }
    {
        for _passed in 0..u64::MAX {
            if !self.begins_with(b'M') {
                let sum = self.end_rests()?;
                return Ok(sum);
            }
            self.pass_row(page, out)?;
        }
        unreachable!()
    }

    /// Passes over the usage lines, behind which the text ends. Answers how many there were.
    pub fn finish(&mut self) -> Result<u64, Refusal>
        requires { self.old.at.place ≡ Place.Summed }
        ensures ended { IfOk result (λ lines. EndsText self.old self.new lines) }
        ensures reads { IfOk result (λ _. ReadsOn self.old self.new) }
        ensures refused { IfErr result (RefusesRest self.old) }
    {
        self.step()?;
        match self.progress.ended() {
            Some(lines) if !self.has_row => Ok(lines),
            _ => Err(self.not_here()),
        }
    }
}

/// Adds a line with its line feed.
fn push_line<W: Write>(page: &mut Page, out: &mut W, line: &[u8]) -> Result<(), Refusal>
    ensures passed { OnOk result (Appends (output W.contents out.old page.old) (output W.contents out.new page.new)
        (line.now ++ 10 ∷ [])) }
    ensures refused { IfErr result IsOfSystem }
{
    page.push(out, line)?;
    page.push(out, b"\n")
}
