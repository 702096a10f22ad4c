//! One text of statements, read through: whether it is one, and if not, what is wrong with it first.

ghost use Rattle.std.specs.Io.KnownBytes.{Consumes, IsAtEnd, Keeps, prepend_known};
ghost use Rattle.std.specs.Prelude.{◌≡◌, ◌<◌, ◌+◌, ◌++◌, ◌∷◌, [], List, ℕ, IfErr, IfOk, IfSome, OnOk, false, length, true};
ghost use Rattle.std.specs.List.{list_any};
ghost use Rattle.csv_table.specs.Written.{text_of_row};
ghost use Rattle.merge_statements.specs.Buffered.{is_feed};
ghost use Rattle.merge_statements.specs.Fields.{fields_of};
ghost use Rattle.merge_statements.specs.Places.{At};
ghost use Rattle.merge_statements.specs.Refused.{IsRefusedFor, IsRefusedFrom, IsTextOfRows};
ghost use Rattle.merge_statements.specs.SoFar.{FollowsAs};
ghost use Rattle.merge_statements.specs.declared.refusal.Refusal.TheVariants as Refusal;
ghost use Rattle.merge_statements.specs.declared.refusal.StatementFault.TheVariants as StatementFault;
ghost use Rattle.merge_statements.specs.declared.walk.Place.TheVariants as Place;

use crate::reader::RowReader;
use crate::refusal::{Refusal, StatementFault};
use crate::row::{Row, RowRoom};
use crate::walk::Progress;
use std::alloc::Global;
use std::io::Read;

/// How much a text of statements has.
#[derive(Clone, Copy, Debug)]
pub struct Counts {
    /// How many usage lines it is of.
    pub lines: u64,
    /// How many rows it has.
    pub rows: u64,
}

/// Reads a text of statements to its end, through a small buffer. Answers how many usage lines it is of and how many
/// rows it has, or what is wrong with it first, and in which row.
pub fn check<R: Read + Drop>(alloc: Global, from: R) -> Result<Counts, Refusal>
    ensures sound { IfOk result (λ counts. IfSome (R.remaining from) (λ text. IsTextOfRows text counts.lines counts.rows)) }
    ensures refused { IfErr result (λ refusal. IfSome (R.remaining from) (λ text. IsRefusedFor text refusal)) }
    ensures never_many { IfErr result (λ refusal. ¬ (refusal ≡ Refusal.Many)) }
{
    let Ok(mut rows) = RowReader::new(alloc, from) else {
        return Err(Refusal::Memory);
    };
    let Ok(mut room) = RowRoom::new(alloc) else {
        return Err(Refusal::Memory);
    };
    let mut progress = Progress::new(alloc);
    for number in 1..u64::MAX {
        match pass_next(&mut progress, &mut rows, &mut room, number) {
            Ok(true) => {}
            Ok(false) => return end(&progress, number),
            Err(refusal) => return Err(refusal),
        }
    }
    unreachable!()
}

/// What is answered where a text ends before the row of a number.
fn end(progress: &Progress, number: u64) -> Result<Counts, Refusal>
    requires { 0 < number }
    ensures lines { IfOk result (λ counts. progress.now.place ≡ Place.Ended counts.lines) }
    ensures rows { IfOk result (λ counts. number ≡ counts.rows + 1) }
    ensures refused { IfErr result (λ refusal. (refusal ≡ Refusal.Fault (StatementFault.End number)) × ((lines : ℕ)
        → ¬ (progress.now.place ≡ Place.Ended lines))) }
{
    match progress.ended() {
        Some(lines) => Ok(Counts {
            lines,
            rows: number - 1,
        }),
        None => Err(Refusal::Fault(StatementFault::End(number))),
    }
}

/// Passes over the row that comes next, if one does, and answers whether it does. It has to be one that can stand
/// there.
fn pass_next<R: Read>(
    progress: &mut Progress,
    rows: &mut RowReader<R>,
    room: &mut RowRoom,
    number: u64,
) -> Result<bool, Refusal>
    ensures row { IfOk result (λ found. found ≡ true → FollowsAs progress.old (rows.new.line ++ 10 ∷ []) progress.new) }
    ensures passed { IfOk result (λ found. found ≡ true
        → Consumes rows.old.left rows.new.left (rows.new.line ++ 10 ∷ [])) }
    ensures end { IfOk result (λ found. found ≡ false → IsAtEnd rows.old.left × (progress.new ≡ progress.old)) }
    ensures refused { IfErr result (IsRefusedFrom progress.old number rows.old.left) }
{
    match advance(rows, number) {
        Ok(true) => {}
        Ok(false) => return Ok(false),
        Err(refusal) => return Err(refusal),
    }
    match follow(progress, rows, room, number) {
        Ok(()) => Ok(true),
        Err(refusal) => Err(refusal),
    }
}

/// Goes on to the next line, which is that of the row of a number, and answers whether there is one.
pub(crate) fn advance<R: Read>(rows: &mut RowReader<R>, number: u64) -> Result<bool, Refusal>
    ensures found { IfOk result (λ found. found ≡ true
        → Consumes rows.old.left rows.new.left (rows.new.line ++ 10 ∷ [])) }
    ensures end { IfOk result (λ found. found ≡ false → IsAtEnd rows.old.left × IsAtEnd rows.new.left) }
    ensures still { IfOk result (λ found. found ≡ false → Keeps rows.old.left rows.new.left) }
    ensures one { list_any is_feed rows.new.line ≡ false }
    ensures short { length rows.new.line < 32768 }
    ensures refused { IfErr result (λ refusal. (at : At) → IsRefusedFrom at number rows.old.left refusal) }
{
    match rows.next() {
        Ok(found) => Ok(found),
        Err(fault) => Err(Refusal::of_line(fault, number)),
    }
}

/// Goes on behind the line at hand, if it is a row that can stand there.
pub(crate) fn follow<R: Read>(
    progress: &mut Progress,
    rows: &RowReader<R>,
    room: &mut RowRoom,
    number: u64,
) -> Result<(), Refusal>
    requires one { list_any is_feed rows.now.line ≡ false }
    requires short { length rows.now.line < 32768 }
    ensures follows { OnOk result (FollowsAs progress.old (rows.now.line ++ 10 ∷ []) progress.new) }
    ensures refused { IfErr result (IsRefusedFrom progress.old number (prepend_known
        (rows.now.line ++ 10 ∷ []) rows.now.left)) }
{
    let row = match row_of(rows, room, number) {
        Ok(row) => row,
        Err(refusal) => return Err(refusal),
    };
    match progress.follow(&row) {
        Ok(()) => Ok(()),
        Err(wrong) => Err(Refusal::of_field(wrong, number)),
    }
}

/// The row that the line at hand holds.
pub(crate) fn row_of<'a, R: Read>(
    rows: &'a RowReader<R>,
    room: &'a mut RowRoom,
    number: u64,
) -> Result<Row<'a>, Refusal>
    requires { list_any is_feed rows.now.line ≡ false }
    ensures row { IfOk result (λ row. text_of_row (fields_of row) ≡ rows.now.line ++ 10 ∷ []) }
    ensures refused { IfErr result (λ refusal. (at : At)
        → IsRefusedFrom at number (prepend_known (rows.now.line ++ 10 ∷ []) rows.now.left) refusal) }
    ensures none { IfErr result (λ _. (fields : List (List ℕ)) → length fields ≡ 4
        → ¬ (text_of_row fields ≡ rows.now.line ++ 10 ∷ [])) }
{
    match rows.row(room) {
        Some(row) => Ok(row),
        None => Err(Refusal::Fault(StatementFault::Row(number))),
    }
}
