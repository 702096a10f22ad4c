//! Statements that are passed over, with their rows in memory.

ghost use Rattle.std.specs.Prelude.{◌≡◌, ◌⊎◌, IfErr, IfOk};
ghost use Rattle.merge_statements.specs.SoFar.{CanEnd, RefusesRest};
ghost use Rattle.merge_statements.specs.declared.refusal.Refusal.TheVariants as Refusal;
ghost use Rattle.adjust_statements.specs.SoFar.{TakesEnding, TakesText};

use merge_statements::{Page, Part, Refusal, end_text, pass_if_next};
use std::alloc::Global;
use std::io::Read;

/// The text of what was paid and that of what is right, each as far as it was read.
#[derive(Drop)]
pub(crate) struct Texts<R: Read> {
    pub(crate) paid: Part<R>,
    pub(crate) right: Part<R>,
}

/// Rows of both texts that are in memory.
#[derive(Drop)]
pub(crate) struct Rows {
    pub(crate) paid: Vec<u8>,
    pub(crate) right: Vec<u8>,
}

/// Passes over the statement of a payee in a text, if it comes next there, and puts the rows of its portions into
/// memory.
pub(crate) fn take_portions<R: Read + Drop>(
    alloc: Global,
    part: &mut Part<R>,
    payee: &[u8],
    rows: &mut Vec<u8>,
) -> Result<(), Refusal>
    ensures taken { IfOk result (λ _. TakesText payee.now part.old part.new rows.new.items) }
    ensures refused { IfErr result (RefusesRest part.old) }
{
    rows.clear();
    let mut page = Page::new(alloc);
    match pass_if_next(part, payee, &mut page, rows) {
        Ok(_) => {}
        Err(refusal) => return Err(of_memory(refusal)),
    }
    match page.pass_on(rows) {
        Ok(()) => Ok(()),
        Err(refusal) => Err(of_memory(refusal)),
    }
}

/// Passes over a text from behind its last payee to its end, and puts the rows of what nobody gets into memory. Answers
/// how many usage lines there were.
pub(crate) fn take_rests<R: Read + Drop>(
    alloc: Global,
    part: &mut Part<R>,
    rows: &mut Vec<u8>,
) -> Result<u64, Refusal>
    requires { CanEnd part.old }
    ensures taken { IfOk result (TakesEnding part.old part.new rows.new.items) }
    ensures refused { IfErr result (RefusesRest part.old) }
{
    rows.clear();
    let mut page = Page::new(alloc);
    let lines = match end_text(part, &mut page, rows) {
        Ok((_, lines)) => lines,
        Err(refusal) => return Err(of_memory(refusal)),
    };
    match page.pass_on(rows) {
        Ok(()) => Ok(lines),
        Err(refusal) => Err(of_memory(refusal)),
    }
}

/// A write into memory is refused where memory is.
fn of_memory(refusal: Refusal) -> Refusal
    ensures { (result ≡ refusal) ⊎ (result ≡ Refusal.Memory) }
{
    match refusal {
        Refusal::Write(_) => Refusal::Memory,
        other => other,
    }
}
