//! The residue, by reason.

ghost use Rattle.std.specs.Prelude.{◌≡◌, IfOk};
ghost use Rattle.distribution_documents.specs.Held.{AreFewHeld, held_shown};
ghost use Rattle.distribution_documents.specs.Ready.{AreReady};
ghost use Rattle.distribution_documents.specs.Runs.{IsResidue, run_shown, statement_in};
ghost use Rattle.payee_portions.specs.Held.{held_of};
ghost use Rattle.payee_portions.specs.Portions.{AreListed};
ghost use Rattle.payee_portions.specs.Shown.{portions_shown};
ghost use Rattle.residue_documents.specs.Page.{AreFew, AreFewPortions, residue_shown};

use crate::documents::Documents;
use line_split::{RESIDUE, Reason};
use payee_portions::{Portion, RunLines, held_list};
use residue_documents::Residue;
use std::alloc::{AllocError, Global};

/// The portions of the residue, by reason.
#[derive(Drop)]
pub(crate) struct Held<'a> {
    work: Vec<Portion<'a>>,
    land: Vec<Portion<'a>>,
    over: Vec<Portion<'a>>,
    open: Vec<Portion<'a>>,
}

/// The portions of the residue of a run, by reason.
pub(crate) fn held_by_reason<'a>(
    alloc: Global,
    documents: &Documents<'a>,
) -> Result<Held<'a>, AllocError>
    requires { AreReady documents.now }
    ensures residue { IfOk result (λ held. IsResidue (run_shown documents.now) (held_shown held)) }
    ensures few { IfOk result AreFewHeld }
{
    let work = held_for(alloc, documents, Reason::Work)?;
    let land = held_for(alloc, documents, Reason::Land)?;
    let over = held_for(alloc, documents, Reason::Over)?;
    let open = held_for(alloc, documents, Reason::Open)?;
    Ok(Held {
        work,
        land,
        over,
        open,
    })
}

/// Those that have a reason.
fn held_for<'a>(
    alloc: Global,
    documents: &Documents<'a>,
    reason: Reason,
) -> Result<Vec<Portion<'a>>, AllocError>
    requires { AreReady documents.now }
    ensures listed { IfOk result (λ list. AreListed
        (held_of documents.now.divided.now.tables.territories documents.now.divided.now.tables.registry
        documents.now.divided.now.tables.usage (run_shown documents.now).title_of
        documents.now.divided.now.reasons.items reason (statement_in (run_shown documents.now) 0))
        (portions_shown list.items)) }
    ensures few { IfOk result (λ list. AreFewPortions list.items) }
{
    let divided = documents.divided;
    // there is an account of the residue, with no more postings than there are lines
    let _accounts = divided.book.accounts();
    let _lines = divided.tables.usage.len();
    let lines = RunLines {
        territories: &divided.tables.territories,
        registry: &divided.tables.registry,
        usage: &divided.tables.usage,
        titles: documents.titles,
    };
    held_list(
        alloc,
        lines,
        divided.reasons.as_slice(),
        reason,
        divided.book.lines(RESIDUE),
    )
}

/// They, as the documents of the residue take them.
pub(crate) fn as_residue<'b>(held: &'b Held<'_>) -> Residue<'b>
    requires { AreFewHeld held.now }
    ensures residue { residue_shown result ≡ held_shown held.entry.now }
    ensures few { AreFew result }
{
    Residue {
        work: held.work.as_slice(),
        land: held.land.as_slice(),
        over: held.over.as_slice(),
        open: held.open.as_slice(),
    }
}
