//! Inputs that were read, and their documents.

ghost use Rattle.std.specs.Prelude.{◌≡◌, IfOk, IfSome, List, length};
ghost use Rattle.cwr_share.specs.Registered.{IsRegistered};
ghost use Rattle.distribution_documents.specs.Documents.{File};
ghost use Rattle.distribution_documents.specs.Written.{AreWritten};
ghost use Rattle.document_run.specs.Documented.{AreDocumentsFor, AreReady};
ghost use Rattle.document_run.specs.Names.{items_of};
ghost use Rattle.document_run.specs.Wordings.{CanBeShown, wording_shown};

use crate::wording::Wording;
use distribution_documents::{DocumentFault, Documents, Folder, write_documents};
use document_names::FirstTexts;
use page_parts::Distribution;
use run_inputs::Tables;
use settle_run::divide;
use split_run::Plan;
use std::alloc::{AllocError, Global};
use std::sync::Wait;
use std::thread::Threads;

/// The inputs of a run as they were read, and what documents call its works and payees.
#[derive(Drop)]
pub(crate) struct NamedTables {
    pub tables: Tables,
    /// The titles of works, by what usage lines call them.
    pub titles: FirstTexts,
    /// The names of all accounts; an account without one has an empty one.
    pub names: Vec<Vec<u8>>,
}

/// Divides the usage lines that were read, and writes the documents. None: the folder refused a file.
pub(crate) fn document_tables<R: Threads + Wait + Sync, F: Folder + Sync>(
    rt: &R,
    alloc: Global,
    named: NamedTables,
    wording: &Wording<'_>,
    plan: Plan,
    folder: &F,
) -> Result<Option<Vec<F::Stored>>, AllocError>
    requires ready { AreReady named }
    requires wording { CanBeShown wording.now }
    ensures { IfOk result (λ written. IfSome written (λ written. (files : List File)
        × AreDocumentsFor (wording_shown wording.now) named.tables named.titles (items_of named.names) files
        × AreWritten F.has written.items files)) }
{
    let NamedTables {
        tables,
        titles,
        names,
    } = named;
    let divided = divide(rt, alloc, tables, plan)?;
    let documents = Documents {
        divided: &divided,
        titles: &titles,
        names: names.as_slice(),
        territories: wording.territories,
        distribution: Distribution {
            title: wording.title,
            currency: wording.currency,
            sources: b"",
            decimals: wording.decimals,
        },
    };
    match write_documents(rt, alloc, folder, &documents, plan.thread_count() as usize) {
        Ok(written) => Ok(Some(written)),
        Err(DocumentFault::Refused) => Ok(None),
        Err(DocumentFault::Room) => Err(AllocError),
    }
}
