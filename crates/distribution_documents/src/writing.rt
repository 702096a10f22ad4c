//! How all documents are written.

ghost use Rattle.std.specs.Prelude.{◌≡◌, ◌<◌, ◌∷◌, ◌++◌, [], List, Some};
ghost use Rattle.std.specs.Prelude.{Ok, All, IfOk, OnOk, codes, flat_map, length, map};
ghost use Rattle.distribution_documents.specs.Documents.{AreDocuments, File};
ghost use Rattle.distribution_documents.specs.Ready.{AreReady, documents_of};
ghost use Rattle.distribution_documents.specs.Runs.{payees_in, run_shown, statements_of};
ghost use Rattle.distribution_documents.specs.Slots.{AreAllWritten, AreFirstPages, AreSlots};
ghost use Rattle.distribution_documents.specs.Slots.{AreThree, IsSlotOf, files_in};
ghost use Rattle.distribution_documents.specs.Written.{AreWritten};
ghost use Rattle.page_parts.specs.Facts.{distribution_shown};
ghost use Rattle.payee_book.specs.Waves.{AreReadyTwice};

use crate::documents::{DocumentFault, Documents};
use crate::folder::Folder;
use crate::overview::{overview_page, payees_of};
use crate::payee_files::{PayeeFiles, put_whole, write_payee};
use crate::residue::{as_residue, held_by_reason};
use payee_book::Sheets;
use residue_documents::page_of;
use std::alloc::{AllocError, Global};
use std::io::{self, ErrorKind};
use std::thread;
use std::thread::Threads;

/// Writes all documents of a distribution: the overview, the page of the residue, the statements for programs, and
/// the statement and the sheet of each payee that has portions, by up to `threads` threads. A thread that the system
/// refuses costs time alone.
pub fn write_documents<R: Threads + Sync, F: Folder + Sync>(
    rt: &R,
    alloc: Global,
    folder: &F,
    documents: &Documents<'_>,
    threads: usize,
) -> Result<Vec<F::Stored>, DocumentFault>
    requires { AreReady documents.now }
    ensures { IfOk result (λ written. (files : List File)
        × AreDocuments (distribution_shown documents.now.distribution) (run_shown documents.now) files
        × AreWritten F.has written.items files) }
{
    let payees = payees_of(alloc, documents)?;
    let mut written = write_first(rt, alloc, folder, documents, payees.as_slice())?;
    let files = write_payees(
        rt,
        alloc,
        folder,
        documents,
        payees.as_slice(),
        threads.max(1),
    )?;
    add_all(&mut written, files)?;
    Ok(written)
}

/// Adds the files of payees to others.
fn add_all<S: Drop>(written: &mut Vec<S>, payees: Vec<PayeeFiles<S>>) -> Result<(), AllocError>
    ensures { OnOk result (written.new.items ≡ written.old.items ++ flat_map files_in payees.items) }
{
    for files in payees {
        let PayeeFiles { page, sheet } = files;
        written.push(page)?;
        written.push(sheet)?;
    }
    Ok(())
}

/// Writes the overview, the page of the residue, and the statements for programs.
fn write_first<R: Threads + Sync, F: Folder>(
    rt: &R,
    alloc: Global,
    folder: &F,
    documents: &Documents<'_>,
    payees: &[u16],
) -> Result<Vec<F::Stored>, DocumentFault>
    requires ready { AreReady documents.now }
    requires payees { payees.now ≡ payees_in (run_shown documents.now) }
    requires known { All (λ account. account < length documents.now.divided.now.book) payees.now }
    ensures { IfOk result (λ written. AreThree F.has (distribution_shown documents.now.distribution)
        (run_shown documents.now) written.items) }
{
    let pages = first_pages(alloc, documents, payees)?;
    let overview = put_whole(alloc, folder, b"index.html", pages.overview.as_slice())?;
    let residue = put_whole(alloc, folder, b"residue.html", pages.residue.as_slice())?;
    let statements = write_statements(rt, alloc, folder, documents)?;
    Ok(three(alloc, overview, residue, statements)?)
}

/// Three files in a list.
fn three<S: Drop>(alloc: Global, first: S, second: S, third: S) -> Result<Vec<S>, AllocError>
    ensures { IfOk result (λ all. all.items ≡ first ∷ second ∷ third ∷ []) }
{
    let mut all = Vec::with_capacity(alloc, 3)?;
    all.push(first)?;
    all.push(second)?;
    all.push(third)?;
    Ok(all)
}

/// The pages that are no payee's.
#[derive(Drop)]
struct FirstPages {
    overview: Vec<u8>,
    residue: Vec<u8>,
}

/// Makes them.
fn first_pages(
    alloc: Global,
    documents: &Documents<'_>,
    payees: &[u16],
) -> Result<FirstPages, AllocError>
    requires ready { AreReady documents.now }
    requires payees { payees.now ≡ payees_in (run_shown documents.now) }
    requires known { All (λ account. account < length documents.now.divided.now.book) payees.now }
    ensures { IfOk result (λ pages. AreFirstPages (distribution_shown documents.now.distribution)
        (run_shown documents.now)
        pages.overview.items pages.residue.items) }
{
    let held = held_by_reason(alloc, documents)?;
    let residue = as_residue(&held);
    let overview = overview_page(alloc, documents, payees, &residue)?;
    let residue = page_of(
        alloc,
        &documents.distribution,
        documents.territories,
        &residue,
    )?;
    Ok(FirstPages { overview, residue })
}

/// Writes the statements for programs.
fn write_statements<R: Threads + Sync, F: Folder>(
    rt: &R,
    alloc: Global,
    folder: &F,
    documents: &Documents<'_>,
) -> Result<F::Stored, DocumentFault>
    requires { AreReady documents.now }
    ensures { IfOk result (λ file. F.has file (codes "statements.csv") (statements_of (run_shown documents.now))) }
{
    let sheets = Sheets::blank(alloc, 1)?;
    match print_statements(rt, alloc, sheets, folder, documents) {
        Ok(file) => Ok(file),
        Err(error) if error.kind() == ErrorKind::OutOfMemory => Err(DocumentFault::Room),
        Err(_) => Err(DocumentFault::Refused),
    }
}

/// Prints the statements to a file of the folder.
fn print_statements<R: Threads + Sync, F: Folder>(
    rt: &R,
    alloc: Global,
    sheets: Sheets,
    folder: &F,
    documents: &Documents<'_>,
) -> io::Result<F::Stored>
    requires ready { AreReady documents.now }
    requires sheets { AreReadyTwice sheets }
    ensures { IfOk result (λ file. F.has file (codes "statements.csv") (statements_of (run_shown documents.now))) }
{
    let divided = documents.divided;
    let lines = &divided.tables.usage;
    let parties = divided.tables.registry.parties();
    let (mut draft, place) = folder.begin(alloc, b"statements.csv")?;
    divided.book.print(
        rt,
        sheets,
        lines,
        parties,
        divided.reasons.as_slice(),
        &mut draft,
    )?;
    folder.store(draft, place)
}

/// What became of the files of a payee. Nothing, before they are written.
type Slot<S> = Option<Result<PayeeFiles<S>, DocumentFault>>;

/// Writes the files of payees, by up to `threads` threads. The first that cannot be written is the answer.
fn write_payees<R: Threads + Sync, F: Folder + Sync>(
    rt: &R,
    alloc: Global,
    folder: &F,
    documents: &Documents<'_>,
    payees: &[u16],
    threads: usize,
) -> Result<Vec<PayeeFiles<F::Stored>>, DocumentFault>
    requires ready { AreReady documents.now }
    requires known { All (λ account. account < length documents.now.divided.now.book) payees.now }
    requires threads { 0 < threads }
    ensures { IfOk result (λ written. AreAllWritten F.has (distribution_shown documents.now.distribution)
        (run_shown documents.now)
        payees.now written.items) }
{
    let mut slots = none_yet::<F::Stored>(alloc, payees.len())?;
    write_each(
        rt,
        alloc,
        folder,
        documents,
        payees,
        slots.as_mut_slice(),
        threads,
    );
    in_order(alloc, slots)
}

/// Writes the files of each payee into its slot. Threads share the parts of the documents one by one.
fn write_each<R: Threads + Sync, F: Folder + Sync>(
    rt: &R,
    alloc: Global,
    folder: &F,
    documents: &Documents<'_>,
    payees: &[u16],
    slots: &mut [Slot<F::Stored>],
    threads: usize,
)
    requires ready { AreReady documents.now }
    requires known { All (λ account. account < length documents.now.divided.now.book) payees.now }
    requires each { length slots.old ≡ length payees.now }
    requires threads { 0 < threads }
    ensures { AreSlots F.has (distribution_shown documents.now.distribution)
        (run_shown documents.now) payees.now slots.new }
{
    let Documents {
        divided,
        titles,
        names,
        territories,
        distribution,
    } = *documents;
    thread::for_each_mut(
        rt,
        slots,
        threads,
        &|place: usize, slot: &mut Slot<F::Stored>|
            requires { (place < length payees.now)
                × AreReady (documents_of divided titles names territories distribution)
                × All (λ account. account < length divided.now.book) payees.now }
            ensures { IsSlotOf F.has (distribution_shown distribution.entry)
                (run_shown (documents_of divided.entry titles.entry names.entry territories.entry distribution.entry))
                payees.entry.now place slot.exit.now }
        {
            let documents = Documents {
                divided,
                titles,
                names,
                territories,
                distribution,
            };
            *slot = Some(write_payee(alloc, folder, &documents, payees[place]))
        },
    );
}

/// No files yet, for each of so many payees.
fn none_yet<S: Drop>(alloc: Global, count: usize) -> Result<Vec<Slot<S>>, AllocError>
    ensures { IfOk result (λ slots. length slots.items ≡ count) }
{
    let mut slots: Vec<Slot<S>> = Vec::with_capacity(alloc, count)?;
    while slots.len() < count {
        slots.push(None)?;
    }
    Ok(slots)
}

/// What became of payees, in order: their files, or the first fault.
fn in_order<S: Drop>(
    alloc: Global,
    slots: Vec<Slot<S>>,
) -> Result<Vec<PayeeFiles<S>>, DocumentFault>
    ensures { IfOk result (λ written. slots.items ≡ map (λ files. Some (Ok files)) written.items) }
{
    let mut written = Vec::new(alloc);
    for slot in slots {
        match slot {
            Some(Ok(files)) => {
                if written.push(files).is_err() {
                    return Err(DocumentFault::Room);
                }
            }
            Some(Err(fault)) => return Err(fault),
            None => return Err(DocumentFault::Room),
        }
    }
    Ok(written)
}
