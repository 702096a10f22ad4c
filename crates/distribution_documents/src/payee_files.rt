//! The files of a payee: its statement, and the sheet of its portions.

ghost use Rattle.std.specs.Prelude.{◌≡◌, ◌<◌, ◌∷◌, [], List, IfOk, length};
ghost use Rattle.distribution_documents.specs.Documents.{ArePayeeFiles, File};
ghost use Rattle.distribution_documents.specs.Names.{in_folder};
ghost use Rattle.distribution_documents.specs.Payees.{AreTextsOf};
ghost use Rattle.distribution_documents.specs.Ready.{AreReady};
ghost use Rattle.distribution_documents.specs.Runs.{file_of, run_shown};
ghost use Rattle.distribution_documents.specs.Written.{AreWritten};
ghost use Rattle.page_parts.specs.Facts.{distribution_shown};

use crate::documents::{DocumentFault, Documents};
use crate::folder::{Folder, put};
use crate::names::{name_of, path_of, width_of};
use payee_documents::{Payee, page_of, sheet_of};
use payee_portions::list_of;
use std::alloc::{AllocError, Global};
use std::io::ErrorKind;

/// The files of a payee.
#[derive(Drop)]
pub(crate) struct PayeeFiles<S> {
    pub page: S,
    pub sheet: S,
}

/// What these files have in them.
#[derive(Drop)]
struct PayeeTexts {
    page: Vec<u8>,
    sheet: Vec<u8>,
}

/// Writes the files of a payee.
pub(crate) fn write_payee<F: Folder>(
    alloc: Global,
    folder: &F,
    documents: &Documents<'_>,
    account: u16,
) -> Result<PayeeFiles<F::Stored>, DocumentFault>
    requires ready { AreReady documents.now }
    requires account { account < length documents.now.divided.now.book }
    ensures { IfOk result (λ written. (files : List File)
        × ArePayeeFiles (distribution_shown documents.now.distribution) (run_shown documents.now) account files
        × AreWritten F.has (written.page ∷ written.sheet ∷ []) files) }
{
    let name = file_name(alloc, documents, account)?;
    let texts = texts_of(alloc, documents, account, name.as_slice())?;
    let page = put_file(
        alloc,
        folder,
        name.as_slice(),
        b".html",
        texts.page.as_slice(),
    )?;
    let sheet = put_file(
        alloc,
        folder,
        name.as_slice(),
        b".csv",
        texts.sheet.as_slice(),
    )?;
    Ok(PayeeFiles { page, sheet })
}

/// The name of an account's files, without their endings.
pub(crate) fn file_name(
    alloc: Global,
    documents: &Documents<'_>,
    account: u16,
) -> Result<Vec<u8>, AllocError>
    requires ready { AreReady documents.now }
    requires account { account < length documents.now.divided.now.book }
    ensures { IfOk result (λ name. name.items ≡ file_of (run_shown documents.now) account) }
{
    let divided = documents.divided;
    let width = width_of(divided.book.accounts());
    name_of(
        alloc,
        width,
        account,
        divided.tables.registry.party(account),
    )
}

/// What the files of a payee have in them.
fn texts_of(
    alloc: Global,
    documents: &Documents<'_>,
    account: u16,
    file: &[u8],
) -> Result<PayeeTexts, AllocError>
    requires ready { AreReady documents.now }
    requires account { account < length documents.now.divided.now.book }
    requires file { file.now ≡ file_of (run_shown documents.now) account }
    ensures { IfOk result (λ texts. AreTextsOf (distribution_shown documents.now.distribution)
        (run_shown documents.now) account
        texts.page.items texts.sheet.items) }
{
    let divided = documents.divided;
    let tables = &divided.tables;
    // an account has no more postings than there are lines
    let _lines = tables.usage.len();
    let list = list_of(
        alloc,
        &tables.territories,
        &tables.registry,
        &tables.usage,
        documents.titles,
        account,
        divided.book.lines(account),
    )?;
    let payee = Payee {
        account: tables.registry.party(account),
        name: documents.names[account as usize].as_slice(),
        file,
        portions: list.as_slice(),
    };
    let page = page_of(
        alloc,
        &documents.distribution,
        documents.territories,
        &payee,
    )?;
    let sheet = sheet_of(alloc, list.as_slice())?;
    Ok(PayeeTexts { page, sheet })
}

/// Writes a file of a payee.
fn put_file<F: Folder>(
    alloc: Global,
    folder: &F,
    name: &[u8],
    ending: &[u8],
    bytes: &[u8],
) -> Result<F::Stored, DocumentFault>
    ensures { IfOk result (λ file. F.has file (in_folder name.now ending.now) bytes.now) }
{
    let path = path_of(alloc, name, ending)?;
    put_whole(alloc, folder, path.as_slice(), bytes)
}

/// Writes a file, or says why not.
pub(crate) fn put_whole<F: Folder>(
    alloc: Global,
    folder: &F,
    path: &[u8],
    bytes: &[u8],
) -> Result<F::Stored, DocumentFault>
    ensures { IfOk result (λ file. F.has file path.now bytes.now) }
{
    match put(alloc, folder, path, bytes) {
        Ok(file) => Ok(file),
        Err(error) if error.kind() == ErrorKind::OutOfMemory => Err(DocumentFault::Room),
        Err(_) => Err(DocumentFault::Refused),
    }
}
