//! The files of submitters, read one after another for the registrations of one work.

ghost use Rattle.std.specs.Prelude.{◌≡◌, ◌<◌, ◌⊎◌, All, IfErr, IfOk, None, OnOk, length, slice_set};
ghost use Rattle.cwr_share.specs.CwrFile.{AreSound};
ghost use Rattle.cwr_share.specs.Lines.{lines_of};
ghost use Rattle.explain_line.specs.LookedAt.{AreLookedAt, IsFoundIn, IsFoundWith};
ghost use Rattle.linked_works.specs.Rows.{IsKnownRow};
ghost use Rattle.submitted_inputs.specs.Files.{IsFaultOfFiles};
ghost use Rattle.submitted_inputs.specs.Submitted.{IsFaultOfRegistrations};
ghost use Rattle.submitted_inputs.specs.declared.fault.SubmittedFault.TheVariants.{Room};

use cwr_share::{FiledRegistration, InForce, Payees, Registry, filed_registration};
use linked_works::{Submitters, Works, WorksRow};
use std::alloc::{AllocError, Global};
use submitted_inputs::{SubmittedFault, SubmitterFiles, read_with_text};

/// What the rows of a work are explained by.
#[derive(Drop)]
pub(crate) struct Found {
    /// What parties claim of works, and who is paid it.
    pub(crate) registry: Registry,
    /// The share lines of each work, of all its registrations in force.
    pub(crate) linked: InForce,
    /// For each row of the work its registration in force, as it stands in its file.
    pub(crate) filed: Vec<Option<FiledRegistration>>,
}

/// What is found in the files of submitters for rows of the table of works.
pub(crate) fn found_in<F: SubmitterFiles>(
    alloc: Global,
    submitters: &Submitters,
    works: &Works<'_>,
    files: &F,
    payees: &Payees,
    rows: &[WorksRow<'_>],
) -> Result<Found, SubmittedFault>
    requires names { works.now.names ≡ submitters.now }
    requires known { All (IsKnownRow submitters.now) rows.now }
    ensures found { IfOk result (IsFoundIn submitters.now (F.holds files.now) payees.now works.now.links rows.now) }
    ensures fault { IfErr result (IsFaultOfRegistrations submitters.now (F.holds files.now) (F.refuses files.now)
        payees.now works.now.links) }
{
    let (read, filed) = read_in_turn(alloc, files, submitters.as_slice().len(), rows)?;
    let registry = works.registry(alloc, read.as_slice(), payees)?;
    let linked = works.link(alloc, read.as_slice())?;
    Ok(Found {
        registry,
        linked,
        filed,
    })
}

/// The registrations in force of all files, and those of rows as they stand in them. The text of each file is let go
/// before the next is read. The fault of the first that has one is the answer.
fn read_in_turn<F: SubmitterFiles>(
    alloc: Global,
    files: &F,
    count: usize,
    rows: &[WorksRow<'_>],
) -> Result<(Vec<InForce>, Vec<Option<FiledRegistration>>), SubmittedFault>
    ensures read { IfOk result (λ read. AreLookedAt (F.holds files.now) count rows.now read.0.items read.1.items) }
    ensures fault { IfErr result (λ fault. (fault ≡ Room)
        ⊎ IsFaultOfFiles (F.holds files.now) (F.refuses files.now) count fault) }
{
    let mut read = Vec::new(alloc);
    let mut filed = none_for(alloc, rows.len())?;
    for place in 0..count {
        let (text, in_force) = read_with_text(alloc, files, place)?;
        look_at(alloc, place, text.as_slice(), rows, &mut filed)?;
        if read.push(in_force).is_err() {
            return Err(SubmittedFault::Room);
        }
    }
    Ok((read, filed))
}

/// Room for the registrations of `count` rows.
fn none_for(alloc: Global, count: usize) -> Result<Vec<Option<FiledRegistration>>, AllocError>
    ensures { IfOk result (λ filed. length filed.items ≡ count) }
{
    let mut filed: Vec<Option<FiledRegistration>> = Vec::with_capacity(alloc, count)?;
    while filed.len() < count {
        filed.push(None)?;
    }
    Ok(filed)
}

/// Looks in the file of a place for the registrations of those rows that are of its submitter.
fn look_at(
    alloc: Global,
    place: usize,
    text: &[u8],
    rows: &[WorksRow<'_>],
    filed: &mut Vec<Option<FiledRegistration>>,
) -> Result<(), AllocError>
    requires sound { AreSound (lines_of text.now) }
    requires room { length filed.old.items ≡ length rows.now }
    ensures { OnOk result (IsFoundWith place (lines_of text.now) rows.now filed.old.items filed.new.items) }
{
    for at in 0..rows.len() {
        if rows[at].submitter == place {
            put_at(filed, at, filed_registration(alloc, text, rows[at].number)?);
        }
    }
    Ok(())
}

/// Puts what was found for the row at a place there.
fn put_at(
    filed: &mut Vec<Option<FiledRegistration>>,
    place: usize,
    found: Option<FiledRegistration>,
)
    requires { place < length filed.old.items }
    ensures { filed.new.items ≡ slice_set filed.old.items place found }
{
    filed[place] = found;
}
