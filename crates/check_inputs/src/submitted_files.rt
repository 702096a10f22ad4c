//! The CWR files of several submitters, read one after another.

ghost use Rattle.std.specs.Prelude.{◌≡◌, ◌&&◌, ◌⊎◌, ◌++◌, [], List, IfErr, IfOk, OnOk, count_by, flat_map, length, map};
ghost use Rattle.std.specs.Prelude.{string_bytes, true};
ghost use Rattle.cwr_share.specs.Lines.{lines_of};
ghost use Rattle.cwr_share.specs.Records.{opens_registration};
ghost use Rattle.submitted_inputs.specs.declared.fault.SubmittedFault.TheVariants.{Room, Unreadable};
ghost use Rattle.check_inputs.specs.Report.{if_none};
ghost use Rattle.check_inputs.specs.SoFar.{AreAllRead, IsOneRead, PagesGoOn};
ghost use Rattle.check_inputs.specs.SubmittedChecked.{IsFirstUnread};
ghost use Rattle.check_inputs.specs.SubmittedFound.{FileFound};
ghost use Rattle.check_inputs.specs.SubmittedReport.{file_facts, file_faults, file_numbers, file_remark};

use crate::form::add_form;
use crate::reading::read_in_force;
use crate::remarks::add_territories_remark;
use crate::report::{Sheet, add_remark_if_none};
use crate::unlinked::add_unlinked_remark;
use crate::words::add_fact;
use cwr_share::{InForce, count_registrations};
use linked_works::Works;
use std::alloc::{AllocError, Global};
use submitted_inputs::{SubmittedFault, SubmitterFiles};
use tis_tree::TisTable;

/// The report so far.
#[derive(Drop)]
pub(crate) struct Pages {
    /// The faults, and what is in the inputs that have none.
    pub(crate) sheet: Sheet,
    /// What a run passes over in them, and what it makes of the usage lines.
    pub(crate) remarks: Vec<u8>,
}

/// What the CWR files were read as.
#[derive(Drop)]
pub(crate) struct FilesRead {
    /// What is in force in each.
    pub(crate) in_force: Vec<InForce>,
    /// What is said of registrations in them that no row links; it is told where nothing that links are made of has a
    /// fault.
    pub(crate) unlinked: Vec<u8>,
    /// No file has a fault.
    pub(crate) are_sound: bool,
}

impl FilesRead {
    /// None so far.
    fn none(alloc: Global) -> FilesRead
        ensures { (result.in_force.items ≡ []) × (result.unlinked.items ≡ []) × (result.are_sound ≡ true) }
    {
        FilesRead {
            in_force: Vec::new(alloc),
            unlinked: Vec::new(alloc),
            are_sound: true,
        }
    }
}

/// Reads the CWR files with these paths, one after another, and adds what is said of each. The text of each is let go
/// before the next is read. `tis_faults` is how many faults the table of territories has.
pub(crate) fn read_files<F: SubmitterFiles>(
    alloc: Global,
    pages: &mut Pages,
    works: &Works<'_>,
    paths: &[String],
    files: &F,
    territories: &TisTable,
    tis_faults: u64,
) -> Result<FilesRead, SubmittedFault>
    requires { length paths.now ≡ length works.now.names }
    ensures read { IfOk result (λ read. (found : List FileFound)
        × AreAllRead (F.holds files.now) (map string_bytes paths.now) works.now found read
        × PagesGoOn pages.old pages.new read.are_sound (flat_map file_faults found) (flat_map file_facts found)
        (flat_map (file_remark tis_faults territories.now) found)) }
    ensures fault { IfErr result (λ fault. (fault ≡ Room)
        ⊎ IsFirstUnread (F.holds files.now) (F.refuses files.now) (length paths.now) fault) }
{
    let mut read = FilesRead::none(alloc);
    for place in 0..paths.len() {
        let bytes = bytes_at(alloc, files, place)?;
        let path = paths[place].as_str();
        let bytes = bytes.as_slice();
        let (in_force, is_sound) = read_one(alloc, pages, path, bytes, territories, tis_faults)?;
        add_unlinked_remark(alloc, &mut read.unlinked, works, place, path, bytes)?;
        if read.in_force.push(in_force).is_err() {
            return Err(SubmittedFault::Room);
        }
        read.are_sound = both(read.are_sound, is_sound);
    }
    Ok(read)
}

/// The bytes of the file at a place.
fn bytes_at<F: SubmitterFiles>(
    alloc: Global,
    files: &F,
    place: usize,
) -> Result<Vec<u8>, SubmittedFault>
    ensures held { IfOk result (λ bytes. F.holds files.now place bytes.items) }
    ensures fault { IfErr result (λ fault. (fault ≡ Room) ⊎ ((fault ≡ Unreadable place) × F.refuses files.now place)) }
{
    match files.read(alloc, place)? {
        Some(bytes) => Ok(bytes),
        None => Err(SubmittedFault::Unreadable(place)),
    }
}

/// Reads a CWR file, and adds what is said of it. Answers what is in force, and whether it has no fault.
fn read_one(
    alloc: Global,
    pages: &mut Pages,
    path: &str,
    bytes: &[u8],
    territories: &TisTable,
    tis_faults: u64,
) -> Result<(InForce, bool), AllocError>
    ensures { IfOk result (λ read. (file : FileFound) × IsOneRead path.now bytes.now file read.0 read.1
        × PagesGoOn pages.old pages.new read.1 (file_faults file) (file_facts file)
        (file_remark tis_faults territories.now file)) }
{
    let (told, in_force) = read_in_force(alloc, path, bytes)?;
    pages.sheet.add_faults(&told)?;
    add_file_facts(
        &mut pages.sheet.facts,
        path,
        bytes,
        told.count,
        in_force.len() as u64,
    )?;
    add_form(alloc, &mut pages.sheet.facts, path, bytes)?;
    add_territories_remark(
        &mut pages.remarks,
        path,
        bytes,
        told.count,
        tis_faults,
        territories,
    )?;
    Ok((in_force, told.count == 0))
}

/// Adds what is in a CWR file with so many registrations in force, where it has no fault.
fn add_file_facts(
    text: &mut Vec<u8>,
    path: &str,
    bytes: &[u8],
    faults: u64,
    in_force: u64,
) -> Result<(), AllocError>
    ensures { OnOk result (text.new.items ≡ text.old.items
        ++ if_none faults (file_numbers path.now (count_by opens_registration (lines_of bytes.now)) in_force)) }
{
    if faults > 0 {
        return Ok(());
    }
    add_file_numbers(text, path, count_registrations(bytes), in_force)?;
    Ok(())
}

/// Adds how many registrations of a file are in force, and how many were replaced.
fn add_file_numbers(
    text: &mut Vec<u8>,
    path: &str,
    registrations: u64,
    in_force: u64,
) -> Result<(), AllocError>
    ensures { OnOk result (text.new.items ≡ text.old.items ++ file_numbers path.now registrations in_force) }
{
    add_fact(text, path, "registrations in force", in_force)?;
    add_fact(
        text,
        path,
        "registrations replaced by later ones",
        registrations.saturating_sub(in_force),
    )?;
    add_remark_if_none(text, registrations, path, "no line is an NWR or REV")?;
    Ok(())
}

/// Whether both hold.
fn both(one: bool, other: bool) -> bool
    ensures { result ≡ (one && other) }
{
    one && other
}
