//! What the links of several submitters come to, in words.

ghost use Rattle.std.specs.Prelude.{◌≡◌, ◌≤◌, ◌<◌, ◌++◌, [], ℕ, IfOk, OnOk, Option, Some, false, is_some, length, not};
ghost use Rattle.std.specs.Prelude.{string_bytes, true, zip};
ghost use Rattle.std.specs.Option.{option_map_or};
ghost use Rattle.linked_works.specs.Linked.{finds_among};
ghost use Rattle.linked_works.specs.declared.works_fault.WorksFault.{WorksFault};
ghost use Rattle.linked_works.specs.declared.works_fault.WorksFault.TheVariants.{Many};
ghost use Rattle.check_inputs.specs.Checked.{path_if_given};
ghost use Rattle.check_inputs.specs.SoFar.{PagesGoOn};
ghost use Rattle.check_inputs.specs.LinksSoFar.{ArePaired, LinksGoOn, finds_in_force};
ghost use Rattle.check_inputs.specs.SubmittedFound.{AreLinked};
ghost use Rattle.check_inputs.specs.SubmittedReport.{linked_facts, links_line, payees_remark, rows_remark};

use crate::File;
use crate::remarks::add_tally;
use crate::report::path_or_none;
use crate::submitted_files::Pages;
use crate::submitted_messages::add_links_message;
use crate::submitted_sources::Sources;
use crate::words::{add, add_fact, add_number, add_path, add_place};
use csv_table::FileFault;
use cwr_share::{InForce, Payees, Registry, unused_payees};
use linked_works::{Works, WorksFault};
use std::alloc::{AllocError, Global};
use submitted_inputs::SubmittedTables;

/// Adds what the links come to with all files, and what a run passes over in them, where nothing that they are made of
/// has a fault.
pub(crate) fn add_links_if_sound(
    alloc: Global,
    pages: &mut Pages,
    tables: &SubmittedTables<File>,
    sources: &Sources<'_>,
) -> Result<Option<Registry>, AllocError>
    requires { ArePaired sources.now }
    ensures { IfOk result (λ registry. (fault : Option WorksFault)
        × LinksGoOn sources.now (string_bytes tables.now.works.path) (path_if_given tables.now.payees)
        pages.old pages.new fault registry) }
{
    if !sources.are_sound() {
        return Ok(None);
    }
    let path = tables.works.path.as_str();
    let registry = add_links(alloc, pages, path, sources)?;
    let payees = path_or_none(&tables.payees);
    add_unused(
        &mut pages.remarks,
        payees,
        &sources.tables.payees,
        &registry,
    )?;
    let files = sources.files.in_force.as_slice();
    add_rows_remark(&mut pages.remarks, path, &sources.tables.works, files)?;
    pages
        .remarks
        .extend_from_slice(sources.files.unlinked.as_slice())?;
    Ok(registry)
}

/// Adds what the links come to with all files, or what they are refused for.
fn add_links(
    alloc: Global,
    pages: &mut Pages,
    path: &str,
    sources: &Sources<'_>,
) -> Result<Option<Registry>, AllocError>
    requires { ArePaired sources.now }
    ensures { IfOk result (λ registry. (fault : Option WorksFault)
        × AreLinked true sources.now.tables.payees
        (finds_in_force sources.now) sources.now.tables.works.links fault registry
        × PagesGoOn pages.old pages.new (not (is_some fault))
        (option_map_or (links_line path.now sources.now.tables.works.links) fault [])
        (option_map_or (linked_facts path.now) registry []) []) }
{
    let works = &sources.tables.works;
    let files = sources.files.in_force.as_slice();
    match works.registry(alloc, files, &sources.tables.payees) {
        Ok(registry) => {
            add_linked_facts(&mut pages.sheet.facts, path, &registry)?;
            Ok(Some(registry))
        }
        Err(WorksFault::Many(row)) => {
            add_refused(pages, path, works, WorksFault::Many(row))?;
            Ok(None)
        }
        Err(WorksFault::Accounts) => {
            add_refused(pages, path, works, WorksFault::Accounts)?;
            Ok(None)
        }
        Err(_) => Err(AllocError),
    }
}

/// Adds what links are refused for, with all files, and that the inputs are not sound.
fn add_refused(
    pages: &mut Pages,
    path: &str,
    works: &Works<'_>,
    fault: WorksFault,
) -> Result<(), AllocError>
    requires { (row : ℕ) → fault ≡ Many row → (0 < row) × (row ≤ length works.now.links) }
    ensures { OnOk result (PagesGoOn pages.old pages.new false (links_line path.now works.now.links fault) [] []) }
{
    pages.sheet.is_sound = false;
    add_links_fault(&mut pages.sheet.faults, path, works, fault)?;
    Ok(())
}

/// Adds what links are refused for.
fn add_links_fault(
    text: &mut Vec<u8>,
    path: &str,
    works: &Works<'_>,
    fault: WorksFault,
) -> Result<(), AllocError>
    requires { (row : ℕ) → fault ≡ Many row → (0 < row) × (row ≤ length works.now.links) }
    ensures { OnOk result (text.new.items ≡ text.old.items ++ links_line path.now works.now.links fault) }
{
    add_path(text, path)?;
    add_place(text, "row ", fault.place())?;
    add_links_message(text, works, fault)?;
    add(text, " (fault ")?;
    add_number(text, u64::from(fault.number()))?;
    add(text, ")\n")
}

/// Adds what the links come to.
fn add_linked_facts(text: &mut Vec<u8>, path: &str, registry: &Registry) -> Result<(), AllocError>
    ensures { OnOk result (text.new.items ≡ text.old.items ++ linked_facts path.now registry.now) }
{
    let works = registry.works() as u64;
    add_fact(text, path, "works with a registration in force", works)?;
    add_fact(text, path, "parties in force", registry.claimants() as u64)?;
    add_fact(
        text,
        path,
        "accounts, the residue's included",
        u64::from(registry.accounts()),
    )
}

/// Remarks on rows of payees whose party no registration that is linked has, where the links are not refused.
fn add_unused(
    text: &mut Vec<u8>,
    path: &str,
    rows: &Payees,
    registry: &Option<Registry>,
) -> Result<(), AllocError>
    ensures { OnOk result (text.new.items ≡ text.old.items
        ++ option_map_or (payees_remark path.now rows.now) registry.now []) }
{
    let Some(registry) = registry else {
        return Ok(());
    };
    let tally = unused_payees(rows, registry);
    add_tally(
        text,
        path,
        "rows whose party no registration that is linked has",
        "in row ",
        &tally,
    )?;
    Ok(())
}

/// Remarks on rows that link nothing.
fn add_rows_remark(
    text: &mut Vec<u8>,
    path: &str,
    works: &Works<'_>,
    files: &[InForce],
) -> Result<(), AllocError>
    requires { length files.now ≡ length works.now.names }
    ensures { OnOk result (text.new.items ≡ text.old.items
        ++ rows_remark path.now (finds_among (zip works.now.names files.now)) works.now.links) }
{
    let tally = works.not_in_force(files);
    add_tally(
        text,
        path,
        "rows whose registration is not in force",
        "in row ",
        &tally,
    )?;
    Ok(())
}
