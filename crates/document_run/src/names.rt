//! The names of accounts in a run over the files of several submitters.

ghost use Rattle.std.specs.Prelude.{◌≡◌, ◌⊎◌, [], IfErr, IfOk, List, length, map};
ghost use Rattle.std.specs.Option.{option_map};
ghost use Rattle.document_run.specs.Names.{AreNamesOf, IsUnreadable, items_of, names_by_table};
ghost use Rattle.submitted_inputs.specs.declared.fault.SubmittedFault.TheVariants.{Room};

use document_names::{names_in_table, with_names_in_file};
use linked_works::Submitters;
use run_inputs::Input;
use std::alloc::{AllocError, Global};
use submitted_inputs::{SubmittedFault, SubmitterFiles};

/// The names of accounts by a table of payees, where there is one. An account without one has an empty one.
pub(crate) fn names_in_tables<I: Input>(
    alloc: Global,
    accounts: &[Vec<u8>],
    payees: &Option<I>,
) -> Result<Vec<Vec<u8>>, AllocError>
    ensures { IfOk result (λ names. items_of names ≡ names_by_table (option_map I.bytes payees.now)
        (map (λ account. account.items) accounts.now)) }
{
    match payees {
        Some(table) => names_in_table(alloc, accounts, table.bytes()),
        None => unnamed(alloc, accounts),
    }
}

/// An empty name for each account.
fn unnamed(alloc: Global, accounts: &[Vec<u8>]) -> Result<Vec<Vec<u8>>, AllocError>
    ensures { IfOk result (λ names. items_of names ≡ map (λ _. []) accounts.now) }
{
    let mut names = Vec::new(alloc);
    for _place in 0..accounts.len() {
        names.push(Vec::new(alloc))?;
    }
    Ok(names)
}

/// The names of accounts, where those without one have the name that the file of their submitter has for their party.
pub(crate) fn names_in_files<S: SubmitterFiles>(
    alloc: Global,
    accounts: &[Vec<u8>],
    submitters: &Submitters,
    files: &S,
    mut names: Vec<Vec<u8>>,
) -> Result<Vec<Vec<u8>>, SubmittedFault>
    requires { length names.items ≡ length accounts.now }
    ensures names { IfOk result (λ found. AreNamesOf submitters.now (S.holds files.now)
        (map (λ account. account.items) accounts.now) (items_of names) (items_of found)) }
    ensures fault { IfErr result (λ fault. (fault ≡ Room)
        ⊎ IsUnreadable (S.refuses files.now) (length submitters.now) fault) }
{
    let list = submitters.as_slice();
    for place in 0..list.len() {
        let Some(file) = files.read(alloc, place)? else {
            return Err(SubmittedFault::Unreadable(place));
        };
        names = with_names_in_file(
            alloc,
            accounts,
            list[place].as_slice(),
            file.as_slice(),
            names.as_slice(),
        )?;
    }
    Ok(names)
}
