//! The names of files.

ghost use Rattle.std.specs.Prelude.{◌≡◌, ◌≤◌, ◌<◌, ◌^◌, IfOk};
ghost use Rattle.distribution_documents.specs.Names.{in_folder, width_for};
ghost use Rattle.page_text.specs.FileNames.{file_name};

use page_text::add_file_name;
use std::alloc::{AllocError, Global};

/// How many digits the numbers of so many accounts are written with.
pub(crate) fn width_of(accounts: u16) -> u32
    ensures is { result ≡ width_for accounts }
    ensures some { 0 < result }
    ensures few { result ≤ 19 }
    ensures enough { accounts ≤ 10 ^ result }
{
    if accounts <= 10_000 { 4 } else { 5 }
}

/// The name of an account's files, without their endings.
pub(crate) fn name_of(
    alloc: Global,
    width: u32,
    account: u16,
    party: &[u8],
) -> Result<Vec<u8>, AllocError>
    requires width { (0 < width) × (width ≤ 19) }
    requires number { account < 10 ^ width }
    ensures { IfOk result (λ name. name.items ≡ file_name width account party.now) }
{
    let mut name = Vec::new(alloc);
    add_file_name(alloc, &mut name, width, u64::from(account), party)?;
    Ok(name)
}

/// The path of a file of a payee, below the folder of the distribution.
pub(crate) fn path_of(alloc: Global, name: &[u8], ending: &[u8]) -> Result<Vec<u8>, AllocError>
    ensures { IfOk result (λ path. path.items ≡ in_folder name.now ending.now) }
{
    let mut path = Vec::from_slice(alloc, b"payees/")?;
    path.extend_from_slice(name)?;
    path.extend_from_slice(ending)?;
    Ok(path)
}
