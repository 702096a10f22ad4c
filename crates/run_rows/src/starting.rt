//! Tables of works and of payees to begin with.

use crate::files::bytes_in;
use anyhow::Result;
use row_tables::text_of;
use starting_tables::{add_parties, add_works, parties_header, works_header};
use std::alloc::Global;
use std::rt::Files;

/// The table of works of a submitter's file.
pub fn works<R: Files + AllocGlobal>(
    rt: &R,
    alloc: Global,
    file: &str,
    submitter: &str,
) -> Result<String> {
    let file = bytes_in(rt, alloc, file)?;
    let mut table = Vec::from_slice(alloc, works_header())?;
    add_works(alloc, submitter.as_bytes(), file.as_slice(), &mut table)?;
    Ok(String::from_str(alloc, text_of(table.as_slice()))?)
}

/// The table of payees of a submitter's file.
pub fn parties<R: Files + AllocGlobal>(
    rt: &R,
    alloc: Global,
    file: &str,
    submitter: &str,
) -> Result<String> {
    let file = bytes_in(rt, alloc, file)?;
    let mut table = Vec::from_slice(alloc, parties_header())?;
    add_parties(alloc, submitter.as_bytes(), file.as_slice(), &mut table)?;
    Ok(String::from_str(alloc, text_of(table.as_slice()))?)
}
