//! The files that a heading names.

use anyhow::Result;
use row_tables::written_out;
use run_inputs::Inputs;
use std::alloc::Global;
use std::fs;
use std::rt::Files;

/// The inputs in files whose names are divided by blanks: territories, registrations, usage lines and, where there is
/// one, a table of payees.
pub fn inputs_in<R: Files + AllocGlobal>(
    rt: &R,
    alloc: Global,
    names: &str,
) -> Result<Inputs<Vec<u8>>> {
    let mut names = names.split(' ');
    let territories = bytes_in(rt, alloc, names.next().unwrap_or(""))?;
    let registrations = bytes_in(rt, alloc, names.next().unwrap_or(""))?;
    let usage = bytes_in(rt, alloc, names.next().unwrap_or(""))?;
    let payees = match names.next() {
        Some(name) => Some(bytes_in(rt, alloc, name)?),
        None => None,
    };
    Ok(Inputs {
        territories,
        payees,
        registrations,
        usage,
    })
}

/// The bytes of a file, written out where its name ends in `.spelt`.
pub fn bytes_in<R: Files + AllocGlobal>(rt: &R, alloc: Global, name: &str) -> Result<Vec<u8>> {
    if name.ends_with(".spelt") {
        let text = fs::read_to_string(rt, name)?;
        return Ok(written_out(alloc, text.as_str())?);
    }
    Ok(fs::read(rt, name)?)
}
