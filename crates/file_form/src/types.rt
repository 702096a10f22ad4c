//! The types of the records of a CWR file, by the first three bytes of a line.

ghost use Rattle.std.specs.Prelude.{◌≡◌, ◌+◌, ◌<◌, ◌^◌, ◌∷◌, ◌++◌, [], ℕ, IfOk, List, OnOk, length, map};
ghost use Rattle.cwr_share.specs.Lines.{lines_of};
ghost use Rattle.cwr_share.specs.Records.{is_one_of};
ghost use Rattle.file_form.specs.SoFar.{AreFirstOf, counted, is_foreign};
ghost use Rattle.file_form.specs.Types.{AreForeignTypes, is_of_cwr};

use cwr_share::fields::TYPE;
use cwr_share::{Lines, MOST_NAMED, Name, Sought};
use indexmap::IndexMap;
use std::alloc::{AllocError, Global};

/// A type of records that CWR 2.2 does not have.
#[derive(Drop)]
pub struct ForeignType {
    /// The first three bytes of the records, fewer of lines that are shorter.
    pub name: Name,
    /// How many records have it.
    pub records: u64,
}

/// The types of records that CWR 2.2 does not have.
#[derive(Drop)]
pub struct ForeignTypes {
    /// How many there are.
    pub count: u64,
    /// The ten that come first, or all where they are fewer.
    pub first: Vec<ForeignType>,
}

/// The types of the records of a file that CWR 2.2 does not have. A run passes over them.
pub fn foreign_types(alloc: Global, bytes: &[u8]) -> Result<ForeignTypes, AllocError>
    ensures { IfOk result (AreForeignTypes (lines_of bytes.now)) }
{
    let mut types: IndexMap<Name, u64> = IndexMap::new(alloc);
    let mut lines = Lines::of(bytes);
    while let Some(line) = lines.next() {
        if is_foreign(line) {
            count(alloc, &mut types, TYPE.of(line))?;
        }
    }
    first_of(alloc, &types)
}

/// Counts one record more of a type.
fn count(alloc: Global, types: &mut IndexMap<Name, u64>, name: &[u8]) -> Result<(), AllocError>
    requires { (names : List (List ℕ)) × (types.old.entries ≡ counted names) × (length names + 1 < 2 ^ 64) }
    ensures { OnOk result ((names : List (List ℕ)) → types.old.entries ≡ counted names
        → types.new.entries ≡ counted (names ++ name.now ∷ [])) }
{
    match types.get_mut(Sought(name)) {
        Some(records) => *records += 1,
        None => {
            types.insert(Name::of(alloc, name)?, 1)?;
        }
    }
    Ok(())
}

/// The first types, and how many there are.
fn first_of(alloc: Global, types: &IndexMap<Name, u64>) -> Result<ForeignTypes, AllocError>
    ensures { IfOk result (AreFirstOf types.now.entries) }
{
    let mut first = Vec::with_capacity(alloc, MOST_NAMED)?;
    for place in 0..types.len().min(MOST_NAMED) {
        let Some((name, records)) = types.get_index(place) else {
            unreachable!()
        };
        first.push(ForeignType {
            name: Name::of(alloc, name.as_slice())?,
            records: *records,
        })?;
    }
    Ok(ForeignTypes {
        count: types.len() as u64,
        first,
    })
}

/// Whether a line is a record of a type that CWR 2.2 does not have.
fn is_foreign(line: &[u8]) -> bool
    ensures { result ≡ is_foreign line.now }
{
    !line.is_empty() && !is_of_cwr(line)
}

/// Whether CWR 2.2 has records of a line's type.
fn is_of_cwr(line: &[u8]) -> bool
    ensures { result ≡ is_of_cwr line.now }
{
    is_type(
        line,
        &[
            "HDR", "GRH", "GRT", "TRL", "AGR", "TER", "IPA", "NPA", "NWR", "REV", "ISW", "EXC",
            "ACK", "SPU", "NPN", "SPT", "OPU", "OPT", "SWR", "NWN", "SWT", "PWR", "OWR", "NOW",
            "OWT", "ALT", "NAT", "EWT", "NET", "VER", "NVT", "COM", "NCT", "PER", "NPR", "REC",
            "ORN", "INS", "IND", "ARI", "XRF", "MSG",
        ],
    )
}

/// Whether a line's type is one of these.
pub(crate) fn is_type(line: &[u8], names: &[&str]) -> bool
    ensures { result ≡ is_one_of (map (λ name. name.now) names.now) line.now }
{
    let name = TYPE.of(line);
    names.iter().any(|other| name == other.as_bytes())
}
