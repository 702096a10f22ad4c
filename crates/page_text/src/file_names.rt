//! Names of files that every system takes.

ghost use Rattle.std.specs.Prelude.{◌≡◌, ◌≤◌, ◌<◌, ◌^◌, ◌++◌, ◌-◌, ◌==◌, OnOk, IfOk, length, map, slice_index};
ghost use Rattle.page_text.specs.FileNames.{file_name, plain_or_dash, slug, squeezed};

use crate::figures::add_last_digits;
use std::alloc::{AllocError, Global};

/// The most bytes of a name that a file's name has.
const MOST_SLUG_BYTES: usize = 40;

/// Adds the name of a file: the number of an account by `width` digits, a `-`, and the letters and digits of a name,
/// with one `-` for each run of other bytes between them, 40 bytes at most; `payee` where there are none.
pub fn add_file_name(
    alloc: Global,
    text: &mut Vec<u8>,
    width: u32,
    number: u64,
    name: &[u8],
) -> Result<(), AllocError>
    requires width { (0 < width) × (width ≤ 19) }
    requires number { number < 10 ^ width }
    ensures { OnOk result (text.new.items ≡ text.old.items ++ file_name width number name.now) }
{
    add_last_digits(text, width, u128::from(number))?;
    text.push(b'-')?;
    let slug = slug_of(alloc, name)?;
    text.extend_from_slice(slug.as_slice())
}

/// The letters and digits of a name.
fn slug_of(alloc: Global, name: &[u8]) -> Result<Vec<u8>, AllocError>
    ensures { IfOk result (λ text. text.items ≡ slug name.now) }
{
    let mut text = squeezed_of(alloc, name)?;
    text.truncate(MOST_SLUG_BYTES);
    if ends_in_dash(&text) {
        text.pop();
    }
    if text.is_empty() {
        text.extend_from_slice(b"payee")?;
    }
    Ok(text)
}

/// The letters and digits of a name, with one `-` for each run of other bytes that is not at its beginning.
fn squeezed_of(alloc: Global, name: &[u8]) -> Result<Vec<u8>, AllocError>
    ensures { IfOk result (λ text. text.items ≡ squeezed 45 (map plain_or_dash name.now)) }
{
    let mut text = Vec::new(alloc);
    for place in 0..name.len() {
        let byte = name[place];
        if byte.is_ascii_alphanumeric() {
            text.push(byte)?;
        } else if !text.is_empty() && !ends_in_dash(&text) {
            text.push(b'-')?;
        }
    }
    Ok(text)
}

/// Whether a text has a `-` at its end.
fn ends_in_dash(text: &[u8]) -> bool
    ensures { result ≡ (slice_index text.now (length text.now - 1) == 45) }
{
    matches!(text.last(), Some(b'-'))
}
