//! Standard numbers, and names that a submitter's own numbers make.

ghost use Rattle.std.specs.Prelude.{◌≡◌, ◌==◌, IfOk, not};
ghost use Rattle.std.specs.Char.{is_ascii_digit};
ghost use Rattle.std.specs.List.{list_all, list_any};
ghost use Rattle.cwr_share.specs.Joined.{qualified as qualified_text};
ghost use Rattle.starting_tables.specs.Numbers.{is_iswc as is_iswc_text, is_number as is_number_text};

use std::alloc::{AllocError, Global};

/// Whether a field is so many digits that are not all 0.
pub(crate) fn is_number(digits: usize, field: &[u8]) -> bool
    ensures { result ≡ is_number_text digits field.now }
{
    field.len() == digits && are_digits(field) && has_more_than_zeros(field)
}

/// Whether all bytes are digits.
fn are_digits(field: &[u8]) -> bool
    ensures { result ≡ list_all is_ascii_digit field.now }
{
    field.iter().all(|byte| byte.is_ascii_digit())
}

/// Whether some byte is not the digit 0.
fn has_more_than_zeros(field: &[u8]) -> bool
    ensures { result ≡ list_any (λ byte. not (byte == 48)) field.now }
{
    field.iter().any(|byte| *byte != b'0')
}

/// Whether a field is an ISWC: `T` and ten digits that are not all 0.
pub(crate) fn is_iswc(field: &[u8]) -> bool
    ensures { result ≡ is_iswc_text field.now }
{
    if field.is_empty() {
        return false;
    }
    field[0] == b'T' && is_number(10, &field[1..])
}

/// What is a submitter's own: its name, a colon and a text.
pub(crate) fn qualified(alloc: Global, submitter: &[u8], text: &[u8]) -> Result<Vec<u8>, AllocError>
    ensures { IfOk result (λ name. name.items ≡ qualified_text submitter.now text.now) }
{
    let mut name = Vec::from_slice(alloc, submitter)?;
    name.push(b':')?;
    name.extend_from_slice(text)?;
    Ok(name)
}
