//! Fields of CSV that a spreadsheet would take for a formula.

ghost use Rattle.std.specs.Prelude.{◌≡◌, ◌++◌, OnOk, slice_index};
ghost use Rattle.page_text.specs.Formulas.{begins_formula, guarded};

use std::alloc::AllocError;

/// Adds a text, with a single quote in front where it begins with `=`, `+`, `-` or `@`, so that a spreadsheet takes
/// none for a formula. Some look past tabs and line ends at its beginning, so it has to be a text as it is shown
/// (`add_shown`).
pub fn add_guarded(field: &mut Vec<u8>, text: &[u8]) -> Result<(), AllocError>
    ensures { OnOk result (field.new.items ≡ field.old.items ++ guarded text.now) }
{
    if begins_a_formula(text) {
        field.push(b'\'')?;
    }
    field.extend_from_slice(text)
}

/// Whether a spreadsheet would take a text for a formula.
fn begins_a_formula(text: &[u8]) -> bool
    ensures { result ≡ begins_formula (slice_index text.now 0) }
{
    matches!(text.first(), Some(b'=' | b'+' | b'-' | b'@'))
}
