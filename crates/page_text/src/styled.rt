//! Text within the quotes of a style sheet.

ghost use Rattle.std.specs.Prelude.{◌≡◌, ◌++◌, OnOk};
ghost use Rattle.page_text.specs.Styled.{styled, styled_byte};

use crate::shown::hex_digit;
use std::alloc::AllocError;

/// Adds a text: letters and digits of ASCII, spaces and bytes above 127 as they stand, and for each other byte a
/// backslash, its two digits to the base 16 and a space. It ends neither its quotes nor the style sheet. The text is
/// UTF-8, as `add_shown` makes it.
pub fn add_styled(page: &mut Vec<u8>, text: &[u8]) -> Result<(), AllocError>
    ensures { OnOk result (page.new.items ≡ page.old.items ++ styled text.now) }
{
    for place in 0..text.len() {
        add_byte(page, text[place])?;
    }
    Ok(())
}

/// Adds a byte, or what stands for it.
fn add_byte(page: &mut Vec<u8>, byte: u8) -> Result<(), AllocError>
    ensures { OnOk result (page.new.items ≡ page.old.items ++ styled_byte byte) }
{
    if byte.is_ascii_alphanumeric() || byte == b' ' || byte > 127 {
        return Ok(page.push(byte)?);
    }
    page.push(b'\\')?;
    page.push(hex_digit(byte / 16))?;
    page.push(hex_digit(byte % 16))?;
    Ok(page.push(b' ')?)
}
