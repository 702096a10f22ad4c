//! A text of any bytes, as a document shows it.

ghost use Rattle.std.specs.Prelude.{◌≡◌, ◌++◌, ◌<◌, ◌≤◌, ◌↔◌, All, IsTrue, OnOk, flat_map, if◌then◌else◌};
ghost use Rattle.page_text.specs.Shown.{byte_code, hex, is_seen, shown, shown_span};

use bstr::ByteSlice;
use std::alloc::AllocError;

/// Adds a text: its characters as they stand, where a reader can see them, and for other bytes a backslash, an `x` and
/// two digits to the base 16. The text is UTF-8, or what of it is not is shown by its bytes.
pub fn add_shown(text: &mut Vec<u8>, bytes: &[u8]) -> Result<(), AllocError>
    ensures { OnOk result (text.new.items ≡ text.old.items ++ shown bytes.now) }
{
    if is_plain(bytes) {
        return text.extend_from_slice(bytes);
    }
    for (begin, end, character) in bytes.char_indices() {
        add_span(text, &bytes[begin..end], is_visible(character))?;
    }
    Ok(())
}

/// Whether a text has characters of ASCII that a reader can see, and no other.
fn is_plain(bytes: &[u8]) -> bool
    ensures { IsTrue result ↔ All (λ byte. (32 ≤ byte) × (byte ≤ 126)) bytes.now }
{
    bytes.iter().all(|byte| *byte >= 32 && *byte <= 126)
}

/// Adds the bytes of a character, as they stand or by their digits.
fn add_span(text: &mut Vec<u8>, bytes: &[u8], is_seen: bool) -> Result<(), AllocError>
    ensures { OnOk result (text.new.items
        ≡ text.old.items ++ (if is_seen then bytes.now else flat_map byte_code bytes.now)) }
{
    if is_seen {
        return text.extend_from_slice(bytes);
    }
    for place in 0..bytes.len() {
        add_code(text, bytes[place])?;
    }
    Ok(())
}

/// Whether a reader can see a character.
fn is_visible(character: char) -> bool
    ensures { result ≡ is_seen character }
{
    !matches!(
        u32::from(character),
        0..=31
            | 127..=159
            | 0xAD
            | 0x34F
            | 0x61C
            | 0x115F..=0x1160
            | 0x17B4..=0x17B5
            | 0x180B..=0x180F
            | 0x200B..=0x200F
            | 0x2028..=0x202E
            | 0x2060..=0x206F
            | 0x3164
            | 0xE000..=0xF8FF
            | 0xFE00..=0xFE0F
            | 0xFEFF
            | 0xFFA0
            | 0xFFF0..=0xFFFF
            | 0x1BCA0..=0x1BCA3
            | 0x1D173..=0x1D17A
            | 0xE0000..=0x10FFFF
    )
}

/// Adds a byte by a backslash, an `x` and its two digits to the base 16.
pub fn add_code(text: &mut Vec<u8>, byte: u8) -> Result<(), AllocError>
    ensures { OnOk result (text.new.items ≡ text.old.items ++ byte_code byte) }
{
    text.extend_from_slice(b"\\x")?;
    text.push(hex_digit(byte / 16))?;
    text.push(hex_digit(byte % 16))?;
    Ok(())
}

/// A digit to the base 16.
pub(crate) fn hex_digit(n: u8) -> u8
    requires { n < 16 }
    ensures { result ≡ hex n }
{
    if n < 10 { n + b'0' } else { n + b'a' - 10 }
}
