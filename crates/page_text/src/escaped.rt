//! Text as it stands in a page of HTML.

ghost use Rattle.std.specs.Prelude.{◌≡◌, ◌++◌, ◌↔◌, ◌∷◌, [], All, IsTrue, OnOk};
ghost use Rattle.page_text.specs.Escaped.{escaped, escaped_byte};

use std::alloc::AllocError;

/// Adds a text, with a character reference in place of each `&`, `<`, `>`, `"` and `'`: it opens no tag, no attribute
/// and no other reference, between tags and within quotes.
pub fn add_escaped(page: &mut Vec<u8>, text: &[u8]) -> Result<(), AllocError>
    ensures { OnOk result (page.new.items ≡ page.old.items ++ escaped text.now) }
{
    if stands(text) {
        return page.extend_from_slice(text);
    }
    for place in 0..text.len() {
        add_byte(page, text[place])?;
    }
    Ok(())
}

/// Whether a text has none of the bytes that something else stands for.
fn stands(text: &[u8]) -> bool
    ensures { IsTrue result ↔ All (λ byte. escaped_byte byte ≡ byte ∷ []) text.now }
{
    text.iter()
        .all(|byte| !matches!(*byte, b'&' | b'<' | b'>' | b'"' | b'\''))
}

/// Adds a byte, or what stands for it.
fn add_byte(page: &mut Vec<u8>, byte: u8) -> Result<(), AllocError>
    ensures { OnOk result (page.new.items ≡ page.old.items ++ escaped_byte byte) }
{
    match byte {
        b'&' => page.extend_from_slice(b"&amp;"),
        b'<' => page.extend_from_slice(b"&lt;"),
        b'>' => page.extend_from_slice(b"&gt;"),
        b'"' => page.extend_from_slice(b"&quot;"),
        b'\'' => page.extend_from_slice(b"&#39;"),
        _ => Ok(page.push(byte)?),
    }
}
