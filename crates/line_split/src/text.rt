//! A text as bytes.

ghost use Rattle.std.specs.Prelude.{◌≡◌, ◌≤◌, IfOk, length, take};
ghost use Rattle.line_split.specs.declared.text.TheConstants.{MOST_IN_PLACE};

use std::alloc::{AllocError, Global};
use std::marker::Model;

/// The longest text that is kept in place, in bytes, so that a `Text` has 16 bytes.
const MOST_IN_PLACE: usize = 14;

/// How many bytes are copied at once. Two such blocks, which may overlap, have all bytes of a text that
/// is kept in place.
const BLOCK: usize = 8;

/// A text as it stood in a table, as bytes. A short one takes no memory beside itself.
#[derive(Drop)]
pub struct Text {
    bytes: Bytes,
}

/// Where the bytes of a text are.
#[derive(Drop)]
enum Bytes {
    /// How many there are, and these, with others behind them.
    InPlace(u8, [u8; MOST_IN_PLACE]),
    /// Boxed, since a vector has 24 bytes.
    Apart(Box<Vec<u8>>),
}

impl Model for Text {
    ghost use Rattle.std.specs.Prelude.{ℕ, List};
    ghost use Rattle.line_split.specs.Texts.{bytes_of, IsSound};

    ghost Value = { List ℕ };

    ghost view = { λ text. bytes_of text.bytes };

    ghost invariant = { λ text. IsSound text.bytes };
}

impl Text {
    /// A copy of these bytes.
    pub fn of(alloc: Global, bytes: &[u8]) -> Result<Text, AllocError>
        ensures { IfOk result (λ text. text ≡ bytes.now) }
    {
        if bytes.len() > MOST_IN_PLACE {
            let apart = Vec::from_slice(alloc, bytes)?;
            return Ok(Text {
                bytes: Bytes::Apart(Box::new(alloc, apart)?),
            });
        }
        Ok(Text {
            bytes: Bytes::InPlace(bytes.len() as u8, in_place(bytes)),
        })
    }

    /// Its bytes.
    pub fn as_slice(&self) -> &[u8]
        ensures { result.now ≡ self.now }
    {
        match &self.bytes {
            Bytes::InPlace(length, bytes) => &bytes[..*length as usize],
            Bytes::Apart(bytes) => bytes.as_slice(),
        }
    }
}

/// The bytes of a short text, with zeros behind them.
#[inline]
fn in_place(bytes: &[u8]) -> [u8; MOST_IN_PLACE]
    requires { length bytes.now ≤ MOST_IN_PLACE }
    ensures { take (length bytes.now) result ≡ bytes.now }
{
    let end = bytes.len();
    let mut copy = [0; MOST_IN_PLACE];
    if end < BLOCK {
        copy[..end].copy_from_slice(bytes);
    } else {
        copy[..BLOCK].copy_from_slice(&bytes[..BLOCK]);
        copy[end - BLOCK..end].copy_from_slice(&bytes[end - BLOCK..]);
    }
    copy
}
