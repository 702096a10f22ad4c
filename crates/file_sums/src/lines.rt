//! Lines of sums and comments, written and read.

ghost use Rattle.std.specs.Prelude.{◌≡◌, ◌≢◌, ◌<◌, ◌++◌, ◌∷◌, [], ℕ, List, All, IfNone, IfSome, OnErr, OnOk, length};
ghost use Rattle.hex.specs.Hex.{encode_lower};
ghost use Rattle.file_sums.specs.Sums.{FitsInComment, FitsInLine, IsSum, Sum, comment_line, line_of};

use crate::forms::{is_comment, is_path};
use hex::{decode_to_slice, encode_to_slice};
use memchr::memchr;
use std::alloc::AllocError;

/// How many digits a digest has.
const DIGITS: usize = 64;

/// Adds the line of a sum, `DIGEST  PATH`. Where memory is refused the text stays as it was.
pub fn add_sum(text: &mut Vec<u8>, digest: &[u8; 32], path: &str) -> Result<(), AllocError>
    requires { FitsInLine path.now }
    ensures line { OnOk result (text.new.items
        ≡ text.old.items ++ line_of (record { digest = digest.now; path = path.now })) }
    ensures same { OnErr result (text.new.items ≡ text.old.items) }
{
    let digits = digits_of(digest);
    add_line(text, &digits, b"  ", path.as_bytes())
}

/// Adds a comment, `# TEXT`. Where memory is refused the text stays as it was.
pub fn add_comment(text: &mut Vec<u8>, comment: &str) -> Result<(), AllocError>
    requires { FitsInComment comment.now }
    ensures line { OnOk result (text.new.items ≡ text.old.items ++ comment_line comment.now) }
    ensures same { OnErr result (text.new.items ≡ text.old.items) }
{
    add_line(text, b"#", b" ", comment.as_bytes())
}

/// Adds three parts and a line feed, or nothing.
fn add_line(text: &mut Vec<u8>, first: &[u8], second: &[u8], third: &[u8]) -> Result<(), AllocError>
    ensures line { OnOk result (text.new.items
        ≡ text.old.items ++ (first.now ++ second.now ++ third.now ++ 10 ∷ [])) }
    ensures same { OnErr result (text.new.items ≡ text.old.items) }
{
    let start = text.len();
    let added = add_parts(text, first, second, third);
    if added.is_err() {
        text.truncate(start);
    }
    added
}

/// Adds three parts and a line feed, or some of them.
fn add_parts(
    text: &mut Vec<u8>,
    first: &[u8],
    second: &[u8],
    third: &[u8],
) -> Result<(), AllocError>
    ensures line { OnOk result (text.new.items
        ≡ text.old.items ++ (first.now ++ second.now ++ third.now ++ 10 ∷ [])) }
    ensures front { OnErr result ((added : List ℕ) × (text.new.items ≡ text.old.items ++ added)) }
{
    text.extend_from_slice(first)?;
    text.extend_from_slice(second)?;
    text.extend_from_slice(third)?;
    text.push(b'\n')?;
    Ok(())
}

/// A digest as 64 lower case digits.
fn digits_of(digest: &[u8; 32]) -> [u8; 64]
    ensures digits { result ≡ encode_lower digest.now }
    ensures bytes { All (λ byte. byte < 256) digest.now }
{
    let mut digits = [0u8; DIGITS];
    let _ = encode_to_slice(digest.as_slice(), &mut digits);
    digits
}

/// The first line of a text, without its line feed, and what stands behind it. None: no line feed ends it.
pub(crate) fn first_line(text: &[u8]) -> Option<(&[u8], &[u8])>
    ensures cut { IfSome result (λ parts. text.now ≡ parts.0.now ++ 10 ∷ parts.1.now) }
    ensures one { IfSome result (λ parts. All (λ byte. byte ≢ 10) parts.0.now) }
    ensures none { IfNone result (All (λ byte. byte ≢ 10) text.now) }
{
    let size = memchr(b'\n', text)?;
    Some((&text[..size], &text[size + 1..]))
}

/// The text of the comment that a line is, if it is one.
pub(crate) fn comment_of(line: &[u8]) -> Option<&[u8]>
    ensures line { IfSome result (λ text. comment_line text.now ≡ line.now ++ 10 ∷ []) }
    ensures fits { IfSome result (λ text. FitsInComment text.now) }
    ensures none { IfNone result ((text : List ℕ) → FitsInComment text
        → ¬ (comment_line text ≡ line.now ++ 10 ∷ [])) }
{
    match line {
        [b'#', b' ', text @ ..] if is_comment(text) => Some(text),
        _ => None,
    }
}

/// The digest and the path of the sum that a line is of, if it is of one.
pub(crate) fn sum_of(line: &[u8]) -> Option<([u8; 32], &[u8])>
    ensures line { IfSome result (λ sum. line_of (record { digest = sum.0; path = sum.1.now })
        ≡ line.now ++ 10 ∷ []) }
    ensures fits { IfSome result (λ sum. IsSum (record { digest = sum.0; path = sum.1.now })) }
    ensures none { IfNone result ((sum : Sum) → IsSum sum → ¬ (line_of sum ≡ line.now ++ 10 ∷ [])) }
{
    if line.len() < DIGITS {
        return None;
    }
    let (digits, named) = line.split_at(DIGITS);
    let digest = digest_of(digits)?;
    let path = path_of(named)?;
    Some((digest, path))
}

/// The path that stands behind a digest and two blanks.
fn path_of(named: &[u8]) -> Option<&[u8]>
    ensures path { IfSome result (λ path. named.now ≡ 32 ∷ 32 ∷ path.now) }
    ensures fits { IfSome result (λ path. FitsInLine path.now) }
    ensures none { IfNone result ((path : List ℕ) → FitsInLine path → ¬ (32 ∷ 32 ∷ path ≡ named.now)) }
{
    match named {
        [b' ', b' ', path @ ..] if is_path(path) => Some(path),
        _ => None,
    }
}

/// The digest that 64 lower case digits write.
fn digest_of(digits: &[u8]) -> Option<[u8; 32]>
    ensures digits { IfSome result (λ digest. encode_lower digest ≡ digits.now) }
    ensures bytes { IfSome result (λ digest. All (λ byte. byte < 256) digest) }
    ensures none { IfNone result ((digest : List ℕ) → length digest ≡ 32 → All (λ byte. byte < 256) digest
        → ¬ (encode_lower digest ≡ digits.now)) }
{
    let mut digest = [0u8; 32];
    if decode_to_slice(digits, &mut digest).is_err() {
        return None;
    }
    // What has capital digits decodes too.
    let again = digits_of(&digest);
    if again.as_slice() == digits {
        Some(digest)
    } else {
        None
    }
}
