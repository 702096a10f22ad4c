//! Which paths and comments fit in a line.

ghost use Rattle.std.specs.Prelude.{◌↔◌, IsTrue};
ghost use Rattle.file_sums.specs.Sums.{FitsInComment, FitsInLine};

/// The most bytes that a path has.
pub const MOST_PATH_BYTES: usize = 4_096;

/// Whether a line of a sum can name this path: 1 to 4,096 bytes, none of which is a line feed, a carriage return, a
/// backslash or a zero. `-` alone is no file's name there.
pub fn fits_in_line(path: &str) -> bool
    ensures { IsTrue result ↔ FitsInLine path.now }
{
    is_path(path.as_bytes())
}

/// The same of bytes that are read.
pub(crate) fn is_path(path: &[u8]) -> bool
    ensures { IsTrue result ↔ FitsInLine path.now }
{
    !path.is_empty()
        && path.len() <= MOST_PATH_BYTES
        && path != b"-".as_slice()
        && path
            .iter()
            .all(|byte| !matches!(*byte, b'\n' | b'\r' | b'\\' | 0))
}

/// Whether a comment can have this text: it has no line feed and no carriage return.
pub fn fits_in_comment(text: &str) -> bool
    ensures { IsTrue result ↔ FitsInComment text.now }
{
    is_comment(text.as_bytes())
}

/// The same of bytes that are read.
pub(crate) fn is_comment(text: &[u8]) -> bool
    ensures { IsTrue result ↔ FitsInComment text.now }
{
    text.iter().all(|byte| !matches!(*byte, b'\n' | b'\r'))
}
