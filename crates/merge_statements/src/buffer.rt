//! The part of a text that is in memory, and its lines.

ghost use Rattle.std.specs.Io.KnownBytes.{Consumes, IsAtEnd, Keeps, prepend_known};
ghost use Rattle.std.specs.Prelude.{◌≡◌, ◌≤◌, ◌<◌, ◌+◌, ◌++◌, ◌∷◌, ◌↔◌, [], IfOk, IsTrue, OnErr, drop, false, length};
ghost use Rattle.std.specs.Prelude.{take, true, vec_len};
ghost use Rattle.std.specs.List.{list_any};

use memchr::memchr;
use std::alloc::{AllocError, Global};
use std::io::{self, ErrorKind, Read};

/// How many bytes of a text are in memory at most: the longest line with its line feed.
pub(crate) const BUFFER_BYTES: usize = 32_768;

/// `bytes[start..end]` is the line at hand, and `bytes[at..filled]` waits.
#[derive(Drop)]
pub(crate) struct Buffer {
    bytes: Vec<u8>,
    start: usize,
    end: usize,
    at: usize,
    filled: usize,
    ghost line: { start ≤ end },
    ghost given: { end ≤ at },
    ghost waits: { at ≤ filled },
    ghost fits: { filled ≤ 32768 },
    ghost size: { vec_len bytes ≡ 32768 },
}

impl Buffer {
    ghost use Rattle.merge_statements.specs.Buffered.{is_feed, line_of, waiting_of};

    /// A buffer that nothing was read into yet.
    pub(crate) fn new(alloc: Global) -> Result<Buffer, AllocError>
        ensures line { IfOk result (λ buffer. line_of buffer ≡ []) }
        ensures waiting { IfOk result (λ buffer. waiting_of buffer ≡ []) }
    {
        let bytes = vec![in alloc; 0u8; BUFFER_BYTES]?;
        Ok(Buffer {
            bytes,
            start: 0,
            end: 0,
            at: 0,
            filled: 0,
        })
    }

    /// The line at hand.
    pub(crate) fn line(&self) -> &[u8]
        ensures line { result.now ≡ line_of self.now }
        ensures short { length result.now ≤ 32768 }
    {
        let (start, end) = (self.start, self.end);
        let all = self.bytes.as_slice();
        &all[start..end]
    }

    /// What waits.
    fn waiting(&self) -> &[u8]
        ensures { result.now ≡ waiting_of self.now }
    {
        let (at, filled) = (self.at, self.filled);
        let all = self.bytes.as_slice();
        &all[at..filled]
    }

    /// Whether nothing waits.
    pub(crate) fn is_empty(&self) -> bool
        ensures { IsTrue result ↔ (waiting_of self.now ≡ []) }
    {
        self.at == self.filled
    }

    /// Leaves no line at hand.
    pub(crate) fn drop_line(&mut self)
        ensures line { line_of self.new ≡ [] }
        ensures kept { waiting_of self.new ≡ waiting_of self.old }
    {
        self.start = self.at;
        self.end = self.at;
    }

    /// Goes on to the next line, if its line feed waits, and answers whether it does.
    pub(crate) fn take_line(&mut self) -> bool
        ensures found { result ≡ true → waiting_of self.old ≡ line_of self.new ++ 10 ∷ waiting_of self.new }
        ensures whole { result ≡ true → list_any is_feed (line_of self.new) ≡ false }
        ensures short { result ≡ true → length (line_of self.new) < 32768 }
        ensures none { result ≡ false → list_any is_feed (waiting_of self.old) ≡ false }
        ensures kept { result ≡ false → self.new ≡ self.old }
    {
        let start = self.at;
        match memchr(b'\n', self.waiting()) {
            Some(size) => {
                self.start = start;
                self.end = start + size;
                self.at = start + size + 1;
                true
            }
            None => false,
        }
    }

    /// Moves what waits to the front, and answers whether there is room behind it.
    pub(crate) fn make_room(&mut self) -> bool
        ensures kept { waiting_of self.new ≡ waiting_of self.old }
        ensures no_line { line_of self.new ≡ [] }
        ensures room { result ≡ true → self.new.filled < 32768 }
        ensures full { result ≡ false → length (waiting_of self.new) ≡ 32768 }
    {
        let (at, filled) = (self.at, self.filled);
        if at > 0 {
            self.bytes.copy_within(at..filled, 0);
        }
        self.start = 0;
        self.end = 0;
        self.at = 0;
        self.filled = filled - at;
        self.filled < BUFFER_BYTES
    }

    /// Reads once, behind what waits, and answers whether the text may go on.
    pub(crate) fn fill<R: Read>(&mut self, from: &mut R) -> io::Result<bool>
        requires { self.old.filled < 32768 }
        ensures kept { Keeps (prepend_known (waiting_of self.old) (R.remaining from.old))
            (prepend_known (waiting_of self.new) (R.remaining from.new)) }
        ensures end { IfOk result (λ more. more ≡ false → IsAtEnd (R.remaining from.new)
            × (waiting_of self.new ≡ waiting_of self.old)) }
        ensures line { line_of self.new ≡ line_of self.old }
    {
        match read_behind(from, &mut self.bytes, self.filled) {
            Ok(more) => {
                self.filled += more;
                Ok(more > 0)
            }
            Err(error) => unless_interrupted(error),
        }
    }
}

/// Refuses with an error, unless it says that a read was interrupted: such a read is tried again.
fn unless_interrupted(error: io::Error) -> io::Result<bool>
    ensures { IfOk result (λ more. more ≡ true) }
{
    match error.kind() {
        ErrorKind::Interrupted => Ok(true),
        _ => Err(error),
    }
}

/// Reads once into the bytes from a place on.
fn read_behind<R: Read>(from: &mut R, bytes: &mut Vec<u8>, place: usize) -> io::Result<usize>
    requires { place < vec_len bytes.old }
    ensures size { vec_len bytes.new ≡ vec_len bytes.old }
    ensures front { take place bytes.new.items ≡ take place bytes.old.items }
    ensures within { IfOk result (λ more. place + more ≤ vec_len bytes.new) }
    ensures read { IfOk result (λ more. Consumes (R.remaining from.old) (R.remaining from.new)
        (take more (drop place bytes.new.items))) }
    ensures end { IfOk result (λ more. more ≡ 0 → IsAtEnd (R.remaining from.new)) }
    ensures kept { OnErr result (Keeps (R.remaining from.old) (R.remaining from.new)) }
{
    from.read(&mut bytes.as_mut_slice()[place..])
}
