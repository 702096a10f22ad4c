//! Where files are read from.

ghost use Rattle.std.specs.IoError.{error_kind};
ghost use Rattle.std.specs.Prelude.{◌≡◌, ◌<◌, ◌≤◌, ◌↔◌, ℕ, List, IfOk, IfErr, IfSome, IsTrue, length};
ghost use Rattle.std.specs.declared.io.ErrorKind.{ErrorKind};
ghost use Rattle.royalty_program.specs.Files.{for_any_error, on_disk};
ghost use Rattle.royalty_program.specs.Status.{failure_of_file};
ghost use Rattle.royalty_program.specs.MergeFiles.{Gives, any_text};

use crate::failure::Failure;
use std::alloc::Global;
use std::fs::{self, OpenFile};
use std::io::{self, ErrorKind, Read, Stderr};
use std::rt::Files;

/// The most bytes that a file of a run has.
pub const MOST_BYTES: u64 = 268_435_456;

/// Where the files of a run are read from.
pub trait Source {
    // The file of a path has these bytes.
    ghost holds: { Self → List ℕ → List ℕ → Type 0 };
    // It refuses a path with an error of this kind.
    ghost refuses: { Self → List ℕ → ErrorKind → Type 0 };

    /// The bytes of the file of a path. A file of more than the most bytes cannot be read.
    fn read(&self, alloc: Global, path: &str) -> io::Result<Vec<u8>>
        ensures bytes { IfOk result (λ bytes. holds self.now path.now bytes.items) }
        ensures few { IfOk result (λ bytes. length bytes.items ≤ 268435456) }
        ensures error { IfErr result (λ error. refuses self.now path.now (error_kind error)) };
}

/// Where the texts of statements are read from, whatever their size.
pub trait Texts {
    /// What a text is read through.
    type Reader: Read + Drop;

    // The file of a path gives this text.
    ghost gives: { Self → List ℕ → List ℕ → Type 0 };

    /// A reader of the text of the file of a path.
    fn open(&self, path: &str) -> io::Result<Self::Reader>
        ensures text { IfOk result (λ reader. Gives (gives self.now path.now) (Self.Reader.remaining reader)) };
}

/// The files of the system.
#[derive(Drop)]
pub struct Disk<'a, R> {
    pub rt: &'a R,
    /// Standard error, where somebody watches it: a line there tells how many documents are written.
    pub watched: Option<&'a Stderr>,
}

impl<'a, R: Files> Source for Disk<'a, R> {
    ghost holds = { λ _. on_disk };

    ghost refuses = { λ _. for_any_error };

    fn read(&self, alloc: Global, path: &str) -> io::Result<Vec<u8>> {
        let file = fs::open(self.rt, path)?;
        let size = file.metadata()?.len();
        if is_too_large(size) {
            return Err(io::Error::from(ErrorKind::FileTooLarge));
        }
        read_whole(alloc, file, size as usize + 1)
    }
}

impl<'a, R: Files> Texts for Disk<'a, R> {
    type Reader = R::File;

    ghost gives = { λ _. any_text };

    fn open(&self, path: &str) -> io::Result<R::File> {
        fs::open(self.rt, path)
    }
}

/// Whether a run reads no file of so many bytes.
fn is_too_large(size: u64) -> bool
    ensures { IsTrue result ↔ (268435456 < size) }
{
    size > MOST_BYTES
}

/// All that a reader has to give, where that is no more than the most bytes. A pipe does not say
/// its size, and a file may grow meanwhile, so a byte more is asked for, which tells that nothing
/// was cut off.
pub fn read_whole<S: Read + Drop>(alloc: Global, from: S, room: usize) -> io::Result<Vec<u8>>
    ensures whole { IfOk result (λ bytes. IfSome (S.remaining from) (λ all. bytes.items ≡ all)) }
    ensures few { IfOk result (λ bytes. length bytes.items ≤ 268435456) }
{
    let mut bytes = Vec::with_capacity(alloc, room)?;
    from.take(MOST_BYTES + 1).read_to_end(&mut bytes)?;
    if is_too_large(bytes.len() as u64) {
        return Err(io::Error::from(ErrorKind::FileTooLarge));
    }
    Ok(bytes)
}

/// Why there is no file of a path, by the kind of the error.
pub fn unread(kind: ErrorKind, path: String) -> Failure
    ensures { result ≡ failure_of_file kind path }
{
    match kind {
        ErrorKind::OutOfMemory => Failure::Room,
        _ => Failure::File(path),
    }
}
