//! Texts that are kept in files: whole, or not at all.

ghost use Rattle.std.specs.Io.KnownBytes.{Appends};
ghost use Rattle.std.specs.Prelude.{◌≡◌, ◌≢◌, ◌⊎◌, ℕ, List, None, Option, Some, Err, IfErr, IfOk, IsOk, IsOkAnd, OnErr};
ghost use Rattle.std.specs.Prelude.{OnOk, string_bytes, true};
ghost use Rattle.royalty_program.specs.Status.{failure_of_target};
ghost use Rattle.royalty_program.specs.Targets.{IsLeft, IsLeftOrWhole, in_any_file, of_any_file};

use crate::failure::Failure;
use crate::sources::Disk;
use std::alloc::{AllocError, Global};
use std::fs::{self, OpenFile, OpenOptions, Permissions};
use std::io::{self, ErrorKind, Write};
use std::os::unix::fs::MetadataExt;
use std::path::Path;
use std::rt::Files;

/// How many names are tried for a new file beside another.
const MOST_NAMES: u32 = 1_000;

/// Where a text is kept under a path, once it is whole.
pub trait Target {
    /// A text that is being written.
    type Draft: Write + Drop;

    /// A text that is on the disk, and has no path yet.
    type Stored: Drop;

    // Under a path it keeps a file of these bytes, or none.
    ghost keeps: { Self → List ℕ → Option (List ℕ) → Type 0 };

    // What a new draft has, where that is known.
    ghost blank: { Option (List ℕ) };

    // What a text on the disk has, where that is known.
    ghost stored: { Self.Stored → Option (List ℕ) };

    // Two paths have one file, by whatever names.
    ghost one_file: { Self → List ℕ → List ℕ → Type 0 };

    /// Whether two paths name one file, by whatever names.
    fn is_one_file(&self, path: &str, other: &str) -> io::Result<bool>
        ensures same { IfOk result (λ is_one. path.now ≡ other.now → is_one ≡ true) }
        ensures one { IfOk result (λ is_one. is_one ≡ true → one_file self.now path.now other.now) };

    /// A draft of what a path is to have.
    fn begin(&mut self, alloc: Global, path: &str) -> io::Result<Self::Draft>
        ensures blank { IfOk result (λ draft. Self.Draft.contents draft ≡ blank) }
        ensures left { (any : List ℕ) → IsLeft (keeps self.old any) (keeps self.new any) };

    /// Brings a draft to the disk. Where that cannot be done it is thrown away.
    fn store(&mut self, draft: Self::Draft, path: &str) -> io::Result<Self::Stored>
        ensures stored { IfOk result (λ text. stored text ≡ Self.Draft.contents draft) }
        ensures left { (any : List ℕ) → IsLeft (keeps self.old any) (keeps self.new any) };

    /// Puts a text that is on the disk under its path, in place of what may be there. Where that
    /// cannot be done, the path has what it had, or the whole text.
    fn keep(&mut self, whole: Self::Stored, path: &str) -> io::Result<()>
        ensures kept { OnOk result ((text : List ℕ) → Appends blank (stored whole) text
            → keeps self.new path.now (Some text)) }
        ensures left { OnErr result (IsLeftOrWhole blank (stored whole) (keeps self.old path.now)
            (keeps self.new path.now)) }
        ensures others { (other : List ℕ) → other ≢ path.now → IsLeft (keeps self.old other) (keeps self.new other) };

    /// Throws a draft away.
    fn discard(&mut self, draft: Self::Draft, path: &str)
        ensures left { (any : List ℕ) → IsLeft (keeps self.old any) (keeps self.new any) };
}

/// Sees a draft to its path, if it was written whole, and throws it away otherwise.
pub fn finish<T: Target>(
    target: &mut T,
    draft: T::Draft,
    path: String,
    written: Result<io::Result<()>, Failure>,
) -> Result<(), Failure>
    ensures kept { IfOk result (λ _. (text : List ℕ) → Appends T.blank (T.Draft.contents draft) text
        → T.keeps target.new (string_bytes path) (Some text)) }
    ensures whole { IfOk result (λ _. IsOkAnd written IsOk) }
    ensures failure { IfErr result (λ failure. (written ≡ Err failure) ⊎ ((failure ≡ Failure.Target path)
        × IsOk written)) }
    ensures left { OnErr result (IsLeft (T.keeps target.old (string_bytes path))
        (T.keeps target.new (string_bytes path))
        ⊎ (IsOkAnd written IsOk × IsLeftOrWhole T.blank (T.Draft.contents draft)
        (T.keeps target.old (string_bytes path)) (T.keeps target.new (string_bytes path)))) }
    ensures others { (other : List ℕ) → other ≢ string_bytes path
        → IsLeft (T.keeps target.old other) (T.keeps target.new other) }
{
    match written {
        Ok(Ok(())) => {
            let Ok(whole) = target.store(draft, path.as_str()) else {
                return Err(Failure::Target(path));
            };
            match target.keep(whole, path.as_str()) {
                Ok(()) => Ok(()),
                Err(_) => Err(Failure::Target(path)),
            }
        }
        Ok(Err(_)) => {
            target.discard(draft, path.as_str());
            Err(Failure::Target(path))
        }
        Err(failure) => {
            target.discard(draft, path.as_str());
            Err(failure)
        }
    }
}

/// Why no draft could be begun, by the kind of the error.
pub fn unkept(kind: ErrorKind, path: String) -> Failure
    ensures { result ≡ failure_of_target kind path }
{
    match kind {
        ErrorKind::OutOfMemory => Failure::Room,
        _ => Failure::Target(path),
    }
}

/// A new file beside the one that it is to replace.
#[derive(Drop)]
pub struct NewFile<F> {
    file: F,
    path: String,
}

impl<F: Write> Write for NewFile<F> {
    fn write(&mut self, buf: &[u8]) -> io::Result<usize> {
        self.file.write(buf)
    }

    fn flush(&mut self) -> io::Result<()> {
        self.file.flush()
    }
}

/// A new file that is on the disk whole, under a name of its own.
#[derive(Drop)]
pub struct StoredFile {
    path: String,
}

impl<'a, R: Files> Target for Disk<'a, R> {
    type Draft = NewFile<R::File>;

    type Stored = StoredFile;

    ghost keeps = { λ _. in_any_file };

    ghost one_file = { λ _. of_any_file };

    ghost blank = { None };

    ghost stored = { λ _. None };

    fn is_one_file(&self, path: &str, other: &str) -> io::Result<bool> {
        if path == other {
            return Ok(true);
        }
        match (node_of(self.rt, path)?, node_of(self.rt, other)?) {
            (Some(node), Some(other)) => Ok(node == other),
            (None, None) => Ok(
                name_of(path) == name_of(other) && are_of_one_directory(self.rt, path, other)?,
            ),
            _ => Ok(false),
        }
    }

    /// The draft has the permissions of the file that it is to replace.
    fn begin(&mut self, alloc: Global, path: &str) -> io::Result<NewFile<R::File>> {
        if path == "" {
            return Err(io::Error::from(ErrorKind::InvalidInput));
        }
        let permissions = replaced(self.rt, path)?;
        let draft = create_beside(self.rt, alloc, path)?;
        if let Some(permissions) = permissions
            && let Err(error) = draft.file.set_permissions(permissions)
        {
            throw_away(self.rt, draft);
            return Err(error);
        }
        Ok(draft)
    }

    fn store(&mut self, draft: NewFile<R::File>, _path: &str) -> io::Result<StoredFile> {
        match draft.file.sync_all() {
            Ok(()) => Ok(StoredFile { path: draft.path }),
            Err(error) => {
                throw_away(self.rt, draft);
                Err(error)
            }
        }
    }

    fn keep(&mut self, whole: StoredFile, path: &str) -> io::Result<()> {
        match fs::rename(self.rt, whole.path.as_str(), path) {
            Ok(()) => sync_directory(self.rt, path),
            Err(error) => {
                let _ = fs::remove_file(self.rt, whole.path.as_str());
                Err(error)
            }
        }
    }

    fn discard(&mut self, draft: NewFile<R::File>, _path: &str) {
        throw_away(self.rt, draft);
    }
}

/// The device and the number of the file under a path, where there is one: all names of a file have
/// the same.
fn node_of<R: Files>(rt: &R, path: &str) -> io::Result<Option<(u64, u64)>> {
    match fs::metadata(rt, path) {
        Ok(found) => Ok(Some((found.dev(), found.ino()))),
        Err(error) if is_of_no_file(error.kind()) => Ok(None),
        Err(error) => Err(error),
    }
}

/// Whether an error says that there is no file under a path: nothing there, or a file where a directory has to be.
fn is_of_no_file(kind: ErrorKind) -> bool {
    kind == ErrorKind::NotFound || kind == ErrorKind::NotADirectory
}

/// The name of a path in its directory.
fn name_of(path: &str) -> &str {
    match Path::new(path).file_name() {
        Some(name) => name,
        None => path,
    }
}

/// Whether two paths have one directory, by whatever names.
fn are_of_one_directory<R: Files>(rt: &R, path: &str, other: &str) -> io::Result<bool> {
    match (
        node_of(rt, directory_of(path))?,
        node_of(rt, directory_of(other))?,
    ) {
        (Some(directory), Some(other)) => Ok(directory == other),
        _ => Ok(false),
    }
}

/// The permissions of the file under a path, where there is one. Nothing but a file is replaced: no
/// directory, device or symbolic link.
fn replaced<R: Files>(rt: &R, path: &str) -> io::Result<Option<Permissions>> {
    match fs::symlink_metadata(rt, path) {
        Ok(found) if found.is_file() => Ok(Some(found.permissions())),
        Ok(_) => Err(io::Error::from(ErrorKind::InvalidInput)),
        Err(error) if error.kind() == ErrorKind::NotFound => Ok(None),
        Err(error) => Err(error),
    }
}

/// A new file in the same directory, under the first of the names that no file has.
fn create_beside<R: Files>(rt: &R, alloc: Global, path: &str) -> io::Result<NewFile<R::File>> {
    for number in 0..MOST_NAMES {
        let path = name_beside(alloc, path, number)?;
        match fs::File::create_new(rt, path.as_str()) {
            Ok(file) => return Ok(NewFile { file, path }),
            Err(error) if error.kind() == ErrorKind::AlreadyExists => {}
            Err(error) => return Err(error),
        }
    }
    Err(io::Error::from(ErrorKind::AlreadyExists))
}

/// The path with `.new` behind it, and then a number, but for the first.
pub(crate) fn name_beside(alloc: Global, path: &str, number: u32) -> Result<String, AllocError> {
    match number {
        0 => format!(in alloc; "{path}.new"),
        _ => format!(in alloc; "{path}.new{number}"),
    }
}

/// Brings the names of a file's directory to the disk.
fn sync_directory<R: Files>(rt: &R, path: &str) -> io::Result<()> {
    fs::open(rt, directory_of(path))?.sync_all()
}

/// The directory that a path is in.
pub(crate) fn directory_of(path: &str) -> &str {
    match Path::new(path).parent() {
        Some(parent) => match parent.as_str() {
            "" => ".",
            directory => directory,
        },
        None => ".",
    }
}

/// Removes a draft.
fn throw_away<R: Files>(rt: &R, draft: NewFile<R::File>) {
    let _ = fs::remove_file(rt, draft.path.as_str());
}
