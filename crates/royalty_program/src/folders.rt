//! Folders of documents that are kept whole, or not at all.

ghost use Rattle.std.specs.Prelude.{ℕ, List, Option, Some, OnErr, OnOk};
ghost use Rattle.distribution_documents.specs.Documents.{File};
ghost use Rattle.distribution_documents.specs.Written.{AreWritten};
ghost use Rattle.royalty_program.specs.Folders.{IsFolderLeft, IsLeftOrKept, any_page, any_place, in_any_folder};

use crate::sources::Disk;
use crate::targets::{directory_of, name_beside};
use distribution_documents::Folder;
use std::alloc::{AllocError, Global};
use std::fs::{self, OpenFile};
use std::io::{self, ErrorKind, Stderr, Write};
use std::rt::Files;
use std::str;
use std::sync::atomic::{AtomicU64, Ordering};

/// How many names are tried for a new folder beside the one that it is to become.
const MOST_NAMES: u32 = 1_000;

/// Where a folder of documents is kept under a path, once it is whole.
pub trait Folders {
    /// A folder that is being written.
    type Draft: Folder + Sync + Drop;

    // Under a path it keeps a folder of these files, or none.
    ghost keeps_folder: { Self → List ℕ → Option (List File) → Type 0 };

    /// Begins the folder that a path is to have. A path that a file or a folder has already is refused, as one that
    /// exists.
    fn begin_folder(&mut self, alloc: Global, path: &str) -> io::Result<Self::Draft>
        ensures left { IsFolderLeft (keeps_folder self.old path.now) (keeps_folder self.new path.now) };

    /// Brings a folder to the disk, in which these files were written, and puts it under its path. Where that cannot be
    /// done, the path has what it had, or the whole folder.
    fn keep_folder(
        &mut self,
        alloc: Global,
        folder: Self::Draft,
        files: Vec<<Self::Draft as Folder>::Stored>,
        path: &str,
    ) -> io::Result<()>
        ensures kept { OnOk result ((documents : List File) → AreWritten Self.Draft.has files.items documents
            → keeps_folder self.new path.now (Some documents)) }
        ensures left { OnErr result (IsLeftOrKept Self.Draft.has files.items (keeps_folder self.old path.now)
            (keeps_folder self.new path.now)) };

    /// Throws a folder away.
    fn discard_folder(&mut self, alloc: Global, folder: Self::Draft, path: &str)
        ensures left { IsFolderLeft (keeps_folder self.old path.now) (keeps_folder self.new path.now) };
}

/// A new folder beside the path that it is to have.
#[derive(Drop)]
pub struct NewFolder<'a, R> {
    rt: &'a R,
    path: String,
    progress: Progress<'a>,
}

/// How many files of a folder are written, and whether a line tells it.
#[derive(Drop)]
struct Progress<'a> {
    files: AtomicU64,
    watched: Option<&'a Stderr>,
}

impl<'a> Progress<'a> {
    /// Notes that one more file is written. The line is written anew for every 16 files: a terminal takes its time.
    fn note(&self) {
        let Some(mut line) = self.watched else { return };
        let before = self.files.fetch_add(1, Ordering::Relaxed);
        if before % 16 == 15 {
            let written = before.wrapping_add(1);
            let _ = write!(line, "\rdocuments written: {written}");
        }
    }

    /// Clears the line.
    fn clear(&self) {
        if let Some(mut line) = self.watched {
            let _ = line.write_all(b"\r\x1b[K");
        }
    }
}

/// A file of a new folder that is being written.
#[derive(Drop)]
pub struct NewPage<F> {
    file: F,
}

impl<F: Write> Write for NewPage<F> {
    fn write(&mut self, buf: &[u8]) -> io::Result<usize> {
        self.file.write(buf)
    }

    fn flush(&mut self) -> io::Result<()> {
        self.file.flush()
    }
}

/// The place of a file in a new folder.
#[derive(Drop)]
pub struct PagePlace {}

/// A file of a folder that is on the disk whole.
#[derive(Drop)]
pub struct StoredPage {}

impl<'a, R: Files + Sync> Folder for NewFolder<'a, R>
where
    R::File: Send,
{
    ghost use Rattle.std.specs.Prelude.{None};

    type Draft = NewPage<R::File>;

    type Place = PagePlace;

    type Stored = StoredPage;

    ghost blank = { None };

    ghost named = { any_place };

    ghost has = { any_page };

    fn begin(&self, alloc: Global, name: &[u8]) -> io::Result<(NewPage<R::File>, PagePlace)> {
        let Ok(name) = str::from_utf8(name) else {
            return Err(io::Error::from(ErrorKind::InvalidInput));
        };
        let path = path_in(alloc, self.path.as_str(), name)?;
        let file = fs::File::create_new(self.rt, path.as_str())?;
        Ok((NewPage { file }, PagePlace {}))
    }

    fn store(&self, draft: NewPage<R::File>, _place: PagePlace) -> io::Result<StoredPage> {
        draft.file.sync_all()?;
        self.progress.note();
        Ok(StoredPage {})
    }
}

impl<'a, R: Files + Sync> Folders for Disk<'a, R>
where
    R::File: Send,
{
    type Draft = NewFolder<'a, R>;

    ghost keeps_folder = { λ _. in_any_folder };

    fn begin_folder(&mut self, alloc: Global, path: &str) -> io::Result<NewFolder<'a, R>> {
        if is_taken(self.rt, path)? {
            return Err(io::Error::from(ErrorKind::AlreadyExists));
        }
        let folder = create_folder_beside(self, alloc, path)?;
        match create_payees(self.rt, alloc, folder.path.as_str()) {
            Ok(()) => Ok(folder),
            Err(error) => {
                remove(self.rt, alloc, folder.path.as_str());
                Err(error)
            }
        }
    }

    fn keep_folder(
        &mut self,
        alloc: Global,
        folder: NewFolder<'a, R>,
        _files: Vec<StoredPage>,
        path: &str,
    ) -> io::Result<()>
        ensures kept { OnOk result ((documents : List File) → AreWritten any_page _files.items documents
            → in_any_folder path.now (Some documents)) }
        ensures left { OnErr result (IsLeftOrKept any_page _files.items (in_any_folder path.now)
            (in_any_folder path.now)) }
    {
        folder.progress.clear();
        match put_folder(self.rt, alloc, folder.path.as_str(), path) {
            Ok(()) => fs::open(self.rt, directory_of(path))?.sync_all(),
            Err(error) => {
                remove(self.rt, alloc, folder.path.as_str());
                Err(error)
            }
        }
    }

    fn discard_folder(&mut self, alloc: Global, folder: NewFolder<'a, R>, _path: &str) {
        folder.progress.clear();
        remove(self.rt, alloc, folder.path.as_str());
    }
}

/// Whether a path has a file or a folder.
fn is_taken<R: Files>(rt: &R, path: &str) -> io::Result<bool> {
    match fs::symlink_metadata(rt, path) {
        Ok(_) => Ok(true),
        Err(error) if error.kind() == ErrorKind::NotFound => Ok(false),
        Err(error) => Err(error),
    }
}

/// A new folder in the same directory, under the first of the names that nothing has.
fn create_folder_beside<'a, R: Files>(
    disk: &Disk<'a, R>,
    alloc: Global,
    path: &str,
) -> io::Result<NewFolder<'a, R>> {
    let rt = disk.rt;
    for number in 0..MOST_NAMES {
        let path = name_beside(alloc, without_slashes(path), number)?;
        match fs::create_dir(rt, path.as_str()) {
            Ok(()) => {
                let progress = Progress {
                    files: AtomicU64::new(0),
                    watched: disk.watched,
                };
                return Ok(NewFolder { rt, path, progress });
            }
            Err(error) if error.kind() == ErrorKind::AlreadyExists => {}
            Err(error) => return Err(error),
        }
    }
    Err(io::Error::from(ErrorKind::AlreadyExists))
}

/// The folder of the payees' files, in a new folder.
fn create_payees<R: Files>(rt: &R, alloc: Global, folder: &str) -> io::Result<()> {
    let path = path_in(alloc, folder, "payees")?;
    fs::create_dir(rt, path.as_str())
}

/// Brings the names in a new folder to the disk, and gives it its path, which nothing has.
fn put_folder<R: Files>(rt: &R, alloc: Global, folder: &str, path: &str) -> io::Result<()> {
    let payees = path_in(alloc, folder, "payees")?;
    fs::open(rt, payees.as_str())?.sync_all()?;
    fs::open(rt, folder)?.sync_all()?;
    if is_taken(rt, path)? {
        return Err(io::Error::from(ErrorKind::AlreadyExists));
    }
    fs::rename(rt, folder, path)
}

/// Removes a new folder with all that is in it.
fn remove<R: Files>(rt: &R, alloc: Global, folder: &str) {
    let _ = rt.remove_dir_all(alloc, folder);
}

/// The path of a file in a folder.
fn path_in(alloc: Global, folder: &str, name: &str) -> Result<String, AllocError> {
    format!(in alloc; "{folder}/{name}")
}

/// A path without the slashes at its end.
fn without_slashes(path: &str) -> &str {
    path.trim_end_matches('/')
}
