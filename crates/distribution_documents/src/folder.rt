//! Where documents are kept: a folder that is being written.

ghost use Rattle.std.specs.Io.KnownBytes.{Appends};
ghost use Rattle.std.specs.Prelude.{◌≡◌, ℕ, List, Option, IfOk};

use std::alloc::Global;
use std::io::{self, Write};

/// A folder that is being written, by several threads.
pub trait Folder {
    /// A file that is being written.
    type Draft: Write + Send + Drop;

    /// The place of a file in the folder, under the name that it was begun with.
    type Place: Send + Drop;

    /// A file of the folder, which is whole.
    type Stored: Send + Drop;

    // What a new file has, where that is known.
    ghost blank: { Option (List ℕ) };

    // A place has this name, with the folders above it.
    ghost named: { Self.Place → (name : List ℕ) → Type 0 };

    // A file has this name, and these bytes.
    ghost has: { Self.Stored → (name : List ℕ) → (bytes : List ℕ) → Type 0 };

    /// Begins a file, in a place of the folder.
    fn begin(&self, alloc: Global, name: &[u8]) -> io::Result<(Self::Draft, Self::Place)>
        ensures blank { IfOk result (λ begun. Self.Draft.contents begun.0 ≡ blank) }
        ensures named { IfOk result (λ begun. named begun.1 name.now) };

    /// Brings a file to the disk, in the place that it was begun in.
    fn store(&self, draft: Self::Draft, place: Self::Place) -> io::Result<Self::Stored>
        ensures { IfOk result (λ file. (name bytes : List ℕ) → named place name
            → Appends blank (Self.Draft.contents draft) bytes → has file name bytes) };
}

/// Writes a whole file.
pub(crate) fn put<F: Folder>(
    alloc: Global,
    folder: &F,
    name: &[u8],
    bytes: &[u8],
) -> io::Result<F::Stored>
    ensures { IfOk result (λ file. F.has file name.now bytes.now) }
{
    let (mut draft, place) = folder.begin(alloc, name)?;
    draft.write_all(bytes)?;
    folder.store(draft, place)
}
