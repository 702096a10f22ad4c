//! A folder in memory, and CWR files.

use distribution_documents::Folder;
use std::alloc::{AllocError, Global};
use std::io::{self, ErrorKind, Write};
use submitted_inputs::SubmitterFiles;

/// A folder in memory, which refuses the file of one name.
#[derive(Drop)]
pub struct Memory<'a> {
    pub refused: &'a [u8],
}

/// A file that is being written.
#[derive(Drop)]
pub struct Page {
    bytes: Vec<u8>,
}

impl Write for Page {
    fn write(&mut self, buf: &[u8]) -> io::Result<usize> {
        self.bytes.write(buf)
    }

    fn flush(&mut self) -> io::Result<()> {
        Ok(())
    }
}

/// A file that was written.
#[derive(Drop)]
pub struct NamedPage {
    pub name: Vec<u8>,
    pub bytes: Vec<u8>,
}

impl<'a> Folder for Memory<'a> {
    ghost use Rattle.std.specs.Prelude.{◌≡◌, None};

    type Draft = Page;

    type Place = Vec<u8>;

    type Stored = NamedPage;

    ghost blank = { None };

    ghost named = { λ place name. place.items ≡ name };

    ghost has = { λ page name bytes. page.name.items ≡ name };

    fn begin(&self, alloc: Global, name: &[u8]) -> io::Result<(Page, Vec<u8>)> {
        if name == self.refused {
            return Err(io::Error::from(ErrorKind::PermissionDenied));
        }
        let page = Page {
            bytes: Vec::new(alloc),
        };
        Ok((page, Vec::from_slice(alloc, name)?))
    }

    fn store(&self, draft: Page, place: Vec<u8>) -> io::Result<NamedPage> {
        Ok(NamedPage {
            name: place,
            bytes: draft.bytes,
        })
    }
}

/// Files in memory, some of which cannot be read.
#[derive(Drop)]
pub struct Kept {
    pub files: Vec<Option<Vec<u8>>>,
}

impl SubmitterFiles for Kept {
    ghost holds = { λ _ _ _. Unit {0} };

    ghost refuses = { λ _ _. Unit {0} };

    ghost lacks = { λ _ _. Unit {0} };

    fn read(&self, alloc: Global, place: usize) -> Result<Option<Vec<u8>>, AllocError> {
        match self.files.get(place) {
            Some(Some(bytes)) => Ok(Some(Vec::from_slice(alloc, bytes.as_slice())?)),
            _ => Ok(None),
        }
    }
}
