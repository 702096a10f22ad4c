//! A writer whose bytes are summed as they are written.

ghost use Rattle.std.specs.Io.KnownBytes.{Appends, Keeps};
ghost use Rattle.std.specs.Prelude.{◌≡◌, [], Some};
ghost use Rattle.sha2.specs.Sha256.{sha256};

use crate::{Known, RunningSum};
use std::io::{self, Write};
use std::marker::{Model, PhantomData};

/// A file that is being written, and the sum of what was written. `K` says what it has before, where that is known.
///
/// Whoever writes to it learns which bytes were written, even where the file does not say what it has: that is what
/// this is known to hold as a writer.
#[derive(Drop)]
pub struct SummedFile<W: Write, K: Known> {
    to: W,
    sum: RunningSum,
    known: PhantomData<K>,
}

impl<W: Write, K: Known> Model for SummedFile<W, K> {
    ghost use Rattle.std.specs.Io.KnownBytes.{Appends};
    ghost use Rattle.file_sums.specs.Summed.{BeingWritten};

    ghost Value = { BeingWritten };

    ghost view = { λ b. record { written = b.sum; has = W.contents b.to } };

    ghost invariant = { λ b. Appends K.bytes (W.contents b.to) b.sum };
}

impl<W: Write, K: Known> SummedFile<W, K> {
    /// Of this file, before anything was written.
    pub fn new(to: W) -> SummedFile<W, K>
        requires { Keeps K.bytes (W.contents to) }
        ensures written { result.written ≡ [] }
        ensures has { result.has ≡ W.contents to }
    {
        SummedFile {
            to,
            sum: RunningSum::new(),
            known: PhantomData,
        }
    }

    /// The file, and the sum of what was written.
    pub fn into_parts(self) -> (W, [u8; 32])
        ensures digest { result.1 ≡ sha256 self.written }
        ensures same { W.contents result.0 ≡ self.has }
        ensures known { Appends K.bytes (W.contents result.0) self.written }
    {
        (self.to, self.sum.into_digest())
    }
}

impl<W: Write, K: Known> Write for SummedFile<W, K> {
    ghost contents = { λ file. Some file.written };

    fn write(&mut self, buf: &[u8]) -> io::Result<usize> {
        let count = self.to.write(buf)?;
        self.sum.add(&buf[..count]);
        Ok(count)
    }

    fn flush(&mut self) -> io::Result<()> {
        self.to.flush()
    }
}
