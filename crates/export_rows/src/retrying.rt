//! Reads that are made again where a signal interrupted them.

ghost use Rattle.std.specs.Io.KnownBytes.{ReadConsumes};
ghost use Rattle.std.specs.Io.{ReadsAtMost};
ghost use Rattle.std.specs.IoError.{error_kind};
ghost use Rattle.std.specs.Prelude.{◌≡◌, ◌≢◌, IfErr};
ghost use Rattle.std.specs.declared.io.ErrorKind.TheVariants as ErrorKind;

use std::io::{self, ErrorKind, Read};

/// A reader that reads again where a signal interrupts it, as the crate `csv` does not.
#[derive(Drop)]
pub(crate) struct Retrying<R> {
    inner: R,
}

impl<R> Retrying<R> {
    pub(crate) fn of(inner: R) -> Retrying<R>
        ensures { result.inner ≡ inner }
    {
        Retrying { inner }
    }
}

impl<R: Read> Read for Retrying<R> {
    ghost remaining = { λ from. R.remaining from.inner };

    fn read(&mut self, buf: &mut [u8]) -> io::Result<usize>
        ensures bound { ReadsAtMost result buf.new }
        ensures bytes { ReadConsumes (R.remaining self.old.inner) (R.remaining self.new.inner) result buf.new }
        ensures retried { IfErr result (λ error. error_kind error ≢ ErrorKind.Interrupted) }
    {
        for _ in 0..u64::MAX {
            match self.inner.read(buf) {
                Err(error) if error.kind() == ErrorKind::Interrupted => {}
                answer => return answer,
            }
        }
        Err(io::Error::from(ErrorKind::Other))
    }
}
