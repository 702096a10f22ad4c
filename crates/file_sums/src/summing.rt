//! A reader whose bytes are summed as they are read.

ghost use Rattle.std.specs.Io.{ReadsAtMost};
ghost use Rattle.std.specs.Io.KnownBytes.{Consumes, Keeps, ReadConsumes};
ghost use Rattle.std.specs.Prelude.{◌≡◌, ◌++◌, [], ℕ, List, Option, IfOk, OnErr, take};
ghost use Rattle.sha2.specs.Sha256.{sha256};

use crate::RunningSum;
use std::io::{self, Read};
use std::marker::{Brand, Model, PhantomData};

/// Which bytes a file has, where that is known before it is read or written.
pub trait Known {
    ghost bytes: { Option (List ℕ) };
}

/// Nothing is known of them.
pub struct Unknown;

impl Known for Unknown {
    ghost use Rattle.std.specs.Prelude.{None};

    ghost bytes = { None };
}

/// What each call picks: nothing, or what its proof says.
impl Known for Brand {
    ghost use Rattle.std.specs.Prelude.{None};

    ghost bytes = { None };
}

/// A reader that passes on what another one gives, and sums it. `K` says what that one gives in all, where it is known.
#[derive(Drop)]
pub struct Summing<R: Read, K: Known> {
    from: R,
    sum: RunningSum,
    known: PhantomData<K>,
}

impl<R: Read, K: Known> Model for Summing<R, K> {
    ghost use Rattle.std.specs.Io.KnownBytes.{Consumes};
    ghost use Rattle.file_sums.specs.Summed.{BeingRead};

    ghost Value = { BeingRead };

    ghost view = { λ b. record { read = b.sum; left = R.remaining b.from } };

    ghost invariant = { λ b. Consumes K.bytes (R.remaining b.from) b.sum };
}

impl<R: Read, K: Known> Summing<R, K> {
    /// Of this reader, before anything was read.
    pub fn new(from: R) -> Summing<R, K>
        requires { Keeps K.bytes (R.remaining from) }
        ensures read { result.read ≡ [] }
        ensures left { result.left ≡ R.remaining from }
    {
        Summing {
            from,
            sum: RunningSum::new(),
            known: PhantomData,
        }
    }

    /// Reads once, as the reader does.
    pub fn read_on(&mut self, buf: &mut [u8]) -> io::Result<usize>
        ensures bound { ReadsAtMost result buf.new }
        ensures bytes { ReadConsumes self.old.left self.new.left result buf.new }
        ensures read { IfOk result (λ count. self.new.read ≡ self.old.read ++ take count buf.new) }
        ensures kept { OnErr result (self.new.read ≡ self.old.read) }
    {
        let count = self.from.read(buf)?;
        self.sum.add(&buf[..count]);
        Ok(count)
    }

    /// The sum of what was read.
    pub fn into_digest(self) -> [u8; 32]
    where
        R: Drop,
        ensures digest { result ≡ sha256 self.read }
        ensures known { Consumes K.bytes self.left self.read }
    {
        self.sum.into_digest()
    }
}

impl<R: Read, K: Known> Read for Summing<R, K> {
    ghost remaining = { λ file. file.left };

    fn read(&mut self, buf: &mut [u8]) -> io::Result<usize> {
        self.read_on(buf)
    }
}
