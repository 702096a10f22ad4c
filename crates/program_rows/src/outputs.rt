//! An output that keeps what it is given, and may refuse it.

use std::alloc::Global;
use std::io::{self, Write};

/// An output that takes a number of bytes, refuses one write, and then takes all that is still written. It keeps what
/// it takes.
#[derive(Drop)]
pub struct Output {
    room: usize,
    /// Whether it cannot be flushed.
    is_stopped: bool,
    kept: Vec<u8>,
    /// How many bytes came through, since they were written before it was flushed.
    through: usize,
    /// How many bytes came in one write at most.
    pub longest: usize,
}

impl Output {
    /// An output that takes all.
    pub fn open(alloc: Global) -> Output {
        Output::with(alloc, usize::MAX, false)
    }

    pub fn with(alloc: Global, room: usize, is_stopped: bool) -> Output {
        Output {
            room,
            is_stopped,
            kept: Vec::new(alloc),
            through: 0,
            longest: 0,
        }
    }

    /// The bytes that it took.
    pub fn kept(&self) -> &[u8] {
        self.kept.as_slice()
    }

    /// Those that came through.
    pub fn through(&self) -> &[u8] {
        self.kept.get(..self.through).unwrap_or(&[])
    }
}

impl Write for Output {
    fn write(&mut self, buf: &[u8]) -> io::Result<usize> {
        if self.room == 0 {
            self.room = usize::MAX;
            return Err(io::Error::from(io::ErrorKind::BrokenPipe));
        }
        let taken = buf.len().min(self.room);
        self.kept.extend_from_slice(&buf[..taken])?;
        self.room -= taken;
        self.longest = self.longest.max(buf.len());
        Ok(taken)
    }

    fn flush(&mut self) -> io::Result<()> {
        if self.is_stopped {
            return Err(io::Error::from(io::ErrorKind::StorageFull));
        }
        self.through = self.kept.len();
        Ok(())
    }
}
