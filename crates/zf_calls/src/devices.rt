//! Readers and writers that fail at a stated place, and count how often they are called.
ghost use Rattle.std.specs.Prelude.{Some};

use std::alloc::Global;
use std::io;
use std::io::{ErrorKind, Read, Write};

/// A writer that takes `room` bytes in all, at most `step` in a call, and then fails.
#[derive(Drop)]
pub struct Limited {
    pub taken: Vec<u8>,
    pub room: usize,
    pub step: usize,
    pub error: ErrorKind,
    /// How often it was asked to write.
    pub writes: u64,
    /// How often it was asked to flush.
    pub flushes: u64,
}

impl Limited {
    pub fn new(alloc: Global, room: usize, step: usize, error: ErrorKind) -> Limited {
        Limited {
            taken: Vec::new(alloc),
            room,
            step,
            error,
            writes: 0,
            flushes: 0,
        }
    }
}

impl Write for Limited {
    ghost contents = { λ w. Some w.taken.items };

    fn write(&mut self, buf: &[u8]) -> io::Result<usize> {
        self.writes = self.writes.saturating_add(1);
        if self.room == 0 {
            return Err(io::Error::from(self.error));
        }
        let n = buf.len().min(self.room).min(self.step);
        self.taken.extend_from_slice(&buf[..n])?;
        self.room -= n;
        Ok(n)
    }

    fn flush(&mut self) -> io::Result<()> {
        self.flushes = self.flushes.saturating_add(1);
        if self.room == 0 {
            return Err(io::Error::from(self.error));
        }
        Ok(())
    }
}

/// A reader that gives its bytes, at most three in a call, and fails at one of its calls.
#[derive(Drop)]
pub struct Failing<'a> {
    pub left: &'a [u8],
    /// The call that fails, from 1.
    pub fails_at: u64,
    pub error: ErrorKind,
    /// How often it was asked to read.
    pub reads: u64,
}

impl<'a> Failing<'a> {
    pub fn new(left: &'a [u8], fails_at: u64, error: ErrorKind) -> Failing<'a> {
        Failing {
            left,
            fails_at,
            error,
            reads: 0,
        }
    }
}

impl<'a> Read for Failing<'a> {
    ghost remaining = { λ r. Some r.left.now };

    fn read(&mut self, buf: &mut [u8]) -> io::Result<usize> {
        self.reads = self.reads.saturating_add(1);
        if self.reads == self.fails_at {
            return Err(io::Error::from(self.error));
        }
        let n = buf.len().min(3);
        self.left.read(&mut buf[..n])
    }
}

/// A reader of spaces that never ends.
#[derive(Drop)]
pub struct Endless {
    /// How many bytes it gave.
    pub given: usize,
}

impl Read for Endless {
    fn read(&mut self, buf: &mut [u8]) -> io::Result<usize> {
        self.given = self.given.saturating_add(buf.len());
        buf.fill(b' ');
        Ok(buf.len())
    }
}
