//! A reader or a writer that counts its failures.
ghost use Rattle.std.specs.Prelude.{◌≡◌, is_err};
ghost use Rattle.zf_lines.specs.Prelude.{Keeps, ReadConsumes, WriteAppends};
ghost use Rattle.std.specs.Io.{ReadsAtMost, WritesAtMost};
ghost use Rattle.zf_lines.specs.{count_after, device_of, failures_of, is_failed_write};

use std::io;
use std::io::{Read, Write};

/// A reader or a writer, and how many of its calls failed.
#[derive(Drop)]
pub struct Counted<T> {
    device: T,
    failures: u64,
}

impl<T> Counted<T> {
    pub fn new(device: T) -> Counted<T>
        ensures device { device_of result ≡ device }
        ensures none { failures_of result ≡ 0 }
    {
        Counted {
            device,
            failures: 0,
        }
    }

    /// How many calls failed, up to the greatest number.
    pub fn failures(&self) -> u64
        ensures { result ≡ failures_of self.now }
    {
        self.failures
    }

    /// The device, as the calls left it.
    pub fn device(&self) -> &T
        ensures { result.now ≡ device_of self.now }
    {
        &self.device
    }
}

impl<R: Read> Read for Counted<R> {
    ghost remaining = { λ c. R.remaining (device_of c) };

    fn read(&mut self, buf: &mut [u8]) -> io::Result<usize>
        ensures bound { ReadsAtMost result buf.new }
        ensures bytes { ReadConsumes (R.remaining (device_of self.old)) (R.remaining (device_of self.new)) result buf.new }
        ensures count { failures_of self.new ≡ count_after (failures_of self.old) (is_err result) }
    {
        let result = self.device.read(buf);
        if result.is_err() {
            self.failures = self.failures.saturating_add(1);
        }
        result
    }
}

impl<W: Write> Write for Counted<W> {
    ghost contents = { λ c. W.contents (device_of c) };

    fn write(&mut self, buf: &[u8]) -> io::Result<usize>
        ensures bound { WritesAtMost result buf.now }
        ensures bytes { WriteAppends (W.contents (device_of self.old)) (W.contents (device_of self.new)) result buf.now }
        ensures count { failures_of self.new ≡ count_after (failures_of self.old) (is_failed_write result buf.now) }
    {
        let result = self.device.write(buf);
        let is_failed = match &result {
            Ok(n) => *n == 0 && !buf.is_empty(),
            Err(_) => true,
        };
        if is_failed {
            self.failures = self.failures.saturating_add(1);
        }
        result
    }

    fn flush(&mut self) -> io::Result<()>
        ensures bytes { Keeps (W.contents (device_of self.old)) (W.contents (device_of self.new)) }
        ensures count { failures_of self.new ≡ count_after (failures_of self.old) (is_err result) }
    {
        let result = self.device.flush();
        if result.is_err() {
            self.failures = self.failures.saturating_add(1);
        }
        result
    }
}
