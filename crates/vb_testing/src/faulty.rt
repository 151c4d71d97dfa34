//! A reader and a writer that fault once, so that a test can interrupt an input or an output.
//! Neither allocates.
ghost use Rattle.std.specs.Prelude.{◌≡◌, ◌≢◌, Some, None, IfOk, OnErr, IsErrAnd};
ghost use Rattle.std.specs.Io.{ReadsAtMost, WritesAtMost};
ghost use Rattle.std.specs.Io.KnownBytes.{Keeps, ReadConsumes, WriteAppends};
ghost use Rattle.std.specs.IoError.{error_kind};

use std::io::{self, ErrorKind, Read, Write};

/// Reads from another reader, and faults once, after a given number of bytes.
///
/// The fault is an error of the kind `BrokenPipe`, which std's loops don't retry. It consumes no
/// byte: later reads continue with the next byte, and don't fault again. So a test can detect a
/// caller that loses or repeats bytes at a fault.
#[derive(Drop)]
pub struct FaultyReader<R> {
    inner: R,
    until_fault: Option<usize>,
}

impl<R> FaultyReader<R> {
    ghost use Rattle.vb_testing.specs.Faulty.{reader_inner, bytes_until_fault};

    /// Returns a reader of `inner` that faults at the first read after `bytes` bytes: at the very
    /// first read if `bytes` is 0. If `inner` ends before, the reader ends without a fault.
    pub fn new(inner: R, bytes: usize) -> FaultyReader<R>
        ensures inner { reader_inner result ≡ inner }
        ensures fault { bytes_until_fault result ≡ Some bytes }
    {
        FaultyReader {
            inner,
            until_fault: Some(bytes),
        }
    }
}

impl<R: Read> Read for FaultyReader<R> {
    ghost use Rattle.vb_testing.specs.Faulty.{reader_inner, bytes_until_fault, LeavesUntilFault};

    ghost remaining = { λ r. R.remaining (reader_inner r) };

    /// Reads once from the inner reader, but no more bytes than are left before the fault.
    ///
    /// Returns an error of the inner reader unchanged. The number of bytes left before the fault
    /// does not change then.
    fn read(&mut self, buf: &mut [u8]) -> io::Result<usize>
        ensures bound { ReadsAtMost result buf.new }
        ensures bytes { ReadConsumes (R.remaining (reader_inner self.old))
            (R.remaining (reader_inner self.new)) result buf.new }
        ensures counts { IfOk result (λ n.
            LeavesUntilFault (bytes_until_fault self.old) (bytes_until_fault self.new) n) }
        ensures fault { bytes_until_fault self.old ≡ Some 0 →
            IsErrAnd result (λ e. error_kind e ≡ ErrorKind.BrokenPipe)
            × (bytes_until_fault self.new ≡ None)
            × (reader_inner self.new ≡ reader_inner self.old) }
        ensures err { bytes_until_fault self.old ≢ Some 0 →
            OnErr result (bytes_until_fault self.new ≡ bytes_until_fault self.old) }
    {
        let Some(left) = self.until_fault else {
            return self.inner.read(buf);
        };
        if left == 0 {
            self.until_fault = None;
            return Err(io::Error::from(ErrorKind::BrokenPipe));
        }
        let most = left.min(buf.len());
        let count = self.inner.read(&mut buf[..most])?;
        self.until_fault = Some(left - count);
        Ok(count)
    }
}

/// Writes to another writer, and faults once, after a given number of writes.
///
/// The fault is an error of the kind `BrokenPipe`, which std's loops don't retry. It writes
/// nothing. Later writes go to the inner writer, and don't fault again.
#[derive(Drop)]
pub struct FaultyWriter<W> {
    inner: W,
    until_fault: Option<usize>,
}

impl<W> FaultyWriter<W> {
    ghost use Rattle.vb_testing.specs.Faulty.{writer_inner, writes_until_fault};

    /// Returns a writer to `inner` that faults once, after `writes` writes: at the first write if
    /// `writes` is 0.
    pub fn new(inner: W, writes: usize) -> FaultyWriter<W>
        ensures inner { writer_inner result ≡ inner }
        ensures fault { writes_until_fault result ≡ Some writes }
    {
        FaultyWriter {
            inner,
            until_fault: Some(writes),
        }
    }

    /// Returns the inner writer.
    pub fn inner(&self) -> &W
        ensures { result.now ≡ writer_inner self.now }
    {
        &self.inner
    }
}

impl<W: Write> Write for FaultyWriter<W> {
    ghost use Rattle.vb_testing.specs.Faulty.{writer_inner, writes_until_fault, writes_after_one};

    ghost contents = { λ w. W.contents (writer_inner w) };

    /// Writes once to the inner writer, or faults. A write counts even if the inner writer returns
    /// an error.
    fn write(&mut self, buf: &[u8]) -> io::Result<usize>
        ensures bound { WritesAtMost result buf.now }
        ensures bytes { WriteAppends (W.contents (writer_inner self.old))
            (W.contents (writer_inner self.new)) result buf.now }
        ensures counts { writes_until_fault self.new
            ≡ writes_after_one (writes_until_fault self.old) }
        ensures fault { writes_until_fault self.old ≡ Some 0 →
            IsErrAnd result (λ e. error_kind e ≡ ErrorKind.BrokenPipe)
            × (writer_inner self.new ≡ writer_inner self.old) }
    {
        if self.until_fault == Some(0) {
            self.until_fault = None;
            return Err(io::Error::from(ErrorKind::BrokenPipe));
        }
        self.until_fault = self.until_fault.map(|writes| writes - 1);
        self.inner.write(buf)
    }

    /// Flushes the inner writer. A flush doesn't count as a write, and causes no fault.
    fn flush(&mut self) -> io::Result<()>
        ensures bytes { Keeps (W.contents (writer_inner self.old))
            (W.contents (writer_inner self.new)) }
        ensures counts { writes_until_fault self.new ≡ writes_until_fault self.old }
    {
        self.inner.flush()
    }
}

#[cfg(test)]
mod tests;
