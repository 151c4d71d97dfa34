//! Outputs of bytes.
ghost use Rattle.std.specs.Prelude.{◌≡◌, ℕ, List, Option, None, OnOk};
ghost use Rattle.std.specs.Io.KnownBytes.{Appends};
ghost use Rattle.vb_script.specs.Fault.{CountsFault};

use crate::fault::Fault;
use std::fmt;
use std::io::Write;
use vb_count::GhostCount;

/// A writer of bytes that counts its faults in contracts.
pub trait Sink {
    /// The bytes that were written, if the sink reports them.
    ghost contents: { Self → Option (List ℕ) } = { λ _. None };

    /// The number of writes that have failed.
    ghost faults: { Self → ℕ };

    /// Writes all bytes, or fails. No clause states how many bytes a failed write wrote.
    fn write(&mut self, bytes: &[u8]) -> Result<(), Fault>
        ensures bytes { OnOk result (Appends (contents self.old) (contents self.new) bytes.now) }
        ensures counts { CountsFault result (faults self.old) (faults self.new) };
}

/// A [`Sink`] that writes to a writer of `std`. Each error of the writer is a fault, and so is a
/// write that takes none of the bytes: the sink never retries a write, not even after
/// `Interrupted`. It never flushes the writer.
#[derive(Drop)]
pub struct ToWrite<T: Write> {
    inner: T,
    faults: GhostCount,
}

impl<T: Write> ToWrite<T> {
    ghost use Rattle.vb_script.specs.ToWrite.{sink_writer};

    /// Returns a sink that writes to `inner`. No write has failed so far. Does not allocate.
    pub fn new(inner: T) -> Self
        ensures inner { sink_writer result ≡ inner }
        ensures faults { ⟦<ToWrite<T> as Sink>⟧.faults result ≡ 0 }
    {
        ToWrite {
            inner,
            faults: GhostCount::zero(),
        }
    }

    /// Returns the writer, which has the bytes that were written.
    pub fn into_inner(self) -> T
        ensures { result ≡ sink_writer self }
    {
        self.inner
    }
}

/// Prints only the name of the type. The text may change.
impl<T: Write> fmt::Debug for ToWrite<T> {
    fn fmt<W: fmt::Write>(&self, f: &mut fmt::Formatter<W>) -> fmt::Result {
        f.write_str("ToWrite")
    }
}

impl<T: Write> Sink for ToWrite<T> {
    ghost use Rattle.vb_script.specs.ToWrite.{sink_writer};

    ghost contents = { λ s. T.contents (sink_writer s) };

    ghost faults = { λ s. s.faults.count };

    fn write(&mut self, bytes: &[u8]) -> Result<(), Fault> {
        let written = write_all(&mut self.inner, bytes);
        if written.is_err() {
            self.faults.add_one();
        }
        written
    }
}

/// Writes all bytes with as many writes as the writer needs, up to its first error.
///
/// Unlike `write_all` of `std`, it does not retry after `Interrupted`.
fn write_all<W: Write>(writer: &mut W, bytes: &[u8]) -> Result<(), Fault>
    ensures { OnOk result (Appends (W.contents writer.old) (W.contents writer.new) bytes.now) }
{
    let mut start = 0;
    while start < bytes.len() {
        match writer.write(&bytes[start..]) {
            Ok(0) | Err(_) => return Err(Fault),
            Ok(count) => start += count,
        }
    }
    Ok(())
}
