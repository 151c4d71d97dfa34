//! Inputs of bytes.
ghost use Rattle.std.specs.Prelude.{◌≡◌, ℕ, List, Option, None};
ghost use Rattle.std.specs.Io.{ReadsAtMost};
ghost use Rattle.std.specs.Io.KnownBytes.{ReadConsumes};
ghost use Rattle.vb_script.specs.Fault.{CountsFault};

use crate::fault::Fault;
use std::fmt;
use std::io::Read;
use vb_count::GhostCount;

/// A reader of bytes that counts its faults in contracts.
pub trait Source {
    /// The bytes that remain, if the source reports them.
    ghost remaining: { Self → Option (List ℕ) } = { λ _. None };

    /// The number of reads that have failed.
    ghost faults: { Self → ℕ };

    /// Reads bytes into the start of `buf` and returns their number. It is 0 only at the end of the
    /// input, or if `buf` is empty. A failed read takes no byte.
    fn read(&mut self, buf: &mut [u8]) -> Result<usize, Fault>
        ensures bound { ReadsAtMost result buf.new }
        ensures bytes { ReadConsumes (remaining self.old) (remaining self.new) result buf.new }
        ensures counts { CountsFault result (faults self.old) (faults self.new) };
}

/// A [`Source`] that reads from a reader of `std`. Each error of the reader is a fault.
#[derive(Drop)]
pub struct FromRead<T: Read> {
    inner: T,
    faults: GhostCount,
}

impl<T: Read> FromRead<T> {
    ghost use Rattle.vb_script.specs.FromRead.{source_reader};

    /// Returns a source that reads from `inner`. No read has failed so far. Does not allocate.
    pub fn new(inner: T) -> Self
        ensures inner { source_reader result ≡ inner }
        ensures faults { ⟦<FromRead<T> as Source>⟧.faults result ≡ 0 }
    {
        FromRead {
            inner,
            faults: GhostCount::zero(),
        }
    }

    /// Returns the reader, which has the bytes that remain.
    pub fn into_inner(self) -> T
        ensures { result ≡ source_reader self }
    {
        self.inner
    }
}

/// Prints only the name of the type. The text may change.
impl<T: Read> fmt::Debug for FromRead<T> {
    fn fmt<W: fmt::Write>(&self, f: &mut fmt::Formatter<W>) -> fmt::Result {
        f.write_str("FromRead")
    }
}

impl<T: Read> Source for FromRead<T> {
    ghost use Rattle.vb_script.specs.FromRead.{source_reader};

    ghost remaining = { λ s. T.remaining (source_reader s) };

    ghost faults = { λ s. s.faults.count };

    fn read(&mut self, buf: &mut [u8]) -> Result<usize, Fault> {
        match self.inner.read(buf) {
            Ok(count) => Ok(count),
            Err(_) => {
                self.faults.add_one();
                Err(Fault)
            }
        }
    }
}
