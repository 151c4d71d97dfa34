//! The arguments of the program.
ghost use Rattle.std.specs.Prelude.{◌≤◌};

use anyhow::{Context, Result, bail};

/// A size of an input, and a number of calls.
#[derive(Clone, Copy)]
pub struct Case {
    /// The number of bits or items of an input.
    pub size: usize,
    /// The number of calls.
    pub calls: usize,
    ghost bounded: { size ≤ 16777216 },
}

impl Case {
    /// The largest size.
    pub const MOST: usize = 16_777_216;

    /// Reads a size and a number of calls. Returns an error if one of them is no number, or the
    /// size is above [`MOST`](Self::MOST).
    pub fn read(size: &str, calls: &str) -> Result<Case> {
        let size = size.parse::<usize>().context("size")?;
        let calls = calls.parse::<usize>().context("calls")?;
        if size > Case::MOST {
            bail!("size is above 16,777,216");
        }
        Ok(Case { size, calls })
    }

    /// Returns the same number of calls with eight times the size, at most [`MOST`](Self::MOST).
    pub fn eightfold(self) -> Case {
        Case {
            size: (8 * self.size).min(Case::MOST),
            calls: self.calls,
        }
    }
}
