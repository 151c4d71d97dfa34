//! A column that is stored as its runs.
ghost use Rattle.std.specs.Prelude.{◌≡◌};
ghost use Rattle.vortex_buffer.specs.Makes.{Makes};
ghost use Rattle.use_columns.specs.Decoded.{run_values};

use std::alloc::Allocator;
use vortex_buffer::{Buffer, BufferMut, Result};

/// A value, and the number of its repetitions.
#[derive(Clone, Copy, Debug, PartialEq, Eq)]
pub struct Run {
    /// The value.
    pub value: u32,
    /// The number of repetitions.
    pub len: usize,
}

/// Returns the column of these runs, one after the other, or `OutOfMemory`.
pub fn decode_runs<A: Allocator + Clone>(alloc: A, runs: &[Run]) -> Result<Buffer<u32, A>>
    ensures { Makes (λ column. column.list ≡ run_values runs.now) result }
{
    let mut column = BufferMut::empty(alloc);
    for run in runs {
        column.push_n(run.value, run.len)?;
    }
    column.freeze()
}
