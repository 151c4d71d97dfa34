//! A column of numbers, some of which may be null.
ghost use Rattle.std.specs.Prelude.{◌≡◌, ◌^◌, ◌<◌, length, sum};
ghost use Rattle.use_columns.specs.Columns.{AreEnds};
ghost use Rattle.vortex_buffer.specs.Bits.{count, complement};
ghost use Rattle.vortex_buffer.specs.Kept.{kept_by};

use crate::masked::{masked_min_max, masked_sum};
use std::alloc::{Allocator, Global};
use std::marker::Model;
use vortex_buffer::{BitBuffer, Buffer};

/// A column of numbers, some of which may be null: values, and a mask with a true bit for each
/// value that isn't null. Contracts see both as lists.
#[derive(Drop)]
pub struct Column<A: Allocator + Clone = Global> {
    values: Buffer<u32, A>,
    valid: BitBuffer<A>,
}

impl<A: Allocator + Clone> Model for Column<A> {
    ghost use Rattle.std.specs.Prelude.{◌≡◌, length};
    ghost use Rattle.use_columns.specs.Rows.{Rows};

    ghost Value = { Rows };

    ghost view = { λ c. record {
      values = c.values.list;
      valid = c.valid.bits;
    } };

    ghost invariant = { λ c. length c.valid.bits ≡ length c.values.list };
}

impl<A: Allocator + Clone> Column<A> {
    /// Returns the column of these values and this mask, which must have the same length. Does not
    /// allocate.
    pub fn new(values: Buffer<u32, A>, valid: BitBuffer<A>) -> Self
        requires same_len { length valid.bits ≡ length values.list }
        ensures values { result.values ≡ values.list }
        ensures valid { result.valid ≡ valid.bits }
    {
        Column { values, valid }
    }

    /// Returns the number of rows, including nulls.
    pub fn len(&self) -> usize
        ensures values { result ≡ length self.now.values }
        ensures valid { result ≡ length self.now.valid }
    {
        self.values.len()
    }

    /// Returns the values of all rows. The value of a null row is arbitrary.
    pub fn values(&self) -> &Buffer<u32, A>
        ensures { result.now.list ≡ self.now.values }
    {
        &self.values
    }

    /// Returns which rows aren't null: one bit per value.
    pub fn valid(&self) -> &BitBuffer<A>
        ensures bits { result.now.bits ≡ self.now.valid }
        ensures len { length result.now.bits ≡ length self.now.values }
    {
        &self.valid
    }

    /// Returns the number of null values.
    pub fn null_count(&self) -> usize
        ensures { result ≡ count (complement self.now.valid) }
    {
        self.valid.false_count()
    }

    /// Returns the sum of the values that aren't null. The column must have fewer than `2^32` rows.
    pub fn sum(&self) -> u64
        requires few { length self.now.values < 2 ^ 32 }
        ensures { result ≡ sum (kept_by self.now.valid self.now.values) }
    {
        masked_sum(&self.values, &self.valid)
    }

    /// Returns the least and the greatest value that isn't null; `None` if all are null.
    pub fn min_max(&self) -> Option<(u32, u32)>
        ensures { AreEnds (kept_by self.now.valid self.now.values) result }
    {
        masked_min_max(&self.values, &self.valid)
    }
}
