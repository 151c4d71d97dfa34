//! Masks, each with its number of bits.
use std::alloc::Allocator;
use vb_bit_buffer::BitBuffer;
use vb_core::Result;

/// A mask: how many bits it has, the bit of its bytes with which it begins, and which bits of the
/// bytes are true.
#[derive(Clone, Copy)]
pub(crate) struct Row(pub(crate) usize, pub(crate) usize, pub(crate) Kept);

impl Row {
    /// Whether the bit at an index of the mask is true.
    pub(crate) fn has(&self, place: usize) -> bool {
        self.2.has(self.1.saturating_add(place))
    }

    /// How many requests a test makes with this row. `of_none` has the numbers for rows that select
    /// nothing, of 0 bits, 1, 64, 129 or 200, and 1,000. These requests are for copies of the
    /// allocator, the growth of the mask and of the values, and the owners of the result. If the
    /// row selects any value, one more request is for the bytes of the result.
    pub(crate) fn requests(&self, of_none: [u64; 5]) -> u64 {
        let requests = match self.0 {
            0 => of_none[0],
            1 => of_none[1],
            64 => of_none[2],
            129 | 200 => of_none[3],
            _ => of_none[4],
        };
        let keeps = (0..self.0).any(|place| self.has(place));
        requests.saturating_add(u64::from(keeps))
    }
}

/// Masks that keep none, few, some and all of their values.
pub(crate) const ROWS: &[Row] = &[
    Row(0, 0, Kept::OneIn(1)),
    Row(1, 7, Kept::OneIn(1)),
    Row(64, 0, Kept::OneIn(1)),
    Row(200, 3, Kept::OneIn(1)),
    Row(200, 0, Kept::OneIn(2)),
    Row(200, 5, Kept::OneIn(3)),
    Row(1000, 1, Kept::OneIn(64)),
    Row(1000, 0, Kept::OneIn(999)),
    Row(1000, 3, Kept::OneIn(5000)),
    Row(1000, 0, Kept::AllButOneIn(7)),
    Row(1000, 6, Kept::AllButOneIn(64)),
    Row(1000, 3, Kept::AllButOneIn(5000)),
    Row(129, 0, Kept::AllButOneIn(1)),
    Row(1000, 0, Kept::OneIn(5)),
    Row(1000, 2, Kept::OneIn(7)),
    Row(1000, 5, Kept::OneIn(8)),
    Row(1000, 0, Kept::OneIn(10)),
    Row(1000, 4, Kept::OneIn(13)),
    Row(1000, 0, Kept::OneIn(16)),
    Row(1000, 0, Kept::Runs(8, 64)),
    Row(1000, 3, Kept::Runs(9, 64)),
    Row(1000, 0, Kept::Runs(8, 32)),
    Row(1000, 7, Kept::Runs(9, 32)),
    Row(1000, 0, Kept::Runs(12, 17)),
    Row(1000, 1, Kept::Runs(13, 17)),
    Row(1000, 0, Kept::Runs(12, 64)),
    Row(1000, 0, Kept::Runs(13, 64)),
    Row(1000, 6, Kept::Runs(63, 64)),
    Row(1000, 4, Kept::Runs(100, 130)),
];

/// Which bits of the bytes of a mask are true. `OneIn` and `AllButOneIn` count from bit 1 on.
#[derive(Clone, Copy)]
pub(crate) enum Kept {
    OneIn(usize),
    AllButOneIn(usize),
    /// `Runs(first, n)`: the first `first` bits of each `n`, from bit 0 on.
    Runs(usize, usize),
}

impl Kept {
    pub(crate) fn has(self, bit: usize) -> bool {
        match self {
            Kept::OneIn(n) => n > 0 && bit % n == 1 % n,
            Kept::AllButOneIn(n) => n > 0 && bit % n != 1 % n,
            Kept::Runs(first, n) => n > 0 && bit % n < first,
        }
    }
}

/// The mask of a row.
pub(crate) fn mask<A: Allocator + Clone>(alloc: A, row: &Row) -> Result<BitBuffer<A>> {
    let end = row.1.saturating_add(row.0);
    let whole = BitBuffer::from_iter(alloc, (0..end).map(|bit| row.2.has(bit)))?;
    let part = whole.slice(row.1.min(whole.len())..whole.len());
    drop(whole);
    part
}
