//! Iterates over the runs of set bits.
ghost use Rattle.std.specs.Prelude.{◌≡◌, length, ℕ, ◌+◌, ◌-◌, ◌*◌, ◌^◌, ◌<◌, ◌≤◌, All};
ghost use Rattle.std.specs.Iterator.{YieldsFirst, item_count};
ghost use Rattle.vb_bits.specs.Bits.{bits};
ghost use Rattle.vb_bits.specs.InBytes.{InBytes};
ghost use Rattle.vb_bits.specs.Runs.{runs};
ghost use Rattle.vb_walk.specs.Walks.{IsCursor, TakesRun};

use crate::cursor::Cursor;
use crate::ones::{lowest_ones, lowest_run};
use std::marker::Model;

/// An iterator over the runs of set bits of a window, in ascending order. Each run is as long as
/// possible: a pair `(start, end)` of indices in bits relative to the window, `end` excluded.
///
/// Contracts see the list of the remaining runs.
#[derive(Clone, Debug, Drop)]
pub struct BitSliceIterator<'a> {
    bytes: &'a [u8],
    cursor: Cursor,
}

impl<'a> Model for BitSliceIterator<'a> {
    ghost use Rattle.std.specs.Prelude.{List, ℕ};

    ghost Value = { List (ℕ × ℕ) };

    ghost use Rattle.vb_walk.specs.Walks.{runs_left, IsCursor};

    ghost view = { λ it. runs_left it.bytes.now it.cursor };

    ghost invariant = { λ it. IsCursor it.bytes.now it.cursor };
}

impl<'a> BitSliceIterator<'a> {
    /// Returns an iterator over the runs in the window of `len` bits from bit `offset` on. The
    /// caller must prove that the window is in bounds and that `offset + len` fits in a `usize`.
    #[inline]
    pub fn new(bytes: &'a [u8], offset: usize, len: usize) -> Self
        requires window { InBytes bytes.now offset len }
        ensures value { result ≡ runs (bits bytes.now offset len) }
        ensures within { All (λ run. (run.0 < run.1) × (run.1 ≤ len)) result }
        ensures few { length result ≤ len }
    {
        BitSliceIterator {
            bytes,
            cursor: Cursor::new(bytes, offset, len),
        }
    }
}

impl Iterator for BitSliceIterator<'_> {
    type Item = (usize, usize);

    ghost next_gives = { YieldsFirst (λ rest. rest) };

    ghost remaining = { item_count (λ rest. rest) };

    #[inline(always)]
    fn next(&mut self) -> Option<(usize, usize)> {
        self.cursor = self.cursor.skip_zeros(self.bytes);
        if self.cursor.word == 0 {
            return None;
        }
        let run = take_run(self.bytes, self.cursor);
        self.cursor = run.cursor;
        Some((run.start, run.end))
    }
}

/// A run, and the position of the walk after it.
#[derive(Clone, Copy)]
pub(crate) struct TakenRun {
    cursor: Cursor,
    start: usize,
    end: usize,
}

/// Returns the lowest run of the current word, which isn't 0. If the run continues after the word,
/// it ends in the next word that isn't all ones.
#[inline(always)]
fn take_run(bytes: &[u8], cursor: Cursor) -> TakenRun
    requires valid { IsCursor bytes.now cursor }
    requires some { 0 < cursor.word }
    ensures { TakesRun bytes.now cursor result }
{
    let run = lowest_run(cursor.word);
    let start = cursor.base + run.start;
    let end = cursor.base + run.end;
    let rest = Cursor {
        word: run.rest,
        ..cursor
    };
    if end < cursor.next || !cursor.has_more() {
        return TakenRun {
            cursor: rest,
            start,
            end,
        };
    }
    let far = rest.refill(bytes, true);
    let (ones, word) = lowest_ones(far.word);
    TakenRun {
        cursor: Cursor { word, ..far },
        start,
        end: far.base + ones,
    }
}
