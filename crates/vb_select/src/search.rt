//! Searches parts of a window for a bit by its rank.
ghost use Rattle.std.specs.Prelude.{◌≡◌, ◌+◌, ◌*◌, ◌/◌, ◌%◌, ◌<◌, ◌≤◌, min};
ghost use Rattle.vb_select.specs.Searches.{IsWithin, SearchAnswers};
ghost use Rattle.vb_count.specs.Looks.{rest_looks};
ghost use Rattle.vb_count.specs.Looks.{LooksExactly, LooksAtMost};

use crate::unit::Searchable;
use std::ops::ControlFlow;
use vb_bits::select_in_byte;
use vb_count::{Glance, byte_part};

/// The state of a search: it seeks the `n`-th of the bits from index `from` on that are `value`.
#[derive(Clone, Copy)]
pub(crate) struct Search {
    /// The first bit of the window.
    pub(crate) offset: usize,
    /// An index relative to the window.
    pub(crate) from: usize,
    pub(crate) n: usize,
    pub(crate) value: bool,
}

/// Searches `len` bits by words and bytes.
///
/// It is inlined, so that the search isn't passed in memory.
#[inline(always)]
pub(crate) fn find_in_rest<G: Glance>(
    src: &mut G,
    mut search: Search,
    len: usize,
) -> ControlFlow<usize, usize>
    requires aligned { 0 < len → (search.offset + search.from) % 8 ≡ 0 }
    requires within { IsWithin (G.seen src.old).bytes search len }
    ensures found { SearchAnswers (G.seen src.old).bytes search len result }
    ensures looks { LooksAtMost (rest_looks len) (G.seen src.old) (G.seen src.new) }
{
    let bytes_at = search.from + len / 64 * 64;
    let tail_at = search.from + len / 8 * 8;
    search.n = find_in_units::<[u8; 8], G>(src, search, len / 64)?;
    search.from = bytes_at;
    search.n = find_in_units::<u8, G>(src, search, len % 64 / 8)?;
    search.from = tail_at;
    find_in_part(src, search, len % 8)
}

/// Searches `len` bits within one byte.
pub(crate) fn find_in_part<G: Glance>(
    src: &mut G,
    search: Search,
    len: usize,
) -> ControlFlow<usize, usize>
    requires in_byte { 0 < len → (search.offset + search.from) % 8 + len ≤ 8 }
    requires within { IsWithin (G.seen src.old).bytes search len }
    ensures found { SearchAnswers (G.seen src.old).bytes search len result }
    ensures looks { LooksExactly (min len 1) (G.seen src.old) (G.seen src.new) }
{
    if len == 0 {
        return ControlFlow::Continue(search.n);
    }
    let at = search.offset + search.from;
    let part = byte_part(src.byte(at / 8), at % 8, len, search.value);
    let here = part.count_ones() as usize;
    if search.n < here {
        ControlFlow::Break(search.from + select_in_byte(part, search.n))
    } else {
        ControlFlow::Continue(search.n - here)
    }
}

/// Searches this number of units, one by one.
#[inline(always)]
pub(crate) fn find_in_units<U: Searchable, G: Glance>(
    src: &mut G,
    search: Search,
    units: usize,
) -> ControlFlow<usize, usize>
    requires aligned { 0 < units → (search.offset + search.from) % 8 ≡ 0 }
    requires within { IsWithin (G.seen src.old).bytes search (8 * (U.SIZE * units)) }
    ensures found { SearchAnswers (G.seen src.old).bytes search (8 * (U.SIZE * units)) result }
    ensures looks { LooksAtMost units (G.seen src.old) (G.seen src.new) }
{
    let mut left = search.n;
    for k in 0..units {
        let passed = U::SIZE * k;
        let unit = U::read(src, (search.offset + search.from) / 8 + passed);
        let here = unit.count(search.value);
        if left < here {
            let place = unit.select(left, search.value);
            return ControlFlow::Break(search.from + 8 * passed + place);
        }
        left -= here;
    }
    ControlFlow::Continue(left)
}
