//! The nearest bit with a given value, among the bits that one look reads.
ghost use Rattle.std.specs.Prelude.{◌≡◌, ◌+◌, ◌*◌, ◌%◌, ◌<◌, ◌≤◌, length};
ghost use Rattle.vb_bits.specs.Bits.{bits};
ghost use Rattle.vb_count.specs.Hits.{hits};
ghost use Rattle.vb_count.specs.Looks.{LooksExactly, IsLook};
ghost use Rattle.vb_select.specs.Searches.{SelectsNearest, rank_of};

use crate::unit::Searchable;
use vb_bits::select_in_byte;
use vb_count::{Glance, byte_part};

/// Which of several bits with the given value is the nearest one.
#[derive(Clone, Copy)]
pub(crate) enum Nearest {
    /// The first one, for a search towards the back.
    First,
    /// The last one, for a search towards the front.
    Last,
}

impl Nearest {
    /// Returns its rank among `n` bits with the given value.
    fn rank(self, n: usize) -> usize
        requires { 0 < n }
        ensures { result ≡ rank_of self n }
    {
        match self {
            Nearest::First => 0,
            Nearest::Last => n - 1,
        }
    }
}

/// Returns the index of the nearest bit that is `value` among the `len` bits from bit `at` on,
/// which one look reads, or `None` if no bit is `value`. The index is relative to bit `at`.
#[inline(always)]
pub(crate) fn nearest_in_look<G: Glance>(
    src: &mut G,
    at: usize,
    len: usize,
    value: bool,
    which: Nearest,
) -> Option<usize>
    requires look { IsLook at len }
    requires inside { at + len ≤ 8 * length (G.seen src.old).bytes }
    ensures found { SelectsNearest which
        (hits value (bits (G.seen src.old).bytes at len)) result }
    ensures look { LooksExactly 1 (G.seen src.old) (G.seen src.new) }
{
    if len <= 8 {
        nearest_in_byte(src, at, len, value, which)
    } else if len == 64 {
        nearest_in_unit::<[u8; 8], G>(src, at / 8, value, which)
    } else {
        nearest_in_unit::<[u8; 64], G>(src, at / 8, value, which)
    }
}

/// [`nearest_in_look`] of the unit from byte `at` on.
#[inline(always)]
fn nearest_in_unit<U: Searchable, G: Glance>(
    src: &mut G,
    at: usize,
    value: bool,
    which: Nearest,
) -> Option<usize>
    requires { at + U.SIZE ≤ length (G.seen src.old).bytes }
    ensures found { SelectsNearest which
        (hits value (bits (G.seen src.old).bytes (8 * at) (8 * U.SIZE))) result }
    ensures look { LooksExactly 1 (G.seen src.old) (G.seen src.new) }
{
    let unit = U::read(src, at);
    let here = unit.count(value);
    if here == 0 {
        return None;
    }
    Some(unit.select(which.rank(here), value))
}

/// [`nearest_in_look`] of at most eight bits within one byte.
#[inline(always)]
fn nearest_in_byte<G: Glance>(
    src: &mut G,
    at: usize,
    len: usize,
    value: bool,
    which: Nearest,
) -> Option<usize>
    requires some { 0 < len }
    requires in_byte { at % 8 + len ≤ 8 }
    requires inside { at + len ≤ 8 * length (G.seen src.old).bytes }
    ensures found { SelectsNearest which
        (hits value (bits (G.seen src.old).bytes at len)) result }
    ensures look { LooksExactly 1 (G.seen src.old) (G.seen src.new) }
{
    let part = byte_part(src.byte(at / 8), at % 8, len, value);
    let here = part.count_ones() as usize;
    if here == 0 {
        return None;
    }
    Some(select_in_byte(part, which.rank(here)))
}
