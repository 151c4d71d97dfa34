//! Comparisons as numbers, as C passes them.
ghost use Rattle.std.specs.Prelude.{◌≡◌, ◌↔◌, ◌<◌, IsTrue, length, map};
ghost use Rattle.std.specs.Simd.Lanes.{zip2};
ghost use Rattle.vb_bits.specs.Writes.{Writes};
ghost use Rattle.vb_c_compare.specs.Codes.{comparison_of, CompareFits};
ghost use Rattle.vb_compare.specs.Compares.{compares};

use vb_bits::window_fits;
use vb_compare::{CompareLanes, Comparison, compare_into, compare_with_into};

/// Returns the comparison that `code` represents; `code` must be below 6.
pub(crate) fn comparison_of(code: u8) -> Comparison
    requires { code < 6 }
    ensures { result ≡ comparison_of code }
{
    match code {
        0 => Comparison::Equal,
        1 => Comparison::NotEqual,
        2 => Comparison::Less,
        3 => Comparison::LessOrEqual,
        4 => Comparison::Greater,
        _ => Comparison::GreaterOrEqual,
    }
}

/// Returns whether the `n` bits from bit `o` on are in the bytes, and `code` is below 6.
pub(crate) fn fits(out: &[u8], o: usize, n: usize, code: u8) -> bool
    ensures { IsTrue result ↔ CompareFits out.now o n code }
{
    window_fits(out, o, n) && code < 6
}

/// Writes to bit `o + k` of `out`, for each `k` below the number of values, whether `values[k]`
/// compares with `number` by `op`. Stores only the bytes that have one of these bits.
pub(crate) fn compare<T: CompareLanes>(out: &mut [u8], o: usize, values: &[T], op: u8, number: T)
    requires { CompareFits out.old o (length values.now) op }
    ensures { Writes out.old out.new o
        (map (λ value. compares (comparison_of op) (T.number value) (T.number number)) values.now) }
{
    let window = &mut out[o / 8..(o + values.len()).div_ceil(8)];
    compare_into(window, o % 8, values, comparison_of(op), number);
}

/// Writes to bit `o + k` of `out`, for each `k` below the number of values, whether `values[k]`
/// compares with `others[k]` by `op`. Stores only the bytes that have one of these bits.
pub(crate) fn compare_with<T: CompareLanes>(
    out: &mut [u8],
    o: usize,
    values: &[T],
    op: u8,
    others: &[T],
)
    requires others { length others.now ≡ length values.now }
    requires window { CompareFits out.old o (length values.now) op }
    ensures { Writes out.old out.new o
        (zip2 (λ left right. compares (comparison_of op) (T.number left) (T.number right))
        values.now others.now) }
{
    let window = &mut out[o / 8..(o + values.len()).div_ceil(8)];
    compare_with_into(window, o % 8, values, comparison_of(op), others);
}
