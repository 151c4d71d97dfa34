//! The positions that count, by a validity.
ghost use Rattle.std.specs.Prelude.{◌≡◌, ℕ, ◌+◌, ◌<◌, ◌≤◌, length};
ghost use Rattle.std.specs.Option.{ForSome, option_map};
ghost use Rattle.vb_bits.specs.Digits.{has_bit};
ghost use Rattle.vb_take.specs.Takes.{is_valid};
ghost use Rattle.vb_view.specs.View.{bits_of};

use vb_view::{BitBufferView, view_word};

/// Returns whether position `i` counts.
#[inline(always)]
pub(crate) fn is_valid(validity: Option<BitBufferView<'_>>, i: usize) -> bool
    requires { ForSome validity (λ v. i < length (bits_of v)) }
    ensures { result ≡ is_valid (option_map bits_of validity.entry) i }
{
    match validity {
        Some(bits) => bits.value(i),
        None => true,
    }
}

/// Returns a word whose bit `k`, for each `k` below `n`, says whether position `at + k` counts.
#[inline(always)]
pub(crate) fn valid_word(validity: Option<BitBufferView<'_>>, at: usize, n: usize) -> u64
    requires few { n ≤ 64 }
    requires inside { ForSome validity (λ v. at + n ≤ length (bits_of v)) }
    ensures { (k : ℕ) → k < n → has_bit result k
        ≡ is_valid (option_map bits_of validity.entry) (at + k) }
{
    match validity {
        Some(bits) => view_word(bits, at, n),
        None => u64::MAX,
    }
}
