//! Lists that must have the same length.
ghost use Rattle.std.specs.Prelude.{◌≡◌};
ghost use Rattle.std.specs.Option.{option_map};
ghost use Rattle.vb_gather.specs.OneLength.{first_other, length_or};
ghost use Rattle.vb_view.specs.View.{bits_of};

use vb_view::BitBufferView;

/// Returns the length of a validity if there is one, else `len`.
pub(crate) fn len_or(len: usize, validity: Option<BitBufferView<'_>>) -> usize
    ensures { result ≡ length_or len (option_map bits_of validity.entry) }
{
    match validity {
        Some(valid) => valid.len(),
        None => len,
    }
}

/// Returns the first of the lengths that differs from `len`, if there is one.
pub(crate) fn other_len(len: usize, lens: &[usize]) -> Option<usize>
    ensures { result ≡ first_other len lens.now }
{
    lens.iter().copied().find(|other| *other != len)
}
