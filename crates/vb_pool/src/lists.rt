//! The bits of a set as lists and as a text, in new memory.
ghost use Rattle.std.specs.Prelude.{◌≡◌, string_bytes};
ghost use Rattle.vb_bits.specs.Shown.{bits_text};
ghost use Rattle.vb_set.specs.Makes.{Makes};
ghost use Rattle.vb_bits.specs.Digits.{digits};
ghost use Rattle.vb_bits.specs.Bits.{places};
ghost use Rattle.vb_bits.specs.Runs.{runs};
ghost use Rattle.vb_set.specs.View.{bits_of};

use std::alloc::Allocator;
use vb_bits::digit;
use vb_set::{BitBuffer, BitBufferView, Result};

/// Returns the list of all bits. Reads them a word at a time. Allocates once. Returns `OutOfMemory`
/// if memory runs out.
pub(crate) fn list_bits<A: Allocator + Clone>(
    alloc: &A,
    view: BitBufferView<'_>,
) -> Result<Vec<bool, A>>
    ensures { Makes (λ list. list.items ≡ bits_of view.entry) result }
{
    let mut list = Vec::with_capacity(alloc.clone()?, view.len())?;
    let chunks = view.chunks();
    for word in chunks.iter() {
        list.extend_from_slice(&list_digits(word))?;
    }
    let rest = list_digits(chunks.remainder_bits());
    list.extend_from_slice(&rest[..chunks.remainder_len()])?;
    Ok(list)
}

/// Returns the digits of a word.
fn list_digits(word: u64) -> [bool; 64]
    ensures { result ≡ digits word 0 64 }
{
    let mut list = [false; 64];
    for k in 0..64 {
        list[k] = digit(word, k);
    }
    list
}

/// Returns the indices of the true bits, in ascending order. Allocates once. Returns `OutOfMemory`
/// if memory runs out.
pub(crate) fn list_places<A: Allocator + Clone>(
    alloc: &A,
    view: BitBufferView<'_>,
) -> Result<Vec<usize, A>>
    ensures { Makes (λ list. list.items ≡ places (bits_of view.entry)) result }
{
    let mut places = Vec::with_capacity(alloc.clone()?, view.true_count())?;
    for place in view.set_indices() {
        places.push(place)?;
    }
    Ok(places)
}

/// Returns the runs of true bits, from the start to the end. Allocates as the list grows. Returns
/// `OutOfMemory` if memory runs out.
pub(crate) fn list_runs<A: Allocator + Clone>(
    alloc: &A,
    view: BitBufferView<'_>,
) -> Result<Vec<(usize, usize), A>>
    ensures { Makes (λ list. list.items ≡ runs (bits_of view.entry)) result }
{
    let mut runs = Vec::new(alloc.clone()?);
    for run in view.set_slices() {
        runs.push(run)?;
    }
    Ok(runs)
}

/// Returns the text of a set's `Display`. Returns `OutOfMemory` if memory runs out.
pub(crate) fn text<A: Allocator + Clone>(alloc: &A, set: &BitBuffer<A>) -> Result<String<A>>
    ensures { Makes (λ text. string_bytes text ≡ bits_text set.now.bits) result }
{
    Ok(format!(in alloc.clone()?; "{set}")?)
}
