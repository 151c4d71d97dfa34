//! Calls over windows of bytes, whose steps `tools/growth` counts.
mod counts;
mod searches;
mod walks;
mod writes;

use crate::input::Case;
use anyhow::{Result, bail};
use std::alloc::Global;

/// The rows: each is a family and a call. The calls of a family have the same input.
pub const ROWS: &[&str] = &[
    "counts true_count",
    "counts false_count",
    "counts count_range",
    "counts count_few",
    "counts and_count",
    "counts or_count",
    "counts xor_count",
    "counts andnot_count",
    "counts value",
    "counts slice",
    "near any_set",
    "near all_set",
    "near is_disjoint",
    "near is_subset",
    "near next_set",
    "near next_unset",
    "near previous_set",
    "near previous_unset",
    "near next_set_from",
    "near next_unset_from",
    "near previous_set_before",
    "near previous_unset_before",
    "near last_set_index",
    "near select",
    "near select_unset",
    "far any_set",
    "far all_set",
    "far is_disjoint",
    "far is_subset",
    "far next_set",
    "far next_unset",
    "far previous_set",
    "far previous_unset",
    "far last_set_index",
    "far select",
    "far select_unset",
    "walks iter",
    "walks set_indices",
    "walks set_slices",
    "walks chunks",
    "walks iter_padded",
    "walks unaligned_chunks",
    "walks first_index",
    "walks first_slice",
    "few set_indices",
    "few set_slices",
    "writes fill_bits",
    "writes map_words",
    "writes copy_bits",
    "writes zip_words",
    "writes set_bit_to",
];

/// Makes the calls of a row, and returns a sum of their results.
pub fn measure(alloc: Global, family: &str, row: &str, case: Case) -> Result<usize> {
    match family {
        "counts" => counts::measure(alloc, row, case),
        "near" => searches::near(alloc, row, case),
        "far" => searches::far(alloc, row, case),
        "walks" => walks::mixed_ones(alloc, row, case),
        "few" => walks::few_ones(alloc, row, case),
        "writes" => writes::measure(alloc, row, case),
        _ => bail!("no family of this name"),
    }
}
