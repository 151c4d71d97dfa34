//! Calls on values, buffers and masks, whose steps `tools/growth` counts.
mod aggregated;
mod buffers;
mod compared;
mod filtered;
mod grown;
mod moved;
mod packed;
mod taken;
mod texts;

use crate::input::Case;
use anyhow::{Result, bail};
use std::alloc::Global;

/// The rows: each is a family and a call. The calls of a family have the same input.
pub const ROWS: &[&str] = &[
    "filtered bits",
    "filtered u8",
    "filtered u16",
    "filtered u32",
    "filtered u64",
    "filtered deposited",
    "filtered intersect_by_rank",
    "filtered_few bits",
    "filtered_few u8",
    "filtered_few u16",
    "filtered_few u32",
    "filtered_few u64",
    "filtered_few deposited",
    "filtered_all bits",
    "filtered_all u8",
    "filtered_all u16",
    "filtered_all u32",
    "filtered_all u64",
    "filtered_all deposited",
    "aggregated sum_u8",
    "aggregated sum_u32",
    "aggregated sum_u64",
    "aggregated wrapping_u32",
    "aggregated checked_u32",
    "aggregated min_u32",
    "aggregated max_u32",
    "aggregated_few sum_u32",
    "aggregated_few min_u32",
    "aggregated_all sum_u8",
    "aggregated_all sum_u32",
    "aggregated_all sum_u64",
    "aggregated_all min_u32",
    "taken bits",
    "taken valid_bits",
    "taken u8",
    "taken u16",
    "taken u32",
    "taken u64",
    "taken valid_u32",
    "compared u8",
    "compared u16",
    "compared u32",
    "compared u64",
    "compared with_u32",
    "compared with_u64",
    "compared valid_u32",
    "compared and_kleene",
    "compared or_kleene",
    "packed pack_bools",
    "packed pack_truthy",
    "packed filter_values_into",
    "packed collect_bool_words",
    "packed collect_bool_bytes",
    "packed map_bool_bytes",
    "packed pack_bools_into_words",
    "moved retain_values",
    "moved scatter_values_into",
    "moved unpack_bytes",
    "buffers clone",
    "buffers slice_unaligned",
    "buffers freeze",
    "buffers items_mut",
    "buffers into_vec",
    "buffers push",
    "buffers push_n",
    "buffers extend_from_slice",
    "buffers reserve",
    "buffers pop",
    "buffers truncate",
    "grown_buffers push",
    "grown_buffers push_n",
    "grown_buffers extend_from_slice",
    "grown_buffers reserve",
    "grown_buffers extend",
    "grown_buffers extend_trusted",
    "grown_buffers resize",
    "owners text",
    "owners fixed",
];

/// Makes the calls of a row, and returns a sum of their results.
pub fn measure(alloc: Global, family: &str, row: &str, case: Case) -> Result<usize> {
    match family {
        "filtered" => filtered::by_half(alloc, row, case),
        "filtered_few" => filtered::by_few(alloc, row, case),
        "filtered_all" => filtered::by_all(alloc, row, case),
        "aggregated" => aggregated::by_half(alloc, row, case),
        "aggregated_few" => aggregated::by_few(alloc, row, case),
        "aggregated_all" => aggregated::by_all(alloc, row, case),
        "taken" => taken::measure(alloc, row, case),
        "compared" => compared::measure(alloc, row, case),
        "packed" => packed::measure(alloc, row, case),
        "moved" => moved::measure(alloc, row, case),
        "buffers" => buffers::measure(alloc, row, case),
        "grown_buffers" => grown::measure(alloc, row, case),
        "owners" => texts::measure(alloc, row, case),
        _ => bail!("no family of this name"),
    }
}
