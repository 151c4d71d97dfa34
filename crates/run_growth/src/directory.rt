//! Calls on sets with counts, whose steps `tools/growth` counts.
mod asked;
mod edited;
mod tables;

use crate::input::Case;
use anyhow::{Result, bail};
use std::alloc::Global;

/// The rows: each is a family and a call. The calls of a family have the same input.
pub const ROWS: &[&str] = &[
    "ranked rank",
    "ranked select",
    "ranked select_unset",
    "ranked select_many",
    "ranked select_unset_many",
    "ranked as_view",
    "ranked clone",
    "ranked_buffer rank",
    "ranked_buffer select",
    "ranked_buffer select_unset",
    "ranked_buffer select_many",
    "ranked_buffer select_unset_many",
    "ranked_buffer as_view",
    "ranked_buffer clone",
    "edited set_to",
    "edited set_to_last",
    "edited append",
    "edited append_n",
    "edited append_view",
    "edited reserve",
    "counted append",
    "counted append_n",
    "counted append_view",
    "counted append_whole_view",
    "tables new",
    "tables new_buffer",
    "tables freeze",
    "tables table_of",
    "tables rank_by",
    "tables select_by",
    "tables select_unset_by",
];

/// Makes the calls of a row, and returns a sum of their results.
pub fn measure(alloc: Global, family: &str, row: &str, case: Case) -> Result<usize> {
    match family {
        "ranked" => asked::measure(alloc, row, case),
        "ranked_buffer" => asked::measure_buffer(alloc, row, case),
        "edited" => edited::measure(alloc, row, case),
        "counted" => edited::grown(alloc, row, case),
        "tables" => tables::measure(alloc, row, case),
        _ => bail!("no family of this name"),
    }
}
