//! Sums, the least and the greatest of the values that a mask selects, and counts and sums by
//! group, as C functions.
//!
//! A C caller must ensure the same as for `vb_c`. A slice is passed as a pointer and the number of
//! its items. Values are floats or whole numbers of 8 to 64 bits. Codes of groups are unsigned
//! numbers of 8 to 32 bits. The mask has a bit for each value or code, from bit `m` on; the
//! functions for groups ignore it if `all_selected` is true. An exact sum is returned as two halves
//! of 64 bits, and an `Option` as a flag and a value. The checked form next to a function,
//! `vb_try_..`, requires nothing: it returns whether the numbers of items fit, and leaves
//! everything unchanged if they don't. No function allocates.
#![tactic(auto)]

pub mod floats;
pub mod group_counts;
pub mod group_sums;
mod grouped;
pub mod optional;
mod selected;
pub mod signed_extremes;
pub mod signed_sums;
pub mod unsigned_extremes;
pub mod unsigned_sums;
pub mod wide;
