//! Counts the set bits of two combined windows, and tests whether the windows have a common set bit
//! or the right one has all set bits of the left one.
//!
//! The left window is the `len` bits from bit `l` of the left bytes on, the right one those from
//! bit `r` of the right bytes on. The caller must prove that both are in bounds and that `l + len`
//! and `r + len` fit in a `usize`; `vb_bits::window_fits` tests both at run time. No call allocates
//! or writes.
#![tactic(auto)]

mod count_beside;
mod count_merged;
mod operator;
mod relation;

pub use operator::{
    and_count, and_count_by, andnot_count, andnot_count_by, or_count, or_count_by, xor_count,
    xor_count_by,
};
pub use relation::{is_disjoint, is_disjoint_by, is_subset, is_subset_by};
