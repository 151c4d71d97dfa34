//! Selects bits of a window by rank, and finds the first bit from an index on and the last one
//! before an index. Contracts count the looks, which are reads of the bytes.
//!
//! A window is the `len` bits from bit `offset` on, least significant first. The caller must prove
//! that it is in bounds and that `offset + len` fits in a `usize`; `vb_bits::window_fits` tests
//! both at run time. Indices and counts are of bits, and indices are relative to the window. No
//! call allocates.
//!
//! The calls whose names end in `_by` read a `Glance`, a source of bytes that counts its reads;
//! `vb_count::most_looks` bounds these. Apart from the selects, they stop at the bit that decides:
//! their looks are at most those of a count of the bits that they search, that bit included.
#![tactic(auto)]

mod chunk;
mod last;
mod matches;
mod nearest;
mod next;
mod parts;
mod search;
mod select;
mod unit;

pub use last::{
    last_set_index, last_set_index_by, previous_set, previous_set_by, previous_unset,
    previous_unset_by,
};
pub use next::{
    all_set, all_set_by, any_set, any_set_by, next_set, next_set_by, next_unset, next_unset_by,
};
pub use select::{
    bit_select, bit_select_by, bit_select_unset, bit_select_unset_by, bit_select_unset_wide,
    bit_select_wide,
};
