//! Re-exports calls of `vb_bits`, `vb_pack`, `vb_count`, `vb_pair` and `vb_select`: kernels over
//! the bits of a slice.
//!
//! A window is the `len` bits from bit `offset` on, least significant first. The caller must prove
//! that it is in bounds and that `offset + len` fits in a `usize`; [`window_fits`] tests both at
//! run time. Indices and counts are of bits, and indices are relative to the window. No call
//! allocates.
//!
//! The calls whose names end in `_by` read a [`Glance`], a source of bytes that counts its reads:
//! see [`count_ones_by`] for the exact number, and [`most_looks`] for a bound on it. Those that
//! search for the nearest bit, or test the bits of a window, stop at the bit that decides.
#![tactic(auto)]

pub use vb_bits::{
    BitOp, copy_bits, equal_bits, fill_bits, full_word, get_bit, get_bit_unchecked, map_words,
    read_bits, read_u64_le, set_bit_to, set_bit_unchecked, unset_bit_unchecked, window_fits,
    zip_words,
};
pub use vb_count::{
    Glance, Plain, Tally, Wide, count_ones, count_ones_by, count_ones_wide, most_looks,
};
pub use vb_pack::{
    collect_bool_word, collect_bool_word_scalar, collect_bool_words,
    collect_bool_words_multiversioned, pack_bool_word_lanes, pack_bool_word_swar,
    pack_bools_into_words, splice_word_at_bit,
};
pub use vb_pair::{
    and_count, and_count_by, andnot_count, andnot_count_by, is_disjoint, is_disjoint_by, is_subset,
    is_subset_by, or_count, or_count_by, xor_count, xor_count_by,
};
pub use vb_select::{
    all_set, all_set_by, any_set, any_set_by, bit_select, bit_select_by, bit_select_unset,
    bit_select_unset_by, bit_select_unset_wide, bit_select_wide, last_set_index, last_set_index_by,
    next_set, next_set_by, next_unset, next_unset_by, previous_set, previous_set_by,
    previous_unset, previous_unset_by,
};
