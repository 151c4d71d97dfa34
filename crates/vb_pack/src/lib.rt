//! Packs truth values, from a closure or a slice, into words and bytes, least significant bit
//! first.
//!
//! Calls borrow the closure. They call it exactly once for each index, in ascending order, and
//! their contracts state its results and its final state. No call allocates.
#![tactic(auto)]

mod bytes;
mod collect;
mod map;
mod pack;
mod truths;
mod words;

pub use bytes::{collect_bool_bytes, pack_bools, pack_truthy};
pub use collect::{collect_bool_word, collect_bool_word_scalar};
pub use map::map_bool_bytes;
pub use pack::{pack_bool_word_lanes, pack_bool_word_swar};
pub use words::{
    collect_bool_words, collect_bool_words_multiversioned, pack_bools_into_words,
    splice_word_at_bit,
};
