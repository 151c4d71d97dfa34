//! Counts the set bits of a window. Contracts also count the looks, which are reads of the bytes.
//!
//! A window is the `len` bits from bit `offset` on, least significant first. The caller must prove
//! that it is in bounds and that `offset + len` fits in a `usize`; `vb_bits::window_fits` tests
//! both at run time. Counts are of bits. No call allocates.
//!
//! Counting reads a [`Glance`], a source of bytes that counts its reads: see [`count_ones_by`] for
//! the exact number, and [`most_looks`] for a bound on it.
#![tactic(auto)]

mod chunk;
mod count;
mod counter;
mod ghost_count;
mod glance;
mod lane_sum;
mod looks;
mod ones;
mod rest;
mod sums;
mod unit;
mod word;

pub use chunk::chunk_ones;
pub use count::{add_chunks, count_ones, count_ones_by, count_ones_wide};
pub use ghost_count::GhostCount;
pub use glance::{Glance, Plain, Tally, Wide};
pub use lane_sum::LaneSum;
pub use looks::{first_look, last_look, most_looks};
pub use unit::Unit;
pub use word::{byte_part, digit_ones, matching_word};
