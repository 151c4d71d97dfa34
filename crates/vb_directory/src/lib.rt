//! The counts of a directory: the number of set bits before each block of 512 bits, by groups of
//! 128 blocks.
//!
//! [`Counts`] has no bits: a rank or select gets a view of the bits that were counted, so any owner
//! of bits can keep their counts next to them. An edit of the bits changes the later counts of its
//! group, and one count for each later group. Ranks and selects read few bits, as those of
//! `vb_rank` over a table do.
//!
//! Within this crate a rank or select is generic over a source of counts, and can read a count only
//! by a probe of the source. Other crates can read counts only by the ranks and selects of
//! [`Counts`]. Lengths, offsets and indices are in bits. A "must" in a docstring is a condition
//! that the caller has to prove.
#![tactic(auto)]

mod count_added;
mod counts;
mod groups;
mod probe_groups;
mod questions;
mod select_each;
mod size;
#[cfg(test)]
mod tests;

pub use counts::Counts;
pub use size::{BEFORE_DIGITS, GROUP_BITS, GROUP_NUMBERS};
