//! A directory: a set of bits with counts of its true bits. Every edit keeps the counts exact.
//!
//! [`Ranked`] computes ranks and finds the indices of ranks with few reads of the bits, as
//! `vb_rank` does with a table. It keeps the counts of `vb_directory`, in groups, so that an edit
//! moves few of them. [`RankedBuffer`] does the same for a shared set, which is read-only. A "must"
//! in a docstring is a condition that the caller has to prove.
#![tactic(auto)]

mod append_parts;
mod make_ready;
mod many;
mod ranked;
mod ranked_buffer;
mod room;

pub use ranked::Ranked;
pub use ranked_buffer::RankedBuffer;
