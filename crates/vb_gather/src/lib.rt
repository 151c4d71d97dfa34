//! Sets and buffers in new storage, made by masks, indices, comparisons and three-valued logic.
//!
//! [`Filter::filtered`] keeps the bits of a set, or the items of a buffer, whose bit in a mask is
//! true. [`Deposit::deposited`] scatters bits to the true indices of a mask, and
//! `intersect_by_rank` is the same with the roles of mask and bits swapped. [`take_bits`] and
//! [`Take::taken`] gather bits and items at indices. [`compared`] and [`compared_with`] compare
//! values. [`and_kleene`] and [`or_kleene`] combine truth values, some of which may be null. The
//! kernels over slices are in `vb_filter`, `vb_take`, `vb_compare`, `vb_kleene` and `vb_bits`. A
//! "must" in a docstring is a condition that the caller has to prove.
#![tactic(auto)]

mod compare;
mod deposit;
mod filter;
mod kleene;
mod lengths;
mod take;

pub use compare::{compared, compared_with, try_compared, try_compared_with};
pub use deposit::Deposit;
pub use filter::Filter;
pub use kleene::{and_kleene, or_kleene, try_and_kleene, try_or_kleene};
pub use take::{Take, take_bits};
