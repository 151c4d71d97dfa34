//! Takes (gathers) bits and values at indices, over slices. [`set_bits_at`] is re-exported from
//! `vb_bits`.
//!
//! A position is the position of an index among the indices. Lengths and indices are in bits, or in
//! values. A "must" in a docstring is a condition that the caller has to prove. No call allocates.
#![tactic(auto)]

mod block;
mod take;
mod take_values;
mod valid;

pub use take::{take_into, take_into_at};
pub use take_values::take_values_into;
pub use vb_bits::set_bits_at;
