//! Filters of bits and values by a mask, over slices, and the deposit that undoes them.
//!
//! A filter selects the bits or values whose bit of the mask is true, in order. Lengths, offsets
//! and indices are in bits, or in values. A "must" in a docstring is a condition that the caller
//! has to prove. No call allocates.
#![tactic(auto)]

mod deposit;
mod digits;
mod fields;
mod filter;
mod filter_elements;
mod filter_values;
mod pending;
mod retain;
mod spread;
mod spread_table;

pub use deposit::deposit_into;
pub use filter::{filter_into, filter_into_at, filter_word};
pub use filter_elements::filter_elements_into;
pub use filter_values::{filter_values_into, filter_word_into};
pub use retain::retain_values;
