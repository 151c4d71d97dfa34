//! Bits unpacked to bytes, and values scattered by a mask, over slices.
//!
//! Lengths, offsets and indices are in bits, or in values. A "must" in a docstring is a condition
//! that the caller has to prove. No call allocates.
#![tactic(auto)]

mod scatter;
mod unpack;

pub use scatter::scatter_values_into;
pub use unpack::unpack_bytes;
