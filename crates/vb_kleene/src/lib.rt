//! `and` and `or` of truth values that may be null, by three-valued logic, over slices.
//!
//! Lengths, offsets and indices are in bits. A "must" in a docstring is a condition that the caller
//! has to prove. No call allocates.
#![tactic(auto)]

mod column;
mod combine;
mod kleene;
mod known;
mod write;

pub use kleene::{and_kleene_into, or_kleene_into};
