//! Whole numbers and floats, compared by vectors, with the results as bits.
//!
//! [`write_truths`] writes truth values of any kind. Lengths and offsets are in values, or in bits.
//! A "must" in a docstring is a condition that the caller has to prove. No call allocates.
#![tactic(auto)]

mod compare;
mod comparison;
mod few;
mod floats;
mod lanes;
mod test;
mod truths;
mod write;

pub use compare::{compare_into, compare_with_into};
pub use comparison::Comparison;
pub use floats::{FloatLanes, compare_floats_into, compare_floats_with_into};
pub use lanes::CompareLanes;
pub use truths::Truths;
pub use write::write_truths;
