//! Comparisons of floats, by IEEE 754: a NaN equals nothing, not even itself, and is neither less
//! nor greater than anything; the two zeros are equal.

mod compare;
mod eights;
mod lanes;
mod test;
mod truths;

pub use compare::{compare_floats_into, compare_floats_with_into};
pub use lanes::FloatLanes;
