//! Sum, minimum and maximum of the values of a slice that a mask selects.
//!
//! Each call reads the mask 64 bits at a time. If all 64 bits are false, it skips 64 values by one
//! test; if all are true, it takes them in a plain loop; else it visits the set bits. No call
//! allocates. A "must" in a docstring is a condition that the caller has to prove.
#![tactic(auto)]

mod extreme;
mod float_extreme;
mod float_sum;
mod float_summand;
mod fold;
mod sum;
mod summand;
mod walk;
mod wide_summand;

pub use extreme::{masked_max, masked_min};
pub use float_extreme::{masked_float_max, masked_float_min};
pub use float_sum::masked_float_sum;
pub use float_summand::FloatSummand;
pub use sum::{masked_checked_sum, masked_sum, masked_wrapping_sum};
pub use summand::Summand;
pub use wide_summand::WideSummand;
