//! Counts and sums by group, over slices: each row has a code, the number of its group.
//!
//! A row is selected if its bit of the mask is true, or if there is no mask. The codes of the other
//! rows are ignored. A "must" in a docstring is a condition that the caller has to prove. No call
//! allocates.
#![tactic(auto)]

mod addition;
mod check;
mod group;
mod rows;
mod undo;
mod widen;

pub use group::{group_counts, group_sums};
pub use widen::{Widen, WrappingMinus};
