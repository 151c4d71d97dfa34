//! The types that the C functions return, the contracts of their checked forms, and copies of bits
//! to bytes whose neighbors other threads may write. The crates of C functions share these.
#![tactic(auto)]

mod copy;
mod place;
mod taken;

pub use copy::{copy_to_window, move_to_window, write_to_window};
pub use place::Place;
pub use taken::Taken;
