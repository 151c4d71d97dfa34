//! Test doubles: an allocator that counts requests and refuses one, a reader and a writer that
//! fault once, and runs that refuse each request in turn. Only tests use this crate.
#![tactic(auto)]

mod faulty;
mod handle;
mod in_turn;
mod refusing;
#[cfg(test)]
mod trials;

pub use faulty::{FaultyReader, FaultyWriter};
pub use handle::Handle;
pub use in_turn::InTurn;
pub use refusing::Refusing;
