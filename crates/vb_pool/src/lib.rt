//! A pool of sixteen slots for sets of bits, and the commands on it.
//!
//! [`run`] runs a list of [`Command`]s, and [`Pool::serve`] runs one. The answers are the same as
//! with a plain list of truth values in each slot: contracts see a [`Pool`] only as the list of the
//! contents of its slots.
#![tactic(auto)]

mod edit;
mod freeze;
mod import;
mod lists;
mod make;
mod open_bits;
mod operator;
mod pool;
mod question;
mod range;
mod refused;
mod serve;
mod sixteen;
mod slot;
mod take;

pub use pool::Pool;
pub use serve::run;
