//! Comparisons of values as C functions, with the results as bits.
//!
//! A C caller must ensure the same as for `vb_c`. A comparison, the `op` of a call, is a number
//! from 0 to 5: equal, not equal, less, less or equal, greater, greater or equal. The checked form
//! next to a function, `vb_try_..`, requires nothing: it returns whether the arguments are good,
//! and leaves everything unchanged if they aren't. Floats compare by IEEE 754. No function
//! allocates.
#![tactic(auto)]

mod code;
pub mod floats;
pub mod signed;
pub mod signed_with;
pub mod unsigned;
pub mod unsigned_with;
