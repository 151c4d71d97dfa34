//! Bits and values built from others, as C functions. Bits: filters, deposits, takes, packs of
//! truth values, `and` and `or` of truth values that may be null, and bits unpacked to bytes.
//! Values: those that a mask selects, also in place, values scattered by a mask, and values at
//! indices.
//!
//! A C caller must ensure the same as for `vb_c`: a slice is a pointer and the number of its items.
//! A function has the contract of the kernel that it calls. One that writes bits writes them from
//! any bit on, so that the results of batches need no copy to be joined; but the packs whose names
//! end in `_padded` write whole bytes, from the first one on. A value has 1, 2, 4, 8 or 16 bytes.
//! It is passed as a whole number of that size, or as two of eight bytes for 16, whatever it means:
//! no function interprets its bits. The checked form next to a function, `vb_try_..`, requires
//! nothing: it returns whether the arguments are good, and leaves everything unchanged if they
//! aren't. No function allocates.
#![tactic(auto)]

pub mod deposit;
pub mod filter_bits;
pub mod filter_values;
pub mod kleene;
pub mod pack;
pub mod retain;
pub mod scatter;
pub mod take_bits;
pub mod take_values;
pub mod unpack;
pub mod wide;
