//! The functions over bits of slices as C functions, for programs in other languages.
//!
//! C passes a slice as a pointer and the number of its items. A C caller must ensure that pointers
//! are valid and not null; that an output overlaps no other argument; and that during the call
//! nothing else writes the memory that the function reads, or accesses the memory that it writes.
//! For a slice of no items the C library of bindings/c also takes null, which it replaces. A window
//! is the `len` bits from bit `offset` on, least significant first. Indices are relative to the
//! window.
//!
//! A function has the contract of the kernel that it calls. It requires that windows are in their
//! bytes and that their ends fit in a `usize`, which nothing checks for a C caller. The checked
//! form next to it, `vb_try_..`, requires nothing: it returns whether the arguments are good, and
//! leaves everything unchanged if they aren't. No function allocates.
#![tactic(auto)]

pub mod bit;
pub mod combine;
pub mod count;
pub mod equal;
pub mod nearest;
pub mod rank;
pub mod relation;
pub mod select;
pub mod walk;
pub mod write;
