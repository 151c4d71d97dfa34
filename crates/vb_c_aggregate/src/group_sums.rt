//! Sums by group. Each file has the functions for codes of one width.
pub mod by_u16;
pub mod by_u32;
pub mod by_u8;
