//! The inputs of the calls that `tools/growth` measures: a size, a number of calls, and bytes and
//! truth values of that size.
mod bytes;
mod case;
mod windows;

pub use bytes::{bools, filled, mixed, sparse};
pub use case::Case;
pub use windows::window;
