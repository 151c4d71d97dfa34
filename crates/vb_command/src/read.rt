//! Lines, and their commands.
mod arguments;
mod field;
mod hex;
mod line;
mod listed;
mod mode;
mod number;
mod spaces;
mod split;
mod truth;
mod words;

pub use line::{command_of, command_within};
