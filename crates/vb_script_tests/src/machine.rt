//! The plain machine, for tests alone: it splits each line at its spaces and keeps a list of truth
//! values for each slot. [`FORMS`] has a row for each command.
mod answer;
mod commands;
mod form;
mod line;
mod list;
mod plain;
mod stop;
mod text;

pub use commands::{FORMS, form_of};
pub use form::{Form, Kind, Memory, Then};
pub use line::{Call, Line, read};
pub use plain::Plain;
pub use text::Text;
