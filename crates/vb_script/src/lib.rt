//! Sessions: lines of commands in, answers out.
//!
//! [`drive`] reads the lines of a [`Source`], runs their commands on sixteen slots for sets of
//! bits, and writes the answers to a [`Sink`]. [`FromRead`] and [`ToWrite`] make a source and a
//! sink from a reader and a writer of `std`. [`run`] runs a slice of [`Command`]s on a [`Pool`].
#![tactic(auto)]

mod driver;
mod error;
mod fault;
mod feed;
mod lines;
mod outbox;
mod session;
mod sink;
mod source;
mod write;

pub use driver::drive;
pub use error::DriveError;
pub use fault::Fault;
pub use sink::{Sink, ToWrite};
pub use source::{FromRead, Source};
pub use vb_command::{Answer, Command, Mode, Refusal, Unread, command_of};
pub use vb_core::BufferError;
pub use vb_pool::{Pool, run};
