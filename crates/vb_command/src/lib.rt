//! Commands over slots of bit sets: the command of a line, the answer to a command, and the text of
//! an answer.
//!
//! `specs/Machine.antt` defines the effect of each command, `specs/Reading.antt` the command of
//! each line, and `specs/Printed.antt` the text of each answer.
#![tactic(auto)]

mod answer;
mod command;
mod mode;
mod print;
mod read;
mod refusal;
mod unread;

pub use answer::Answer;
pub use command::Command;
pub use mode::Mode;
pub use print::Printer;
pub use read::{command_of, command_within};
pub use refusal::Refusal;
pub use unread::Unread;
