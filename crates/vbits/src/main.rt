//! Reads commands from standard input and writes the answers to standard output.
//!
//! The exit status is 0 if the program answered the whole input, 2 if it could not parse a line,
//! and 3 if a read, a write or an allocation failed; standard error says which. If standard input
//! is a terminal, a first line on standard error says what the program reads.
#![tactic(auto)]

mod report;
#[cfg(test)]
mod tests;

use report::{Complaint, WAITS, status};
use std::io::{self, IsTerminal};
use std::process::ExitCode;
use vb_script::{FromRead, ToWrite, drive};

fn main(rt: HostRuntime) -> ExitCode {
    let reader = rt.reader();
    if reader.is_terminal() {
        // If standard error fails, the session continues without this line.
        let _ = eprintln!(rt; "{}", WAITS);
    }
    let mut input = FromRead::new(reader);
    let mut output = ToWrite::new(io::writer(&rt));
    let ended = drive(rt.alloc(), &mut input, &mut output);
    if let Err(error) = ended {
        // If standard error fails too, only the status says what happened.
        let _ = eprintln!(rt; "{}", Complaint(error));
    }
    ExitCode::from(status(ended))
}
