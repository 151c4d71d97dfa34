//! Answers a query over a CSV file by the calls of `vortex_buffer`, and draws it: see `--help`.
//!
//! The exit status is 0 if the run succeeded or the reader of standard output closed the pipe,
//! which ends the run; 1 if the row of `--nth` doesn't exist; and 2 after an error, which is on
//! standard error.
#![tactic(auto)]

mod args;
mod outputs;
mod query;
mod run;
mod texts;

use args::{HELP, Options};
use query_csv::{Failure, Result};
use run::{Outcome, run_with};
use std::env;
use std::process::ExitCode;
use std::rt::{Env, Files};
use texts::print;

/// The exit status if the row of `--nth` doesn't exist.
const NO_ROW: u8 = 1;

/// The exit status after an error.
const FAILED: u8 = 2;

fn main(rt: HostRuntime) -> ExitCode {
    match answer(&rt) {
        Ok(Outcome::Done) | Err(Failure::Closed) => ExitCode::SUCCESS,
        Ok(Outcome::NoRow) => ExitCode::from(NO_ROW),
        Err(failure) => {
            tell(&rt, failure);
            ExitCode::from(FAILED)
        }
    }
}

fn answer<R: Files + Print + Eprint + Env + AllocGlobal + Drop>(rt: &R) -> Result<Outcome> {
    let words = arguments(rt)?;
    let options = Options::parse(rt.alloc(), words.as_slice().get(1..).unwrap_or(&[]));
    drop(words);
    let Some(options) = options? else {
        print(rt, HELP.as_bytes())?;
        return Ok(Outcome::Done);
    };
    let outcome = run_with(rt, &options);
    drop(options);
    outcome
}

/// Returns the words of the command line.
fn arguments<R: Env + AllocGlobal>(rt: &R) -> Result<Vec<String>> {
    match env::args(rt) {
        Ok(words) => Ok(words.collect(rt.alloc())?),
        Err(error) => {
            let alloc = rt.alloc();
            Err(query_csv::told(format!(in alloc; "the command line can't be read: {error}")))
        }
    }
}

/// Prints a failure to standard error.
fn tell<R: Eprint>(rt: &R, failure: Failure) {
    // Nobody reads it if standard error is closed.
    let _ = match failure {
        Failure::Told(text) => {
            let told = eprintln!(rt; "{text}");
            drop(text);
            told
        }
        Failure::Memory => eprintln!(rt; "out of memory"),
        Failure::Closed => Ok(()),
    };
}
