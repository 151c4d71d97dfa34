//! Texts that are split and printed.
use query_csv::{Failure, Result};
use query_table::file_failure;
use std::alloc::{AllocError, Global};
use std::io::{self, ErrorKind, Write};

/// Writes bytes to standard output.
pub fn print<R: Print + AllocGlobal>(rt: &R, bytes: &[u8]) -> Result<()> {
    match io::writer(rt).write_all(bytes) {
        Ok(()) => Ok(()),
        Err(error) if error.kind() == ErrorKind::BrokenPipe => Err(Failure::Closed),
        Err(error) => Err(file_failure(rt.alloc(), "standard output", &error)),
    }
}

/// Returns the texts before and after the first `=` of a text; None if it has none.
pub fn split_first(
    alloc: Global,
    text: &str,
) -> std::result::Result<Option<(String, String)>, AllocError> {
    for (place, character) in text.char_indices() {
        if character == '=' {
            return Ok(Some(split_at(alloc, text, place)?));
        }
    }
    Ok(None)
}

/// Returns the texts before and after the last `=` of a text; None if it has none.
pub fn split_last(
    alloc: Global,
    text: &str,
) -> std::result::Result<Option<(String, String)>, AllocError> {
    let mut last = None;
    for (place, character) in text.char_indices() {
        if character == '=' {
            last = Some(place);
        }
    }
    match last {
        Some(place) => Ok(Some(split_at(alloc, text, place)?)),
        None => Ok(None),
    }
}

/// Returns the texts before and after the character at byte `at`.
fn split_at(
    alloc: Global,
    text: &str,
    at: usize,
) -> std::result::Result<(String, String), AllocError> {
    let mut before = String::new(alloc);
    let mut behind = String::new(alloc);
    for (place, character) in text.char_indices() {
        if place < at {
            before.push(character)?;
        } else if place > at {
            behind.push(character)?;
        }
    }
    Ok((before, behind))
}
