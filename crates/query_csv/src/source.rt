//! A text of the command line, and errors at a position of it.
use crate::error::{Failure, told};
use crate::text::visible;
use std::alloc::{AllocError, Global};

/// A text of the command line, with the option that it belongs to.
#[derive(Clone, Copy)]
pub struct Source<'a> {
    /// The option.
    pub option: &'a str,
    /// Its value.
    pub text: &'a str,
}

impl<'a> Source<'a> {
    /// Returns the error at byte `at` of the text: the message, and the line of the text with a
    /// caret below the position.
    pub fn wrong(self, alloc: Global, at: usize, message: &str) -> Failure {
        told(self.pointed(alloc, at, message))
    }

    /// Returns the error at byte `at` where `what` is wanted.
    pub fn wanted(self, alloc: Global, at: usize, what: &str) -> Failure {
        match format!(in alloc; "{what} is wanted here") {
            Ok(message) => {
                let failure = self.wrong(alloc, at, message.as_str());
                drop(message);
                failure
            }
            Err(_) => Failure::Memory,
        }
    }

    fn pointed(self, alloc: Global, at: usize, message: &str) -> Result<String, AllocError> {
        let (line, before) = self.line_at(alloc, at)?;
        let option = self.option;
        let pointed = format!(in alloc; "{option}: {message}\n  {line}\n  {before}^");
        drop((line, before));
        pointed
    }

    /// Returns the line of a position, and a space for each character before the position.
    fn line_at(self, alloc: Global, at: usize) -> Result<(String, String), AllocError> {
        let mut line = String::new(alloc);
        let mut before = String::new(alloc);
        for (place, character) in self.text.char_indices() {
            if character == '\n' && place >= at {
                break;
            }
            if character == '\n' {
                line.clear();
                before.clear();
                continue;
            }
            line.push(visible(character))?;
            if place < at {
                before.push(' ')?;
            }
        }
        Ok((line, before))
    }
}
