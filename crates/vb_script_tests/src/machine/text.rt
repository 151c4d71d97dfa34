//! Texts that lines and answers are added to.
use std::alloc::Global;

/// A text, and whether there was memory for all that was added.
#[derive(Drop)]
pub struct Text {
    text: String,
    is_whole: bool,
}

impl Text {
    /// No text.
    pub fn new(alloc: Global) -> Text {
        Text {
            text: String::new(alloc),
            is_whole: true,
        }
    }

    /// Adds a word.
    pub fn add(&mut self, word: &str) {
        let added = self.text.push_str(word);
        self.is_whole = added.is_ok() && self.is_whole;
    }

    /// Adds a letter.
    pub fn add_letter(&mut self, letter: char) {
        let added = self.text.push(letter);
        self.is_whole = added.is_ok() && self.is_whole;
    }

    /// Adds a number in decimal.
    pub fn add_number(&mut self, number: usize) {
        let added = write!(self.text, "{number}");
        self.is_whole = added.is_ok() && self.is_whole;
    }

    /// Adds a number, with a comma before it where it isn't the first one.
    pub fn add_item(&mut self, number: usize) {
        if !self.text.is_empty() {
            self.add(",");
        }
        self.add_number(number);
    }

    /// Removes all that was added.
    pub fn clear(&mut self) {
        self.text.clear();
    }

    /// How many bytes were added.
    pub fn len(&self) -> usize {
        self.text.len()
    }

    /// What was added from byte `start` on.
    pub fn added(&self, start: usize) -> &str {
        self.text.as_str().get(start..).unwrap_or("")
    }

    /// The whole text, unless there was no memory for a part of it.
    pub fn whole(&self) -> Option<&str> {
        self.is_whole.then_some(self.text.as_str())
    }
}
