//! Lines read by splitting them at their spaces.
use crate::machine::commands::form_of;
use crate::machine::form::{Form, Kind};

/// The word at an index of a line, or no text if the line has fewer words.
pub(crate) fn word(text: &str, place: usize) -> &str {
    let mut words = text.split(' ').filter(is_not_empty);
    words.nth(place).unwrap_or("")
}

fn is_not_empty(word: &&str) -> bool {
    !word.is_empty()
}

/// Returns the number that a word is. If it isn't one, returns `usize::MAX`, which is neither a
/// slot nor an index of a list.
pub(crate) fn number(word: &str) -> usize {
    word.parse().unwrap_or(usize::MAX)
}

/// Returns the index that a word is. One below 0 gives `usize::MAX`, which is out of range.
pub(crate) fn index(word: &str) -> usize {
    usize::try_from(word.parse().unwrap_or(-1i64)).unwrap_or(usize::MAX)
}

/// What a line is.
#[derive(Clone, Copy)]
pub enum Line<'a> {
    /// It is this command.
    Command(Call<'a>),
    /// It has no words, or is a comment.
    Skipped,
    /// It can't be read.
    Unreadable,
}

/// A line that is a command.
#[derive(Clone, Copy)]
pub struct Call<'a> {
    /// Its first word.
    pub name: &'a str,
    /// All of the line.
    pub text: &'a str,
    /// Which words it has, and what becomes of its list.
    pub form: &'static Form,
}

/// Reads a line.
pub fn read(text: &str) -> Line<'_> {
    let name = word(text, 0);
    if !text.is_ascii() {
        return Line::Unreadable;
    }
    if name.is_empty() || name.starts_with('#') {
        return Line::Skipped;
    }
    match form_of(name) {
        Some(form) if has_words(text, form.1) => Line::Command(Call { name, text, form }),
        _ => Line::Unreadable,
    }
}

/// Whether the words behind the name are of these kinds.
fn has_words(text: &str, kinds: &[Kind]) -> bool {
    for (kind, place) in kinds.iter().zip(1..) {
        if !is_word(*kind, word(text, place)) {
            return false;
        }
    }
    word(text, kinds.len().saturating_add(1)).is_empty()
}

fn is_word(kind: Kind, word: &str) -> bool {
    if word == "-" {
        return matches!(
            kind,
            Kind::Validity | Kind::Hex | Kind::Numbers | Kind::Indexes
        );
    }
    match kind {
        Kind::Truth => matches!(word, "0" | "1"),
        Kind::Mode => matches!(word, "ref" | "own"),
        Kind::Hex => is_hex(word),
        Kind::Numbers => word.split(',').all(is_number),
        Kind::Indexes => word.split(',').all(is_index),
        _ => is_number(word),
    }
}

/// Whether a word is one or more bytes, of two hexadecimal digits each.
fn is_hex(word: &str) -> bool {
    let are_digits = word.as_bytes().iter().all(u8::is_ascii_hexdigit);
    are_digits && !word.is_empty() && word.len().is_multiple_of(2)
}

fn is_number(word: &str) -> bool {
    word.parse::<usize>().is_ok() && !word.starts_with('+')
}

fn is_index(word: &str) -> bool {
    word.parse::<i64>().is_ok() && !word.starts_with('+')
}

impl Call<'_> {
    /// The word at an index; the name has index 0.
    pub(crate) fn word(&self, place: usize) -> &str {
        word(self.text, place)
    }

    /// The number at an index of the words. A word for true is 1.
    pub(crate) fn number(&self, place: usize) -> usize {
        number(self.word(place))
    }

    /// Returns the items of the list that is the last word; no items for a dash.
    pub(crate) fn items(&self) -> &str {
        match self.word(self.form.1.len()) {
            "-" => "",
            items => items,
        }
    }

    /// The slot that the list is put into: the one that has to be empty, or else the first one.
    pub(crate) fn target(&self) -> usize {
        for (kind, place) in self.form.1.iter().zip(1..) {
            if matches!(kind, Kind::Vacant) {
                return self.number(place);
            }
        }
        self.number(1)
    }

    /// Returns which word names the slot whose list the command takes before it requests memory;
    /// None if it takes none.
    pub(crate) fn given(&self) -> Option<usize> {
        match (self.name, self.word(1)) {
            ("freeze" | "thaw", _) => Some(1),
            (_, "own") => Some(2),
            _ => None,
        }
    }
}
