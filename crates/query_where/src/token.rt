//! The words of a condition or of a list of answers.
use crate::condition::Sign;
use query_csv::{Failure, Result, Source, float, whole};
use std::alloc::{AllocError, Global};

/// A word, with the byte of the text where it begins.
#[derive(Drop)]
pub struct Token {
    /// The byte where it begins.
    pub at: usize,
    /// The word.
    pub word: Word,
}

/// A word.
#[derive(Drop)]
pub enum Word {
    /// A name without quotes, or a keyword.
    Plain(String),
    /// A name between double quotes.
    Quoted(String),
    /// A text between single quotes.
    Text(String),
    /// A whole number.
    Whole(i64),
    /// Any other number.
    Float(f64),
    /// A comparison.
    Compare(Sign),
    /// `(`
    Open,
    /// `)`
    Close,
    /// `,`
    Comma,
    /// `*`
    Star,
    /// The end of the text.
    End,
}

impl Word {
    /// Returns whether the word is a keyword, in upper or lower case.
    pub fn is(&self, keyword: &str) -> bool {
        match self {
            Word::Plain(word) => word.as_str().eq_ignore_ascii_case(keyword),
            _ => false,
        }
    }

    /// Returns whether the word is the end of the text.
    pub fn is_end(&self) -> bool {
        matches!(self, Word::End)
    }
}

/// Returns the words of a text. The last word is `End`, after the last character that isn't a
/// space.
///
/// Fails at the first character that begins no word, at a malformed number, and at an unclosed
/// quote.
pub fn tokens(alloc: Global, source: Source<'_>) -> Result<Vec<Token>> {
    let mut reader = Letters::new(alloc, source)?;
    let mut tokens = Vec::new(alloc);
    for _ in 0..u64::MAX {
        let token = reader.next_token()?;
        let is_end = token.word.is_end();
        tokens.push(token)?;
        if is_end {
            break;
        }
    }
    drop(reader);
    Ok(tokens)
}

/// The characters of a text, from which words are read.
#[derive(Drop)]
struct Letters<'a> {
    alloc: Global,
    source: Source<'a>,
    /// The characters, each with the byte where it begins.
    characters: Vec<(usize, char)>,
    /// The number of characters that are read.
    read: usize,
    /// The byte behind the last character that isn't a space.
    end: usize,
}

impl<'a> Letters<'a> {
    fn new(alloc: Global, source: Source<'a>) -> std::result::Result<Letters<'a>, AllocError> {
        let mut characters = Vec::new(alloc);
        let mut end = 0usize;
        for (place, character) in source.text.char_indices() {
            characters.push((place, character))?;
            if !character.is_whitespace() {
                end = place.saturating_add(character.len_utf8());
            }
        }
        Ok(Letters {
            alloc,
            source,
            characters,
            read: 0,
            end,
        })
    }

    /// Returns the character `ahead` positions after the next one.
    fn peek(&self, ahead: usize) -> Option<char> {
        let (_, character) = self.characters.get(self.read.saturating_add(ahead))?;
        Some(*character)
    }

    fn skip(&mut self, count: usize) {
        self.read = self.read.saturating_add(count);
    }

    /// Returns the byte at which the next character begins.
    fn at(&self) -> usize {
        match self.characters.get(self.read) {
            Some((place, _)) => *place,
            None => self.end,
        }
    }

    /// Returns the characters that aren't read.
    fn rest(&self) -> &[(usize, char)] {
        self.characters.as_slice().get(self.read..).unwrap_or(&[])
    }

    /// Reads the next word.
    fn next_token(&mut self) -> Result<Token> {
        self.skip(spaces(self.rest()));
        let at = self.at();
        let word = match self.peek(0) {
            Some(character) => self.next_word(at, character)?,
            None => Word::End,
        };
        Ok(Token { at, word })
    }

    /// Reads a word that begins with this character, which is next, at byte `at`.
    fn next_word(&mut self, at: usize, character: char) -> Result<Word> {
        if let Some((sign, count)) = compared_by(character, self.peek(1)) {
            self.skip(count);
            return Ok(Word::Compare(sign));
        }
        match character {
            '\'' | '"' => self.quoted(at, character),
            '0'..='9' | '.' | '-' | '+' => self.number(at),
            _ if is_of_name(character) => self.plain(),
            _ => self.mark(at, character),
        }
    }

    /// Reads a word of one character that is no letter.
    fn mark(&mut self, at: usize, character: char) -> Result<Word> {
        self.skip(1);
        match character {
            '(' => Ok(Word::Open),
            ')' => Ok(Word::Close),
            ',' => Ok(Word::Comma),
            '*' => Ok(Word::Star),
            _ => {
                let message = format!(in self.alloc;
                    "{character:?} begins no word of a condition"
                )?;
                Err(self.wrong(at, message))
            }
        }
    }

    fn plain(&mut self) -> Result<Word> {
        let count = names(self.rest());
        let name = self.take(count)?;
        Ok(Word::Plain(name))
    }

    /// Reads a name or a text between quotes. Two quotes inside it are one.
    fn quoted(&mut self, at: usize, quote: char) -> Result<Word> {
        let mut content = String::new(self.alloc);
        self.skip(1);
        for _ in 0..self.characters.len() {
            let Some(character) = self.peek(0) else {
                break;
            };
            self.skip(1);
            if character != quote {
                content.push(character)?;
                continue;
            }
            if self.peek(0) != Some(quote) {
                return Ok(quoted_word(quote, content));
            }
            self.skip(1);
            content.push(quote)?;
        }
        drop(content);
        let message = format!(in self.alloc; "the quote {quote} is never closed")?;
        Err(self.wrong(at, message))
    }

    fn number(&mut self, at: usize) -> Result<Word> {
        let count = number_length(self.rest());
        let text = self.take(count)?;
        let found = number_word(text.as_str());
        drop(text);
        let is_followed = match self.peek(0) {
            Some(next) => is_of_name(next),
            None => false,
        };
        match found {
            Some(word) if !is_followed => Ok(word),
            _ => self.no_number(at, count),
        }
    }

    /// Returns the error of a malformed number, of which `count` characters are read.
    fn no_number(&mut self, at: usize, count: usize) -> Result<Word> {
        self.read = self.read.saturating_sub(count);
        let hint = if self.is_dashed_name() {
            "; a name with such characters is between double quotes"
        } else {
            ""
        };
        let count = inks(self.rest());
        let text = self.take(count)?;
        let message = format!(in self.alloc; "{text:?} isn't a number{hint}");
        drop(text);
        Err(self.wrong(at, message?))
    }

    /// Returns whether a minus is next, with a character of a name after it.
    fn is_dashed_name(&self) -> bool {
        match (self.peek(0), self.peek(1)) {
            (Some('-'), Some(character)) => is_of_name(character),
            _ => false,
        }
    }

    /// Removes the next characters, and returns them.
    fn take(&mut self, count: usize) -> std::result::Result<String, AllocError> {
        let mut text = String::new(self.alloc);
        for (_, character) in self.rest().get(..count).unwrap_or(&[]) {
            text.push(*character)?;
        }
        self.skip(count);
        Ok(text)
    }

    fn wrong(&self, at: usize, message: String) -> Failure {
        let failure = self.source.wrong(self.alloc, at, message.as_str());
        drop(message);
        failure
    }
}

/// Returns the comparison whose sign begins with these characters, and the length of the sign. If
/// two signs match, it is the longer one.
fn compared_by(first: char, second: Option<char>) -> Option<(Sign, usize)> {
    match (first, second) {
        ('<', Some('=')) => Some((Sign::LessOrEqual, 2)),
        ('>', Some('=')) => Some((Sign::GreaterOrEqual, 2)),
        ('<', Some('>')) | ('!', Some('=')) => Some((Sign::NotEqual, 2)),
        ('=', Some('=')) => Some((Sign::Equal, 2)),
        ('<', _) => Some((Sign::Less, 1)),
        ('>', _) => Some((Sign::Greater, 1)),
        ('=', _) => Some((Sign::Equal, 1)),
        _ => None,
    }
}

fn quoted_word(quote: char, content: String) -> Word {
    if quote == '"' {
        Word::Quoted(content)
    } else {
        Word::Text(content)
    }
}

fn number_word(text: &str) -> Option<Word> {
    match whole(text.as_bytes()) {
        Some(number) => Some(Word::Whole(number)),
        None => float(text.as_bytes()).map(Word::Float),
    }
}

fn is_of_name(character: char) -> bool {
    character.is_alphanumeric() || character == '_'
}

/// Returns the number of characters of a name at the beginning.
fn names(characters: &[(usize, char)]) -> usize {
    let mut count = 0usize;
    for (_, character) in characters {
        if !is_of_name(*character) {
            break;
        }
        count = count.saturating_add(1);
    }
    count
}

/// Returns the number of spaces at the beginning.
fn spaces(characters: &[(usize, char)]) -> usize {
    let mut count = 0usize;
    for (_, character) in characters {
        if !character.is_whitespace() {
            break;
        }
        count = count.saturating_add(1);
    }
    count
}

/// Returns the number of characters before the first space.
fn inks(characters: &[(usize, char)]) -> usize {
    let mut count = 0usize;
    for (_, character) in characters {
        if character.is_whitespace() {
            break;
        }
        count = count.saturating_add(1);
    }
    count
}

/// Returns the number of characters of a number. A sign may be at its front and after an `e`.
fn number_length(characters: &[(usize, char)]) -> usize {
    let mut count = 0usize;
    let mut may_sign = true;
    for (_, character) in characters {
        let belongs = match *character {
            '0'..='9' | '.' | 'e' | 'E' => true,
            '+' | '-' => may_sign,
            _ => false,
        };
        if !belongs {
            break;
        }
        may_sign = matches!(*character, 'e' | 'E');
        count = count.saturating_add(1);
    }
    count
}
