//! The words of a text, read one by one.
use crate::condition::{Literal, Name, Operand, Sign, Step};
use crate::token::{Token, Word, tokens};
use query_csv::{Failure, Result, Source};
use std::alloc::Global;

/// Words that must be quoted to be column names.
const KEYWORDS: &[&str] = &["and", "or", "not", "is", "null"];

const TOO_DEEP: &str = "a condition is nested at most 200 deep";

/// The words of a text that aren't read.
#[derive(Drop)]
pub struct Words<'a> {
    alloc: Global,
    source: Source<'a>,
    /// The words, the next one last.
    left: Vec<Token>,
    /// The byte where the text ends.
    end: usize,
}

impl<'a> Words<'a> {
    /// Returns the words of a text.
    pub fn new(alloc: Global, source: Source<'a>) -> Result<Words<'a>> {
        let mut left = tokens(alloc, source)?;
        left.reverse();
        let end = match left.first() {
            Some(token) => token.at,
            None => 0,
        };
        Ok(Words {
            alloc,
            source,
            left,
            end,
        })
    }

    /// Returns the byte at which the next word begins.
    pub fn at(&self) -> usize {
        match self.left.last() {
            Some(token) => token.at,
            None => self.end,
        }
    }

    /// Returns the next word; None after the end.
    fn peek(&self) -> Option<&Word> {
        match self.left.last() {
            Some(token) => Some(&token.word),
            None => None,
        }
    }

    /// Returns whether the next word is this keyword.
    fn is_next(&self, keyword: &str) -> bool {
        match self.peek() {
            Some(word) => word.is(keyword),
            None => false,
        }
    }

    fn skip(&mut self) {
        drop(self.left.pop());
    }

    fn take(&mut self) -> Token {
        match self.left.pop() {
            Some(token) => token,
            None => Token {
                at: self.end,
                word: Word::End,
            },
        }
    }

    /// Skips the next word if it is this one. Returns whether it is.
    pub fn keyword(&mut self, keyword: &str) -> bool {
        let is_next = self.is_next(keyword);
        self.skip_if(is_next)
    }

    /// Skips an opening parenthesis, as [`Words::keyword`] does.
    pub fn open(&mut self) -> bool {
        let is_next = matches!(self.peek(), Some(Word::Open));
        self.skip_if(is_next)
    }

    /// Skips a closing parenthesis, as [`Words::keyword`] does.
    pub fn close(&mut self) -> bool {
        let is_next = matches!(self.peek(), Some(Word::Close));
        self.skip_if(is_next)
    }

    /// Skips a comma, as [`Words::keyword`] does.
    pub fn comma(&mut self) -> bool {
        let is_next = matches!(self.peek(), Some(Word::Comma));
        self.skip_if(is_next)
    }

    /// Skips a star, as [`Words::keyword`] does.
    pub fn star(&mut self) -> bool {
        let is_next = matches!(self.peek(), Some(Word::Star));
        self.skip_if(is_next)
    }

    fn skip_if(&mut self, is_next: bool) -> bool {
        if is_next {
            self.skip();
        }
        is_next
    }

    /// Returns whether all words are read.
    pub fn is_end(&self) -> bool {
        match self.peek() {
            Some(word) => word.is_end(),
            None => true,
        }
    }

    /// Returns the error at the next word, where `what` is wanted.
    pub fn next_wanted(&self, what: &str) -> Failure {
        self.wanted(self.at(), what)
    }

    /// Returns the error at byte `at`, where `what` is wanted.
    pub fn wanted(&self, at: usize, what: &str) -> Failure {
        self.source.wanted(self.alloc, at, what)
    }

    /// Returns the error at the next word of a condition that is nested too deep.
    pub fn too_deep(&self) -> Failure {
        self.source.wrong(self.alloc, self.at(), TOO_DEEP)
    }

    /// Reads a comparison, a test for null, or `in` with its list, and adds its steps. Fails at the
    /// first unexpected word.
    pub fn test(&mut self, steps: &mut Vec<Step>) -> Result<()> {
        let left = self.operand("a condition")?;
        if let Some(Word::Compare(sign)) = self.peek() {
            let sign = *sign;
            self.skip();
            let right = self.operand("a column, a number or a text")?;
            steps.push(Step::Compare(left, sign, right))?;
            return Ok(());
        }
        match left {
            Operand::Column(name) if self.is_next("in") || self.is_next("not") => {
                self.among(name, steps)
            }
            Operand::Column(name) => self.null(name, steps),
            Operand::Literal(literal, _) => {
                drop(literal);
                Err(self.next_wanted("a comparison, as \"=\" or \"<\","))
            }
        }
    }

    fn null(&mut self, name: Name, steps: &mut Vec<Step>) -> Result<()> {
        if !self.keyword("is") {
            drop(name);
            return Err(self.next_wanted("a comparison, as \"=\" or \"<\", \"is\" or \"in\""));
        }
        let is_negated = self.keyword("not");
        if !self.keyword("null") {
            drop(name);
            return Err(self.next_wanted(if is_negated {
                "\"null\""
            } else {
                "\"null\" or \"not null\""
            }));
        }
        steps.push(Step::IsNull(name))?;
        if is_negated {
            steps.push(Step::Not)?;
        }
        Ok(())
    }

    /// Reads `in` or `not in` with its operands, and adds the steps that test whether a column
    /// equals one of them, or none of them.
    fn among(&mut self, name: Name, steps: &mut Vec<Step>) -> Result<()> {
        let is_negated = self.keyword("not");
        if !self.keyword("in") {
            drop(name);
            return Err(self.next_wanted("\"in\""));
        }
        if !self.open() {
            drop(name);
            return Err(self.next_wanted("\"(\""));
        }
        let listed = self.list(&name, steps);
        drop(name);
        listed?;
        if !self.close() {
            return Err(self.next_wanted("a comma or \")\""));
        }
        if is_negated {
            steps.push(Step::Not)?;
        }
        Ok(())
    }

    /// Reads the operands of a list, and adds a comparison with each, joined by `or`.
    fn list(&mut self, name: &Name, steps: &mut Vec<Step>) -> Result<()> {
        for count in 0..u64::MAX {
            let step = self.equal(name)?;
            steps.push(step)?;
            if count > 0 {
                steps.push(Step::Or)?;
            }
            if !self.comma() {
                break;
            }
        }
        Ok(())
    }

    fn equal(&mut self, name: &Name) -> Result<Step> {
        let left = Name {
            name: name.name.clone()?,
            at: name.at,
        };
        match self.operand("a column, a number or a text") {
            Ok(right) => Ok(Step::Compare(Operand::Column(left), Sign::Equal, right)),
            Err(failure) => {
                drop(left);
                Err(failure)
            }
        }
    }

    fn operand(&mut self, what: &str) -> Result<Operand> {
        if self.is_next("null") {
            let message = "a comparison with null is never true; write \"is null\"";
            return Err(self.source.wrong(self.alloc, self.at(), message));
        }
        let Token { at, word } = self.take();
        match word {
            Word::Whole(number) => Ok(Operand::Literal(Literal::Whole(number), at)),
            Word::Float(number) => Ok(Operand::Literal(Literal::Float(number), at)),
            Word::Text(text) => Ok(Operand::Literal(Literal::Text(text), at)),
            word => Ok(Operand::Column(self.name_of(Token { at, word }, what)?)),
        }
    }

    /// Reads a name. Fails if the next word isn't a name, or is a keyword without quotes.
    pub fn name(&mut self, what: &str) -> Result<Name> {
        let token = self.take();
        self.name_of(token, what)
    }

    fn name_of(&self, token: Token, what: &str) -> Result<Name> {
        let Token { at, word } = token;
        match word {
            Word::Quoted(name) => Ok(Name { name, at }),
            Word::Plain(name) => {
                if is_keyword(name.as_str()) {
                    drop(name);
                    return Err(self.wanted(at, what));
                }
                Ok(Name { name, at })
            }
            word => {
                drop(word);
                Err(self.wanted(at, what))
            }
        }
    }
}

fn is_keyword(name: &str) -> bool {
    for keyword in KEYWORDS {
        if name.eq_ignore_ascii_case(*keyword) {
            return true;
        }
    }
    false
}
