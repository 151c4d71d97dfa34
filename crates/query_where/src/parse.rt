//! A condition, read from its words.
//!
//! The parser keeps words that join conditions until it has read their right side, as in Dijkstra's
//! shunting yard. So no function is recursive, and the call stack doesn't grow with the condition.
use crate::condition::{Condition, Step};
use crate::words::Words;
use query_csv::{Result, Source};
use std::alloc::Global;

/// The greatest depth of a condition: 1, and 1 more for each parenthesis and `not` around it.
const DEEPEST: usize = 200;

/// Returns the condition of a text.
///
/// Fails where the text can't be split into words, even behind an unexpected word; else at the
/// first unexpected word, or where the condition is nested more than 200 deep.
pub fn parse_condition(alloc: Global, source: Source<'_>) -> Result<Condition> {
    let mut parser = Conditions::new(alloc, source)?;
    let mut next = Next::Condition;
    for _ in 0..u64::MAX {
        next = match next {
            Next::Condition => parser.begin()?,
            Next::Joint => parser.join()?,
            Next::Nothing => break,
        };
    }
    let Conditions {
        words,
        steps,
        waiting,
        depth: _,
    } = parser;
    drop((words, waiting));
    Ok(Condition { steps })
}

/// The kind of word that is expected next.
#[derive(Clone, Copy, PartialEq, Eq)]
enum Next {
    /// A condition, or a part of one.
    Condition,
    /// A word that joins conditions or closes a parenthesis, or the end.
    Joint,
    /// Nothing: all is read.
    Nothing,
}

/// A word whose right side isn't read yet.
#[derive(Clone, Copy, PartialEq, Eq)]
enum Waiting {
    Open,
    Not,
    And,
    Or,
}

#[derive(Drop)]
struct Conditions<'a> {
    words: Words<'a>,
    steps: Vec<Step>,
    waiting: Vec<Waiting>,
    /// The number of parentheses and `not` that are waiting.
    depth: usize,
}

impl<'a> Conditions<'a> {
    fn new(alloc: Global, source: Source<'a>) -> Result<Conditions<'a>> {
        let words = Words::new(alloc, source)?;
        Ok(Conditions {
            words,
            steps: Vec::new(alloc),
            waiting: Vec::new(alloc),
            depth: 0,
        })
    }

    /// Reads `not`, an opening parenthesis or a test.
    fn begin(&mut self) -> Result<Next> {
        if self.depth >= DEEPEST {
            return Err(self.words.too_deep());
        }
        if self.words.keyword("not") {
            return self.nest(Waiting::Not);
        }
        if self.words.open() {
            return self.nest(Waiting::Open);
        }
        self.words.test(&mut self.steps)?;
        self.negate()
    }

    fn nest(&mut self, waiting: Waiting) -> Result<Next> {
        self.waiting.push(waiting)?;
        self.depth = self.depth.saturating_add(1);
        Ok(Next::Condition)
    }

    /// Negates the condition that is read, as often as `not` precedes it.
    fn negate(&mut self) -> Result<Next> {
        for _ in 0..self.waiting.len() {
            if self.waiting.last() != Some(&Waiting::Not) {
                break;
            }
            drop(self.waiting.pop());
            self.depth = self.depth.saturating_sub(1);
            self.steps.push(Step::Not)?;
        }
        Ok(Next::Joint)
    }

    /// Reads the word after a condition.
    fn join(&mut self) -> Result<Next> {
        if self.words.keyword("and") {
            self.joined(false)?;
            self.waiting.push(Waiting::And)?;
            return Ok(Next::Condition);
        }
        self.joined_all()
    }

    fn joined_all(&mut self) -> Result<Next> {
        if self.words.keyword("or") {
            self.joined(true)?;
            self.waiting.push(Waiting::Or)?;
            return Ok(Next::Condition);
        }
        let is_nested = self.waiting.contains(&Waiting::Open);
        if is_nested && self.words.close() {
            self.joined(true)?;
            drop(self.waiting.pop());
            self.depth = self.depth.saturating_sub(1);
            return self.negate();
        }
        if !is_nested && self.words.is_end() {
            self.joined(true)?;
            return Ok(Next::Nothing);
        }
        Err(
            self.words.next_wanted(if is_nested {
                "\"and\", \"or\" or \")\""
            } else {
                "\"and\", \"or\" or the end"
            }),
        )
    }

    /// Adds the steps of the last waiting words, as long as they are `and`; if `all` is true, also
    /// those of `or`.
    fn joined(&mut self, all: bool) -> Result<()> {
        for _ in 0..self.waiting.len() {
            let step = match self.waiting.last() {
                Some(Waiting::And) => Step::And,
                Some(Waiting::Or) if all => Step::Or,
                _ => break,
            };
            drop(self.waiting.pop());
            self.steps.push(step)?;
        }
        Ok(())
    }
}
