//! Resolves the names of a condition to the columns of a table.
use crate::filter::Test;
use crate::near::{Meaning, among_floats, among_wholes};
use crate::truth::{Joint, swapped};
use query_csv::{Failure, Result, Source, ordered};
use query_table::{Kind, Survey, Table};
use query_where::{Literal, Name, Operand, Sign, Step};
use std::alloc::{AllocError, Global};
use vortex_buffer::Comparison;

/// A table, and a condition on it.
#[derive(Clone, Copy)]
pub struct Resolver<'a> {
    pub alloc: Global,
    pub table: &'a Table,
    pub survey: &'a Survey,
    pub source: Source<'a>,
}

impl<'a> Resolver<'a> {
    /// Returns the test of a step.
    ///
    /// Fails at a name that isn't a column's, and where a comparison's sides are of types that
    /// don't compare.
    pub fn test(&self, step: &Step) -> Result<Test> {
        match step {
            Step::Compare(left, sign, right) => self.compare(left, comparison(*sign), right),
            Step::IsNull(name) => Ok(Test::IsNull(self.place(name)?)),
            Step::Not => Ok(Test::Not),
            Step::And => Ok(Test::Join(Joint::And)),
            Step::Or => Ok(Test::Join(Joint::Or)),
        }
    }

    fn place(&self, name: &Name) -> Result<usize> {
        self.table.find(name.name.as_str(), self.source, name.at)
    }

    fn compare(&self, left: &Operand, comparison: Comparison, right: &Operand) -> Result<Test> {
        match (left, right) {
            (Operand::Column(left), Operand::Column(right)) => self.two(left, comparison, right),
            (Operand::Column(name), Operand::Literal(literal, at)) => {
                self.with_literal(name, comparison, literal, *at)
            }
            (Operand::Literal(literal, at), Operand::Column(name)) => {
                self.with_literal(name, swapped(comparison), literal, *at)
            }
            (Operand::Literal(_, _), Operand::Literal(_, at)) => {
                let message = "a column is wanted on one side of a comparison";
                Err(self.source.wrong(self.alloc, *at, message))
            }
        }
    }

    fn two(&self, left: &Name, comparison: Comparison, right: &Name) -> Result<Test> {
        let (a, b) = (self.place(left)?, self.place(right)?);
        let (a_kind, b_kind) = (self.survey.kind(a), self.survey.kind(b));
        if (a_kind == Kind::Text) != (b_kind == Kind::Text) {
            let message = unlike(self.alloc, left, a_kind, right, b_kind);
            return Err(self.wrong(right.at, message));
        }
        Ok(Test::Columns(a, comparison, b))
    }

    fn with_literal(
        &self,
        name: &Name,
        comparison: Comparison,
        literal: &Literal,
        at: usize,
    ) -> Result<Test> {
        let column = self.place(name)?;
        match (self.survey.kind(column), literal) {
            (Kind::Text, Literal::Text(text)) => Ok(Test::Text(column, comparison, text.clone()?)),
            (Kind::Text, number) => Err(self.wrong(at, wants_text(self.alloc, name, number))),
            (_, Literal::Text(_)) => Err(self.wrong(at, wants_number(self.alloc, name))),
            (Kind::Whole, Literal::Whole(number)) => {
                Ok(Test::Number(column, comparison, *number))
            }
            (Kind::Whole, Literal::Float(number)) => {
                let (beside, side) = among_wholes(*number);
                Ok(meant(column, side.meaning(comparison), beside))
            }
            (Kind::Float, Literal::Float(number)) => {
                Ok(Test::Number(column, comparison, ordered(*number)))
            }
            (Kind::Float, Literal::Whole(number)) => {
                let (beside, side) = among_floats(*number);
                Ok(meant(column, side.meaning(comparison), ordered(beside)))
            }
        }
    }

    fn wrong(&self, at: usize, message: std::result::Result<String, AllocError>) -> Failure {
        match message {
            Ok(message) => {
                let failure = self.source.wrong(self.alloc, at, message.as_str());
                drop(message);
                failure
            }
            Err(_) => Failure::Memory,
        }
    }
}

fn comparison(sign: Sign) -> Comparison {
    match sign {
        Sign::Equal => Comparison::Equal,
        Sign::NotEqual => Comparison::NotEqual,
        Sign::Less => Comparison::Less,
        Sign::LessOrEqual => Comparison::LessOrEqual,
        Sign::Greater => Comparison::Greater,
        Sign::GreaterOrEqual => Comparison::GreaterOrEqual,
    }
}

fn meant(column: usize, meaning: Meaning, key: i64) -> Test {
    match meaning {
        Meaning::Compare(comparison) => Test::Number(column, comparison, key),
        Meaning::Always(truth) => Test::Always(column, truth),
    }
}

fn unlike(
    alloc: Global,
    left: &Name,
    left_kind: Kind,
    right: &Name,
    right_kind: Kind,
) -> std::result::Result<String, AllocError> {
    let (a, b) = (left.quoted(alloc)?, right.quoted(alloc)?);
    let (a_kind, b_kind) = (left_kind.name(), right_kind.name());
    let of_numbers = if left_kind == Kind::Text {
        b.as_str()
    } else {
        a.as_str()
    };
    let message = format!(in alloc;
        "column {b} is {b_kind} and column {a} is {a_kind}; numbers compare with numbers, and \
         texts with texts; --type {of_numbers}=text makes both texts"
    );
    drop((a, b));
    message
}

fn wants_text(
    alloc: Global,
    name: &Name,
    number: &Literal,
) -> std::result::Result<String, AllocError> {
    let name = name.quoted(alloc)?;
    let (kind, literal) = match number {
        Literal::Whole(number) => ("whole", format!(in alloc; "{number}")?),
        Literal::Float(number) => ("float", format!(in alloc; "{number:?}")?),
        Literal::Text(text) => ("float", text.clone()?),
    };
    let message = format!(in alloc;
        "column {name} is text; a text is wanted, as '{literal}'; --type {name}={kind} reads it \
         as numbers, or names the first line where it has none"
    );
    drop((name, literal));
    message
}

fn wants_number(alloc: Global, name: &Name) -> std::result::Result<String, AllocError> {
    let name = name.quoted(alloc)?;
    let message = format!(in alloc;
        "column {name} has numbers; a number without quotes is wanted; --type {name}=text reads it \
         as texts"
    );
    drop(name);
    message
}
