//! A condition as steps.
use std::alloc::{AllocError, Global};

/// A condition, as steps in the order in which they are computed: a comparison or a test for null
/// gives a truth value, and the other steps take one or two and give one.
#[derive(Drop)]
pub struct Condition {
    /// The steps.
    pub steps: Vec<Step>,
}

/// A step of a condition.
#[derive(Drop)]
pub enum Step {
    /// A comparison of two operands.
    Compare(Operand, Sign, Operand),
    /// A column that is null.
    IsNull(Name),
    /// The negation of the last truth value.
    Not,
    /// The conjunction of the last two truth values.
    And,
    /// The disjunction of the last two truth values.
    Or,
}

/// How two values compare.
#[derive(Clone, Copy, PartialEq, Eq)]
pub enum Sign {
    /// `=`
    Equal,
    /// `<>`
    NotEqual,
    /// `<`
    Less,
    /// `<=`
    LessOrEqual,
    /// `>`
    Greater,
    /// `>=`
    GreaterOrEqual,
}

/// A side of a comparison.
#[derive(Drop)]
pub enum Operand {
    /// A column.
    Column(Name),
    /// A number or a text, and the byte where it begins.
    Literal(Literal, usize),
}

/// The name of a column.
#[derive(Drop)]
pub struct Name {
    /// The name without its quotes.
    pub name: String,
    /// The byte of the text where it begins.
    pub at: usize,
}

/// A number or a text.
#[derive(Drop)]
pub enum Literal {
    /// A whole number.
    Whole(i64),
    /// A float.
    Float(f64),
    /// A text.
    Text(String),
}

impl Name {
    /// Returns the name between double quotes, each one in it doubled.
    pub fn quoted(&self, alloc: Global) -> Result<String, AllocError> {
        let mut quoted = String::new(alloc);
        quoted.push('"')?;
        for character in self.name.as_str().chars() {
            if character == '"' {
                quoted.push('"')?;
            }
            quoted.push(character)?;
        }
        quoted.push('"')?;
        Ok(quoted)
    }
}
