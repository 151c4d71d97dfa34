//! Answers about the rows that are kept.
use crate::condition::Name;
use crate::words::Words;
use query_csv::{Result, Source};
use std::alloc::{AllocError, Global};

/// An answer about a column, or about the rows.
#[derive(Drop)]
pub enum Answer {
    /// `count(*)`: the number of rows.
    Rows,
    /// An answer about a column.
    Of(Aggregate, Name),
}

/// An answer about a column, over the rows in which it isn't null.
#[derive(Clone, Copy, PartialEq, Eq)]
pub enum Aggregate {
    /// The number of values.
    Count,
    /// The sum of all values.
    Sum,
    /// The least value.
    Min,
    /// The greatest value.
    Max,
    /// The mean of all values, a float.
    Avg,
}

const AGGREGATES: &[(&str, Aggregate)] = &[
    ("count", Aggregate::Count),
    ("sum", Aggregate::Sum),
    ("min", Aggregate::Min),
    ("max", Aggregate::Max),
    ("avg", Aggregate::Avg),
];

impl Aggregate {
    /// Returns the aggregate with a name, in upper or lower case.
    pub fn named(name: &str) -> Option<Aggregate> {
        for (own, aggregate) in AGGREGATES {
            if own.eq_ignore_ascii_case(name) {
                return Some(*aggregate);
            }
        }
        None
    }

    /// Returns the name.
    pub fn name(self) -> &'static str {
        match self {
            Aggregate::Count => "count",
            Aggregate::Sum => "sum",
            Aggregate::Min => "min",
            Aggregate::Max => "max",
            Aggregate::Avg => "avg",
        }
    }
}

impl Answer {
    /// Returns the answer as the header of its column.
    pub fn title(&self, alloc: Global) -> std::result::Result<String, AllocError> {
        match self {
            Answer::Rows => String::from_str(alloc, "count(*)"),
            Answer::Of(aggregate, column) => {
                format!(in alloc; "{}({})", aggregate.name(), column.name)
            }
        }
    }
}

/// Returns the answers of a list, such as `count(*), sum(size)`.
///
/// Fails where the text can't be split into words, even behind an unexpected word; else at the
/// first unexpected word.
pub fn selection(alloc: Global, source: Source<'_>) -> Result<Vec<Answer>> {
    let mut words = Words::new(alloc, source)?;
    let mut answers = Vec::new(alloc);
    for _ in 0..u64::MAX {
        let answer = read_answer(&mut words)?;
        answers.push(answer)?;
        if !words.comma() {
            break;
        }
    }
    if !words.is_end() {
        return Err(words.next_wanted("a comma or the end"));
    }
    drop(words);
    Ok(answers)
}

/// Returns the names of a list of columns, such as `size, "the note"`.
///
/// Fails where the text can't be split into words, even behind an unexpected word; else at the
/// first unexpected word.
pub fn column_names(alloc: Global, source: Source<'_>) -> Result<Vec<Name>> {
    let mut words = Words::new(alloc, source)?;
    let mut names = Vec::new(alloc);
    for _ in 0..u64::MAX {
        let name = words.name("a column")?;
        names.push(name)?;
        if !words.comma() {
            break;
        }
    }
    if !words.is_end() {
        return Err(words.next_wanted("a comma or the end"));
    }
    drop(words);
    Ok(names)
}

fn read_answer(words: &mut Words<'_>) -> Result<Answer> {
    let what = "count, sum, min, max or avg";
    let Name { name, at } = words.name(what)?;
    let named = Aggregate::named(name.as_str());
    drop(name);
    let Some(aggregate) = named else {
        return Err(words.wanted(at, what));
    };
    if !words.open() {
        return Err(words.next_wanted("\"(\""));
    }
    let answer = if aggregate == Aggregate::Count && words.star() {
        Answer::Rows
    } else {
        Answer::Of(aggregate, words.name("a column")?)
    };
    if !words.close() {
        drop(answer);
        return Err(words.next_wanted("\")\""));
    }
    Ok(answer)
}
