//! The first pass over a file: the type of each column, and the range of its numbers.
use crate::table::Table;
use query_csv::{Failure, Result, Rows, float, is_digits, shown, whole};
use std::alloc::{AllocError, Global};
use std::num::{nearest_i64_to_f64, nearest_u64_to_f64};
use std::rt::Files;

/// The type of a column.
#[derive(Clone, Copy, PartialEq, Eq)]
pub enum Kind {
    /// Whole numbers of 64 bits.
    Whole,
    /// Floats of 64 bits.
    Float,
    /// Texts, which compare by their bytes.
    Text,
}

impl Kind {
    /// Returns the type of a name on the command line.
    pub fn named(name: &str) -> Option<Kind> {
        match name {
            "whole" => Some(Kind::Whole),
            "float" => Some(Kind::Float),
            "text" => Some(Kind::Text),
            _ => None,
        }
    }

    /// Returns the name.
    pub fn name(self) -> &'static str {
        match self {
            Kind::Whole => "whole",
            Kind::Float => "float",
            Kind::Text => "text",
        }
    }

    /// Returns the description of a field of this type, for an error.
    fn wanted(self) -> &'static str {
        match self {
            Kind::Whole => "a whole number of 64 bits",
            Kind::Float => "a decimal number",
            Kind::Text => "a text",
        }
    }

    /// Returns whether a field that isn't empty is of this type.
    fn has(self, field: &[u8]) -> bool {
        match self {
            Kind::Whole => whole(field).is_some(),
            Kind::Float => float(field).is_some(),
            Kind::Text => true,
        }
    }
}

/// The range of a column of numbers, with their mean, which is rounded.
#[derive(Clone, Copy)]
pub enum Range {
    /// Of whole numbers.
    Whole {
        /// The least number.
        least: i64,
        /// The greatest number.
        greatest: i64,
        /// The mean.
        mean: f64,
    },
    /// Of floats.
    Float {
        /// The least number.
        least: f64,
        /// The greatest number.
        greatest: f64,
        /// The mean.
        mean: f64,
    },
}

/// A column of the file.
#[derive(Clone, Copy)]
pub struct Column {
    /// Its type.
    pub kind: Kind,
    /// The range of its numbers; None if it has texts, or if all fields are empty.
    pub range: Option<Range>,
}

/// The results of the first pass.
#[derive(Drop)]
pub struct Survey {
    /// The number of rows.
    pub rows: u64,
    /// The columns.
    pub columns: Vec<Column>,
}

impl Survey {
    /// Reads a file once. `kinds` has the types that the user gave, each with its column.
    ///
    /// Fails if the file can't be read, isn't CSV, or a field isn't of the type that the user gave.
    pub fn of<R: Files + AllocGlobal>(
        rt: &R,
        table: &Table,
        kinds: &[(usize, Kind)],
    ) -> Result<Survey> {
        let alloc = rt.alloc();
        let mut seen = Vec::from_elem(alloc, Seen::new(), table.width())?;
        for (column, kind) in kinds {
            if let Some(seen) = seen.get_mut(*column) {
                seen.given = Some(*kind);
            }
        }
        let rows = read_all(rt, table, &mut seen)?;
        let mut columns = Vec::new(alloc);
        for seen in seen.iter() {
            columns.push(seen.column())?;
        }
        drop(seen);
        Ok(Survey { rows, columns })
    }

    /// Returns the type of a column; text if there is no such column.
    pub fn kind(&self, column: usize) -> Kind {
        match self.columns.get(column) {
            Some(column) => column.kind,
            None => Kind::Text,
        }
    }

    /// Returns the range of a column's numbers, if it has any.
    pub fn range(&self, column: usize) -> Option<Range> {
        match self.columns.get(column) {
            Some(column) => column.range,
            None => None,
        }
    }

    /// Returns the first column with numbers.
    pub fn first_of_numbers(&self) -> Option<usize> {
        for (place, column) in self.columns.iter().enumerate() {
            if column.range.is_some() {
                return Some(place);
            }
        }
        None
    }
}

/// Reads the file, and adds the fields of each column. Returns the number of rows.
fn read_all<R: Files + AllocGlobal>(rt: &R, table: &Table, seen: &mut Vec<Seen>) -> Result<u64> {
    let mut rows = 0u64;
    let mut batches = table.batches(rt)?;
    for _ in 0..u64::MAX {
        if !batches.next_batch(rt.alloc(), table)? {
            break;
        }
        add_batch(rt.alloc(), table, batches.rows(), seen)?;
        rows = rows.saturating_add(batches.rows().len() as u64);
    }
    drop(batches);
    Ok(rows)
}

fn add_batch(alloc: Global, table: &Table, rows: &Rows, seen: &mut Vec<Seen>) -> Result<()> {
    for (column, seen) in seen.iter_mut().enumerate() {
        let mut column_seen = *seen;
        if let Some(row) = column_seen.add(rows, column) {
            let kind = column_seen.given.unwrap_or(Kind::Text);
            return Err(wrong_field(alloc, table, rows, row, column, kind));
        }
        *seen = column_seen;
    }
    Ok(())
}

/// The properties of a column's fields so far.
#[derive(Clone, Copy)]
struct Seen {
    /// The type that the user gave.
    given: Option<Kind>,
    /// Whether any field isn't a number.
    texts: bool,
    /// Whether any field is a number that isn't whole.
    floats: bool,
    /// Whether any field is a whole number beyond 64 bits.
    beyond: bool,
    whole: Option<(i64, i64)>,
    float: Option<(f64, f64)>,
    sum: f64,
    numbers: u64,
}

impl Seen {
    fn new() -> Seen {
        Seen {
            given: None,
            texts: false,
            floats: false,
            beyond: false,
            whole: None,
            float: None,
            sum: 0.0,
            numbers: 0,
        }
    }

    /// Adds a column of rows. Returns the first row whose field isn't of the type that was given.
    fn add(&mut self, rows: &Rows, column: usize) -> Option<usize> {
        if self.texts {
            return None;
        }
        for row in 0..rows.len() {
            let field = rows.field(row, column);
            if field.is_empty() {
                continue;
            }
            if !self.may_have(field) {
                return Some(row);
            }
            self.add_field(field);
        }
        None
    }

    fn may_have(&self, field: &[u8]) -> bool {
        match self.given {
            Some(kind) => kind.has(field),
            None => true,
        }
    }

    fn add_field(&mut self, field: &[u8]) {
        self.numbers = self.numbers.saturating_add(1);
        if let Some(number) = whole(field) {
            self.whole = Some(widened_wholes(self.whole, number));
            self.sum += nearest_i64_to_f64(number);
        } else if let Some(number) = float(field) {
            let is_whole = is_digits(field);
            self.beyond |= is_whole;
            self.floats |= !is_whole;
            self.float = Some(widened_floats(self.float, number));
            self.sum += number;
        } else {
            self.texts = true;
        }
    }

    /// Returns the type that the user gave, or else that of the fields. It is text if a field isn't
    /// a number, if there is no number, or if all numbers are whole and one doesn't fit in 64 bits:
    /// a float would lose its digits.
    fn kind(&self) -> Kind {
        if let Some(kind) = self.given {
            return kind;
        }
        if self.texts || self.numbers == 0 || (self.beyond && !self.floats) {
            Kind::Text
        } else if self.floats {
            Kind::Float
        } else {
            Kind::Whole
        }
    }

    fn column(&self) -> Column {
        let kind = self.kind();
        let mean = self.sum / nearest_u64_to_f64(self.numbers);
        let range = match kind {
            Kind::Text => None,
            Kind::Whole => whole_range(self.whole, mean),
            Kind::Float => float_range(self.float, self.whole, mean),
        };
        Column { kind, range }
    }
}

fn whole_range(whole: Option<(i64, i64)>, mean: f64) -> Option<Range> {
    let (least, greatest) = whole?;
    Some(Range::Whole {
        least,
        greatest,
        mean,
    })
}

/// Returns the range of floats, some of which may be whole numbers.
fn float_range(float: Option<(f64, f64)>, whole: Option<(i64, i64)>, mean: f64) -> Option<Range> {
    let wholes = match whole {
        Some((least, greatest)) => {
            Some((nearest_i64_to_f64(least), nearest_i64_to_f64(greatest)))
        }
        None => None,
    };
    let (least, greatest) = match (float, wholes) {
        (Some(a), Some(b)) => (a.0.min(b.0), a.1.max(b.1)),
        (Some(only), None) | (None, Some(only)) => only,
        (None, None) => return None,
    };
    Some(Range::Float {
        least,
        greatest,
        mean,
    })
}

fn widened_wholes(range: Option<(i64, i64)>, number: i64) -> (i64, i64) {
    match range {
        Some((least, greatest)) => (least.min(number), greatest.max(number)),
        None => (number, number),
    }
}

fn widened_floats(range: Option<(f64, f64)>, number: f64) -> (f64, f64) {
    let (least, greatest) = range.unwrap_or((number, number));
    let least = if number < least { number } else { least };
    let greatest = if number > greatest { number } else { greatest };
    (least, greatest)
}

/// Returns the error of a field that isn't of a type.
pub fn wrong_field(
    alloc: Global,
    table: &Table,
    rows: &Rows,
    row: usize,
    column: usize,
    kind: Kind,
) -> Failure {
    match wrong_text(alloc, rows.field(row, column), kind) {
        Ok(message) => {
            let failure = table.wrong_field(rows.line(row), column, message.as_str());
            drop(message);
            failure
        }
        Err(_) => Failure::Memory,
    }
}

fn wrong_text(alloc: Global, field: &[u8], kind: Kind) -> std::result::Result<String, AllocError> {
    let field = shown(alloc, field, 40)?;
    let text = format!(in alloc;
        "\"{field}\" is not {}, the type of this column",
        kind.wanted()
    );
    drop(field);
    text
}
