//! The condition and the list of answers of a run, and its options for the columns of the file.
use crate::args::{Options, Print};
use query_csv::{Result, Source, told};
use query_engine::RowFilter;
use query_table::{Kind, Survey, Table};
use query_where::{
    Aggregate, Answer, Condition, Name, Operand, Step, column_names, parse_condition, selection,
};
use std::alloc::Global;
use std::fs;
use std::rt::Files;

/// The parsed condition and the parsed lists of answers and columns.
#[derive(Drop)]
pub struct Query<'a> {
    options: &'a Options,
    condition: Option<Condition>,
    /// The answers.
    pub answers: Vec<Answer>,
    columns: Vec<Name>,
}

impl<'a> Query<'a> {
    /// Parses the condition and the lists of answers and columns that the options have.
    pub fn parse(alloc: Global, options: &'a Options) -> Result<Query<'a>> {
        let condition = match &options.condition {
            Some(text) => Some(parse_condition(alloc, of_where(text.as_str()))?),
            None => None,
        };
        let answers = match &options.print {
            Print::Answers(text) => selection(alloc, of_select(text.as_str()))?,
            _ => Vec::new(alloc),
        };
        let columns = match &options.columns {
            Some(text) => column_names(alloc, of_columns(text.as_str()))?,
            None => Vec::new(alloc),
        };
        Ok(Query {
            options,
            condition,
            answers,
            columns,
        })
    }

    /// Returns the text of the condition.
    fn source(&self) -> Source<'a> {
        match &self.options.condition {
            Some(text) => of_where(text.as_str()),
            None => of_where(""),
        }
    }

    /// Tests that the table has the columns of the condition, before the first pass over the file.
    pub fn check_names(&self, table: &Table) -> Result<()> {
        let Some(condition) = &self.condition else {
            return Ok(());
        };
        for step in condition.steps.iter() {
            match step {
                Step::Compare(left, _, right) => {
                    self.check_operand(table, left)?;
                    self.check_operand(table, right)?;
                }
                Step::IsNull(name) => self.check_name(table, name)?,
                Step::Not | Step::And | Step::Or => {}
            }
        }
        Ok(())
    }

    fn check_operand(&self, table: &Table, operand: &Operand) -> Result<()> {
        match operand {
            Operand::Column(name) => self.check_name(table, name),
            Operand::Literal(_, _) => Ok(()),
        }
    }

    fn check_name(&self, table: &Table, name: &Name) -> Result<()> {
        table.find(name.name.as_str(), self.source(), name.at)?;
        Ok(())
    }

    /// Returns the condition for the columns of the table.
    pub fn filter(
        &self,
        alloc: Global,
        table: &Table,
        survey: &Survey,
    ) -> Result<Option<RowFilter>> {
        match &self.condition {
            Some(condition) => {
                let filter = RowFilter::new(alloc, condition, table, survey, self.source())?;
                Ok(Some(filter))
            }
            None => Ok(None),
        }
    }

    /// Returns the answers with the indices of their columns; None is the number of rows.
    pub fn answered(
        &self,
        alloc: Global,
        table: &Table,
    ) -> Result<Vec<Option<(Aggregate, usize)>>> {
        let text = match &self.options.print {
            Print::Answers(text) => text.as_str(),
            _ => "",
        };
        let mut answered = Vec::new(alloc);
        for answer in self.answers.iter() {
            let column = match answer {
                Answer::Rows => None,
                Answer::Of(aggregate, name) => {
                    let column = table.find(name.name.as_str(), of_select(text), name.at)?;
                    Some((*aggregate, column))
                }
            };
            answered.push(column)?;
        }
        Ok(answered)
    }

    /// Returns the indices of the columns that are written: all, if none are named.
    pub fn columns(&self, alloc: Global, table: &Table) -> Result<Vec<usize>> {
        match &self.options.columns {
            Some(text) => self.named(alloc, table, of_columns(text.as_str())),
            None => Ok((0..table.width()).collect(alloc)?),
        }
    }

    fn named(&self, alloc: Global, table: &Table, source: Source<'_>) -> Result<Vec<usize>> {
        let mut columns = Vec::new(alloc);
        for name in self.columns.iter() {
            let column = table.find(name.name.as_str(), source, name.at)?;
            columns.push(column)?;
        }
        Ok(columns)
    }
}

fn of_where(text: &str) -> Source<'_> {
    Source {
        option: "--where",
        text,
    }
}

fn of_select(text: &str) -> Source<'_> {
    Source {
        option: "--select",
        text,
    }
}

fn of_columns(text: &str) -> Source<'_> {
    Source {
        option: "--columns",
        text,
    }
}

/// Returns the types that the options give, each with its column.
pub fn kinds(alloc: Global, options: &Options, table: &Table) -> Result<Vec<(usize, Kind)>> {
    let mut kinds = Vec::new(alloc);
    for (name, kind) in options.kinds.iter() {
        let source = Source {
            option: "--type",
            text: name.as_str(),
        };
        let column = table.find(name.as_str(), source, 0)?;
        kinds.push((column, *kind))?;
    }
    Ok(kinds)
}

/// Returns the column of `--histogram`.
pub fn histogram_column(options: &Options, table: &Table) -> Result<Option<usize>> {
    let Some(name) = &options.histogram else {
        return Ok(None);
    };
    let source = Source {
        option: "--histogram",
        text: name.as_str(),
    };
    Ok(Some(table.find(name.as_str(), source, 0)?))
}

/// Fails if an output would overwrite the CSV file, and if two outputs have the same file.
pub fn check_outputs<R: Files + AllocGlobal>(rt: &R, options: &Options) -> Result<()> {
    for path in [&options.out, &options.svg] {
        if let Some(path) = path {
            if is_same(rt, options.file.as_str(), path.as_str()) {
                let alloc = rt.alloc();
                let path = path.as_str();
                return Err(told(format!(in alloc;
                    "{path}: this is the CSV file, which would be written over"
                )));
            }
        }
    }
    check_apart(rt, options)
}

/// Fails if two outputs have the same file.
fn check_apart<R: Files + AllocGlobal>(rt: &R, options: &Options) -> Result<()> {
    let (Some(out), Some(svg)) = (&options.out, &options.svg) else {
        return Ok(());
    };
    let (out, svg) = (out.as_str(), svg.as_str());
    if out == svg || is_same(rt, out, svg) {
        let alloc = rt.alloc();
        return Err(told(format!(in alloc; "{out}: --out and --svg both write to this file")));
    }
    Ok(())
}

/// Returns whether two paths lead to the same file. A file with two names counts as two files.
fn is_same<R: Files + AllocGlobal>(rt: &R, left: &str, right: &str) -> bool {
    match (fs::canonicalize(rt, left), fs::canonicalize(rt, right)) {
        (Ok(left), Ok(right)) => {
            left.as_path().to_string_lossy() == right.as_path().to_string_lossy()
        }
        _ => false,
    }
}
