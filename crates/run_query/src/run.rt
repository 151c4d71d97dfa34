//! A run of the program, from its options to its output.
use crate::args::{Options, Print as Wanted};
use crate::outputs::{Outputs, Written, add_row};
use crate::query::{Query, check_outputs, histogram_column, kinds};
use crate::texts::print;
use query_csv::{Failure, Result, Rows, Source, grouped};
use query_draw::{Histogram, Picture, Report, Strip};
use query_engine::{Batch, RowFilter, Summary};
use query_table::{Kind, Survey, Table, file_failure};
use query_where::{Aggregate, Answer};
use std::alloc::{AllocError, Global};
use std::rt::Files;
use std::{fs, mem};
use vortex_buffer::BitBuffer;

/// The greatest number of cells of the strip in a terminal.
const STRIP: u64 = 72;

/// The greatest number of cells of the strip in a picture.
const SVG_STRIP: u64 = 340;

/// A histogram with values in fewer bins is built again, over the range of the kept values.
const FEW_BINS: usize = 4;

/// The error of a histogram of a text column.
const TEXT_COLUMN: &str = "this column is text; one of numbers is wanted; --type COLUMN=float \
    reads it as numbers, or names the first line where it has none";

/// How a run that didn't fail has ended.
#[derive(Clone, Copy, PartialEq, Eq)]
pub enum Outcome {
    /// The run printed all that was requested.
    Done,
    /// The row of `--nth` doesn't exist.
    NoRow,
}

/// Reads the file and prints what the options select.
///
/// Fails if a file can't be read or written, the CSV file is malformed, or the options don't fit
/// it.
pub fn run_with<'a, R: Files + Print + Eprint + AllocGlobal + Drop>(
    rt: &'a R,
    options: &'a Options,
) -> Result<Outcome> {
    let alloc = rt.alloc();
    let query = Query::parse(alloc, options)?;
    let table = Table::open(rt, options.file.as_str(), options.format)?;
    check_outputs(rt, options)?;
    let kinds = kinds(alloc, options, &table)?;
    let answered = query.answered(alloc, &table)?;
    let columns = query.columns(alloc, &table)?;
    let histogram = histogram_column(options, &table)?;
    query.check_names(&table)?;
    let survey = Survey::of(rt, &table, kinds.as_slice())?;
    drop(kinds);
    let filter = query.filter(alloc, &table, &survey)?;
    let run = Run {
        rt,
        options,
        table: &table,
        survey: &survey,
        filter: &filter,
        columns: columns.as_slice(),
        histogram,
    };
    let outcome = match &options.print {
        Wanted::Report => run.report(),
        Wanted::Answers(_) => run.answers(query.answers.as_slice(), answered.as_slice()),
        Wanted::Rows => run.rows(),
        Wanted::Nth(before) => run.nth(*before),
    };
    drop((query, table, answered, columns, survey, filter));
    outcome
}

/// The state of a run after the first pass over the file.
#[derive(Drop)]
struct Run<'a, R: Files + Print + Eprint + AllocGlobal + Drop> {
    rt: &'a R,
    options: &'a Options,
    table: &'a Table,
    survey: &'a Survey,
    filter: &'a Option<RowFilter>,
    /// The columns of the kept rows that are written.
    columns: &'a [usize],
    /// The column of `--histogram`.
    histogram: Option<usize>,
}

impl<'a, R: Files + Print + Eprint + AllocGlobal + Drop> Run<'a, R> {
    /// Returns the outputs for the report and the picture: the strips and the histogram, if shown.
    fn outputs(&self) -> Result<Outputs<R::File>> {
        let alloc = self.rt.alloc();
        let mut outputs = Outputs::none(alloc);
        if matches!(self.options.print, Wanted::Report) {
            let strip = Strip::new(alloc, self.survey.rows, STRIP)?;
            outputs.strips.push(strip)?;
        }
        if self.options.svg.is_some() {
            let strip = Strip::new(alloc, self.survey.rows, SVG_STRIP)?;
            outputs.strips.push(strip)?;
        }
        if let Some(histogram) = self.histogram()? {
            drop(mem::replace(&mut outputs.histogram, Some(histogram)));
        }
        Ok(outputs)
    }

    /// Returns the histogram of the column of `--histogram`, or of the first column with numbers.
    /// Returns None if no histogram is shown or the column has no number.
    fn histogram(&self) -> Result<Option<Histogram>> {
        if !matches!(self.options.print, Wanted::Report) && self.options.svg.is_none() {
            return Ok(None);
        }
        let column = match self.histogram {
            Some(column) => Some(self.of_numbers(column)?),
            None => self.survey.first_of_numbers(),
        };
        let Some(column) = column else {
            return Ok(None);
        };
        match self.survey.range(column) {
            Some(range) => Ok(Some(Histogram::new(self.rt.alloc(), column, range)?)),
            None => Ok(None),
        }
    }

    /// Returns the column, or an error if it has texts.
    fn of_numbers(&self, column: usize) -> Result<usize> {
        if self.survey.kind(column) != Kind::Text {
            return Ok(column);
        }
        let source = Source {
            option: "--histogram",
            text: self.table.name(column),
        };
        Err(source.wrong(self.rt.alloc(), 0, TEXT_COLUMN))
    }

    /// Reads the file for standard output and for the files of `--out` and `--svg`.
    fn pass(&self, outputs: &mut Outputs<R::File>) -> Result<()> {
        self.add_values(outputs)?;
        self.open_out(outputs)?;
        self.write_header(outputs)?;
        self.read(outputs)?;
        drop(outputs.file.take());
        self.look_closer(outputs)?;
        self.draw(outputs)
    }

    /// Adds a summary of the histogram's column if there is none.
    fn add_values(&self, outputs: &mut Outputs<R::File>) -> Result<()> {
        let Some(histogram) = &outputs.histogram else {
            return Ok(());
        };
        let column = histogram.column();
        if summary_of(outputs.summaries.as_slice(), column).is_none() {
            outputs.summaries.push(Summary::new(column))?;
        }
        Ok(())
    }

    fn open_out(&self, outputs: &mut Outputs<R::File>) -> Result<()> {
        let Some(path) = &self.options.out else {
            return Ok(());
        };
        let alloc = self.rt.alloc();
        let name = path.clone()?;
        match fs::create(self.rt, name.as_str()) {
            Ok(file) => {
                drop(mem::replace(&mut outputs.file, Some((name, file))));
                Ok(())
            }
            Err(error) => {
                let failure = file_failure(alloc, name.as_str(), &error);
                drop(name);
                Err(failure)
            }
        }
    }

    /// Writes the header fields of the columns that are written.
    fn write_header(&self, outputs: &mut Outputs<R::File>) -> Result<()> {
        if !self.table.format().has_header {
            return Ok(());
        }
        let alloc = self.rt.alloc();
        let mut fields = Vec::new(alloc);
        for column in self.columns {
            fields.push(self.table.header(*column))?;
        }
        let mut text = Vec::new(alloc);
        add_row(&mut text, self.table.format().dialect, fields.as_slice())?;
        drop(fields);
        let written = outputs.write_text(self.rt, text.as_slice());
        drop(text);
        written
    }

    /// Reads the file once, and passes each batch to the outputs.
    fn read(&self, outputs: &mut Outputs<R::File>) -> Result<()> {
        let uses = self.uses(outputs)?;
        let mut batches = self.table.batches(self.rt)?;
        let mut before = 0u64;
        for _ in 0..u64::MAX {
            if !batches.next_batch(self.rt.alloc(), self.table)? {
                break;
            }
            self.batch(batches.rows(), before, uses.as_slice(), outputs)?;
            before = before.saturating_add(batches.rows().len() as u64);
        }
        drop((uses, batches));
        Ok(())
    }

    /// Returns which columns are read as values.
    fn uses(&self, outputs: &Outputs<R::File>) -> std::result::Result<Vec<bool>, AllocError> {
        let mut uses = Vec::from_elem(self.rt.alloc(), false, self.table.width())?;
        outputs.mark(uses.as_mut_slice());
        if let Some(filter) = self.filter {
            filter.mark(uses.as_mut_slice());
        }
        Ok(uses)
    }

    fn batch(
        &self,
        rows: &Rows,
        before: u64,
        uses: &[bool],
        outputs: &mut Outputs<R::File>,
    ) -> Result<()> {
        let alloc = self.rt.alloc();
        let batch = Batch::read(alloc, self.table, self.survey, rows, before, uses)?;
        let kept = self.kept(&batch)?;
        let written = Written {
            dialect: self.table.format().dialect,
            columns: self.columns,
        };
        let taken = outputs.take(self.rt, &batch, &kept, written);
        drop((batch, kept));
        taken
    }

    /// Returns which rows of a batch are kept.
    fn kept(&self, batch: &Batch<'_>) -> Result<BitBuffer> {
        let alloc = self.rt.alloc();
        match self.filter {
            Some(filter) => filter.kept(alloc, batch),
            None => match BitBuffer::new_set(alloc, batch.rows.len()) {
                Ok(all) => Ok(all),
                Err(_) => Err(Failure::Memory),
            },
        }
    }

    /// Builds the histogram again over the range of the kept values, if these fill few bins of the
    /// whole column's range. Reads the file once more for this.
    fn look_closer(&self, outputs: &mut Outputs<R::File>) -> Result<()> {
        let alloc = self.rt.alloc();
        let Some(histogram) = &outputs.histogram else {
            return Ok(());
        };
        let column = histogram.column();
        let (first, end) = histogram.bins();
        if self.filter.is_none() || end.saturating_sub(first) >= FEW_BINS {
            return Ok(());
        }
        let range = match summary_of(outputs.summaries.as_slice(), column) {
            Some(values) => values.range(alloc)?,
            None => None,
        };
        let Some(range) = range else {
            return Ok(());
        };
        let mut closer = Outputs::none(alloc);
        let histogram = Histogram::new(alloc, column, range)?;
        drop(mem::replace(&mut closer.histogram, Some(histogram)));
        self.read(&mut closer)?;
        drop(mem::replace(&mut outputs.histogram, closer.histogram.take()));
        drop(closer);
        Ok(())
    }

    fn draw(&self, outputs: &Outputs<R::File>) -> Result<()> {
        let (Some(path), Some(strip)) = (&self.options.svg, outputs.strips.last()) else {
            return Ok(());
        };
        let alloc = self.rt.alloc();
        let about = self.about(outputs.count);
        let (title, file, counts) = (about.title()?, about.base()?, about.counts()?);
        let histogram = match &outputs.histogram {
            Some(histogram) => Some((self.table.name(histogram.column()), histogram)),
            None => None,
        };
        let picture = Picture {
            alloc,
            title: title.as_str(),
            file: file.as_str(),
            counts: counts.as_str(),
            condition: self.condition(),
            strip,
            rows: self.survey.rows,
            histogram,
        };
        let svg = picture.svg();
        drop((title, file, counts));
        let svg = svg?;
        let written = fs::write(self.rt, path.as_str(), svg.as_str());
        drop(svg);
        match written {
            Ok(()) => Ok(()),
            Err(error) => Err(file_failure(alloc, path.as_str(), &error)),
        }
    }

    fn condition(&self) -> Option<&str> {
        match &self.options.condition {
            Some(condition) => Some(condition.as_str()),
            None => None,
        }
    }

    fn about(&self, kept: u64) -> Report<'_> {
        Report {
            alloc: self.rt.alloc(),
            table: self.table,
            survey: self.survey,
            condition: self.condition(),
            kept,
        }
    }

    fn report(&self) -> Result<Outcome> {
        let mut outputs = self.outputs()?;
        for column in 0..self.table.width() {
            outputs.summaries.push(Summary::new(column))?;
        }
        self.pass(&mut outputs)?;
        let text = self.report_text(&outputs);
        drop(outputs);
        self.printed(text?)
    }

    fn report_text(&self, outputs: &Outputs<R::File>) -> std::result::Result<String, AllocError> {
        let about = self.about(outputs.count);
        let mut out = String::new(self.rt.alloc());
        about.add_head(&mut out)?;
        about.add_table(&mut out, outputs.summaries.as_slice())?;
        if let Some(strip) = outputs.strips.first() {
            if about.condition.is_some() && self.survey.rows > 0 {
                about.add_strip(&mut out, strip)?;
            }
        }
        if let Some(histogram) = &outputs.histogram {
            about.add_histogram(&mut out, histogram)?;
        }
        Ok(out)
    }

    fn printed(&self, text: String) -> Result<Outcome> {
        let printed = print(self.rt, text.as_bytes());
        drop(text);
        printed?;
        Ok(Outcome::Done)
    }

    fn answers(
        &self,
        names: &[Answer],
        answered: &[Option<(Aggregate, usize)>],
    ) -> Result<Outcome> {
        let mut outputs = self.outputs()?;
        for answer in answered {
            if let Some((_, column)) = answer {
                if summary_of(outputs.summaries.as_slice(), *column).is_none() {
                    outputs.summaries.push(Summary::new(*column))?;
                }
            }
        }
        self.pass(&mut outputs)?;
        let text = self.answers_text(names, answered, &outputs);
        drop(outputs);
        let text = text?;
        let printed = print(self.rt, text.as_slice());
        drop(text);
        printed?;
        Ok(Outcome::Done)
    }

    /// Returns the answers as CSV, with their names as the header line.
    fn answers_text(
        &self,
        names: &[Answer],
        answered: &[Option<(Aggregate, usize)>],
        outputs: &Outputs<R::File>,
    ) -> Result<Vec<u8>> {
        let alloc = self.rt.alloc();
        let mut titles = Vec::new(alloc);
        for name in names {
            let title = name.title(alloc)?.into_bytes();
            titles.push(title)?;
        }
        let mut values = Vec::new(alloc);
        for answer in answered {
            let value = value(alloc, *answer, outputs.count, outputs.summaries.as_slice())?;
            values.push(value)?;
        }
        let mut text = Vec::new(alloc);
        self.add_fields(&mut text, titles.as_slice())?;
        self.add_fields(&mut text, values.as_slice())?;
        drop((titles, values));
        Ok(text)
    }

    fn add_fields(&self, text: &mut Vec<u8>, values: &[Vec<u8>]) -> Result<()> {
        let mut fields = Vec::new(self.rt.alloc());
        for value in values {
            fields.push(value.as_slice())?;
        }
        let added = add_row(text, self.table.format().dialect, fields.as_slice());
        drop(fields);
        added
    }

    fn rows(&self) -> Result<Outcome> {
        let mut outputs = self.outputs()?;
        outputs.prints = true;
        self.pass(&mut outputs)?;
        drop(outputs);
        Ok(Outcome::Done)
    }

    fn nth(&self, before: u64) -> Result<Outcome> {
        let mut outputs = self.outputs()?;
        outputs.before = Some(before);
        self.pass(&mut outputs)?;
        let outcome = match &outputs.found {
            Some(row) => {
                let text = self.about(outputs.count).row(row)?;
                self.printed(text)
            }
            None => self.no_row(outputs.count),
        };
        drop(outputs);
        outcome
    }

    /// Reports on standard error that fewer rows are kept.
    fn no_row(&self, kept: u64) -> Result<Outcome> {
        let rt = self.rt;
        let kept = grouped(rt.alloc(), kept)?;
        // Nobody reads it if standard error is closed.
        let _ = eprintln!(rt; "there is no such row: {kept} are kept");
        drop(kept);
        Ok(Outcome::NoRow)
    }
}

/// Returns the summary of a column, if there is one.
fn summary_of(summaries: &[Summary], column: usize) -> Option<&Summary> {
    for summary in summaries {
        if summary.column() == column {
            return Some(summary);
        }
    }
    None
}

/// Returns an answer about the kept rows.
fn value(
    alloc: Global,
    answer: Option<(Aggregate, usize)>,
    kept: u64,
    summaries: &[Summary],
) -> std::result::Result<Vec<u8>, AllocError> {
    let Some((aggregate, column)) = answer else {
        return Ok(format!(in alloc; "{kept}")?.into_bytes());
    };
    match summary_of(summaries, column) {
        Some(summary) => summary.answer(alloc, aggregate),
        None => Ok(Vec::new(alloc)),
    }
}
