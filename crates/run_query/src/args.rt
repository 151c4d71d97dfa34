//! The command line.
use crate::texts::{split_first, split_last};
use query_csv::{Failure, Result, told};
use query_table::{Format, Kind};
use std::alloc::{AllocError, Global};
use std::mem;

/// The text that `--help` prints.
pub const HELP: &str = "\
Answers a query over a CSV file by the calls of vortex_buffer, and draws it.

usage: run_query FILE [option..]; FILE may be -, standard input that is redirected from a file

  --where CONDITION    the rows to keep: size > 4 and not (name in ('a', 'b') or \"a b\" is null)
  --select LIST        print answers as CSV: count(*), count(c), sum(c), min(c), max(c), avg(c)
  --rows               print the kept rows as CSV
  --nth N              print the N-th kept row, from 1 on; status 1 if there is none
  --out FILE           write the kept rows to a file as CSV
  --columns LIST       the columns that --rows and --out write, in this order: size, \"a b\"
  --svg FILE           draw the kept rows and the histogram to a file
  --histogram COLUMN   the column of the histogram; else the first one of numbers
  --delimiter BYTE     between fields, a comma by default; tab is one too
  --no-header          the first line is a row; the columns are c1, c2, ..
  --no-quotes          a double quote is a byte like others
  --short-rows         a row may lack fields at its end; they are null
  --type COLUMN=TYPE   whole, float or text, in place of what the fields show; may be repeated
  --help               print this

Without --select, --rows and --nth it prints a table of the columns, which rows are kept, and the
histogram. An empty field is null. Status 2 is an error.
";

/// The text on standard output.
#[derive(Drop)]
pub enum Print {
    /// The table of columns, the kept rows as a strip, and a histogram.
    Report,
    /// The answers of this list.
    Answers(String),
    /// All kept rows.
    Rows,
    /// The kept row that has this number of kept rows before it.
    Nth(u64),
}

/// The options of a run.
#[derive(Drop)]
pub struct Options {
    /// The CSV file.
    pub file: String,
    /// The text of the condition.
    pub condition: Option<String>,
    /// The text on standard output.
    pub print: Print,
    /// The file for kept rows.
    pub out: Option<String>,
    /// The text of the list of columns.
    pub columns: Option<String>,
    /// The file for the picture.
    pub svg: Option<String>,
    /// The column of the histogram.
    pub histogram: Option<String>,
    /// How the CSV file is read.
    pub format: Format,
    /// Types of columns.
    pub kinds: Vec<(String, Kind)>,
}

impl Options {
    /// Returns the options of a command line without the program's name; None for `--help`.
    ///
    /// Fails if there is no file or more than one, and if an option is unknown, lacks a value, has
    /// an invalid one, or doesn't fit the others.
    pub fn parse(alloc: Global, words: &[String]) -> Result<Option<Options>> {
        let mut parser = Parser::new(alloc);
        for word in words {
            if parser.word(word.as_str())? {
                return Ok(None);
            }
        }
        Ok(Some(parser.options()?))
    }
}

/// Options that are read from words one by one.
#[derive(Drop)]
struct Parser {
    alloc: Global,
    options: Options,
    /// The number of files.
    files: u64,
    /// Whether all words that follow are files.
    only_files: bool,
    /// The option whose value is the next word.
    awaited: Option<String>,
}

impl Parser {
    fn new(alloc: Global) -> Parser {
        Parser {
            alloc,
            options: Options {
                file: String::new(alloc),
                condition: None,
                print: Print::Report,
                out: None,
                columns: None,
                svg: None,
                histogram: None,
                format: Format::commas(),
                kinds: Vec::new(alloc),
            },
            files: 0,
            only_files: false,
            awaited: None,
        }
    }

    /// Reads a word. Returns whether it requests the help.
    fn word(&mut self, word: &str) -> Result<bool> {
        if let Some(name) = self.awaited.take() {
            let valued = self.value(name.as_str(), word);
            drop(name);
            valued?;
            return Ok(false);
        }
        if self.only_files {
            self.file(word)?;
            return Ok(false);
        }
        match word {
            "--help" | "-h" => return Ok(true),
            "--" => self.only_files = true,
            _ => self.option_or_file(word)?,
        }
        Ok(false)
    }

    fn option_or_file(&mut self, word: &str) -> Result<()> {
        match word.as_bytes() {
            [b'-', b'-', ..] => self.option(word),
            [b'-', _, ..] => {
                let alloc = self.alloc;
                Err(usage(alloc, format!(in alloc; "there is no option {word}")))
            }
            _ => self.file(word),
        }
    }

    /// Takes a file: `-` is standard input.
    fn file(&mut self, word: &str) -> Result<()> {
        let path = if word == "-" { "/dev/stdin" } else { word };
        let file = String::from_str(self.alloc, path)?;
        drop(mem::replace(&mut self.options.file, file));
        self.files = self.files.saturating_add(1);
        Ok(())
    }

    /// Reads an option. Its value follows `=` or is the next word.
    fn option(&mut self, word: &str) -> Result<()> {
        match split_first(self.alloc, word)? {
            Some((name, value)) => {
                let set = self.with_value(name.as_str(), value.as_str());
                drop((name, value));
                set
            }
            None => self.without_value(word),
        }
    }

    fn with_value(&mut self, name: &str, value: &str) -> Result<()> {
        let alloc = self.alloc;
        if is_flag(name) {
            return Err(usage(alloc, format!(in alloc; "{name} has no value")));
        }
        self.check(name)?;
        self.value(name, value)
    }

    fn without_value(&mut self, name: &str) -> Result<()> {
        if is_flag(name) {
            return self.flag(name);
        }
        self.check(name)?;
        let name = String::from_str(self.alloc, name)?;
        drop(mem::replace(&mut self.awaited, Some(name)));
        Ok(())
    }

    /// Fails if no option with a value has this name.
    fn check(&self, name: &str) -> Result<()> {
        for known in VALUED {
            if *known == name {
                return Ok(());
            }
        }
        let alloc = self.alloc;
        Err(usage(alloc, format!(in alloc; "there is no option {name}")))
    }

    fn flag(&mut self, name: &str) -> Result<()> {
        match name {
            "--rows" => return self.print(Print::Rows),
            "--no-header" => self.options.format.has_header = false,
            "--short-rows" => self.options.format.has_short_rows = true,
            _ => self.options.format.dialect.quote = None,
        }
        Ok(())
    }

    fn value(&mut self, name: &str, value: &str) -> Result<()> {
        let alloc = self.alloc;
        match name {
            "--nth" => return self.print(Print::Nth(nth(alloc, value)?)),
            "--delimiter" => {
                self.options.format.dialect.delimiter = delimiter(alloc, value)?;
                return Ok(());
            }
            _ => {}
        }
        if name == "--type" {
            let kind = kind(alloc, value)?;
            self.options.kinds.push(kind)?;
            return Ok(());
        }
        self.text(name, String::from_str(alloc, value)?)
    }

    fn text(&mut self, name: &str, text: String) -> Result<()> {
        let place = match name {
            "--select" => return self.print(Print::Answers(text)),
            "--where" => &mut self.options.condition,
            "--out" => &mut self.options.out,
            "--svg" => &mut self.options.svg,
            "--columns" => &mut self.options.columns,
            _ => &mut self.options.histogram,
        };
        if place.is_some() {
            drop(text);
            let alloc = self.alloc;
            return Err(usage(alloc, format!(in alloc; "{name} is given twice")));
        }
        drop(mem::replace(place, Some(text)));
        Ok(())
    }

    fn print(&mut self, print: Print) -> Result<()> {
        if !matches!(self.options.print, Print::Report) {
            drop(print);
            let text = "one of --select, --rows and --nth is wanted at most";
            return Err(usage(self.alloc, String::from_str(self.alloc, text)));
        }
        drop(mem::replace(&mut self.options.print, print));
        Ok(())
    }

    /// Returns the options, once all words are read.
    fn options(self) -> Result<Options> {
        let Parser {
            alloc,
            options,
            files,
            only_files: _,
            awaited,
        } = self;
        if let Some(name) = awaited {
            drop(options);
            let text = format!(in alloc; "{name} wants a value");
            drop(name);
            return Err(usage(alloc, text));
        }
        if files != 1 {
            drop(options);
            let text = format!(in alloc; "one CSV file is wanted, {files} are given");
            return Err(usage(alloc, text));
        }
        let writes = options.out.is_some() || matches!(options.print, Print::Rows);
        if options.columns.is_some() && !writes {
            drop(options);
            return Err(usage(alloc, String::from_str(alloc, NOTHING_WRITTEN)));
        }
        Ok(options)
    }
}

const NOTHING_WRITTEN: &str = "--columns is for --rows and --out, of which neither is given";

/// The options with a value.
const VALUED: &[&str] = &[
    "--where",
    "--select",
    "--nth",
    "--out",
    "--svg",
    "--columns",
    "--histogram",
    "--delimiter",
    "--type",
];

/// Returns whether an option has no value.
fn is_flag(name: &str) -> bool {
    matches!(
        name,
        "--rows" | "--no-header" | "--no-quotes" | "--short-rows"
    )
}

/// Returns the failure of a command line.
fn usage(alloc: Global, wrong: std::result::Result<String, AllocError>) -> Failure {
    match wrong {
        Ok(wrong) => {
            let text = format!(in alloc; "{wrong}; --help lists the options");
            drop(wrong);
            told(text)
        }
        Err(_) => Failure::Memory,
    }
}

fn nth(alloc: Global, text: &str) -> Result<u64> {
    match text.parse::<u64>() {
        Ok(number) if number > 0 => Ok(number - 1),
        _ => {
            let wrong = format!(in alloc; "--nth {text:?}: a whole number from 1 on is wanted");
            Err(usage(alloc, wrong))
        }
    }
}

fn delimiter(alloc: Global, text: &str) -> Result<u8> {
    match text.as_bytes() {
        b"tab" | b"\\t" => Ok(b'\t'),
        [byte] if !matches!(*byte, b'"' | b'\n' | b'\r') => Ok(*byte),
        _ => {
            let wrong = format!(in alloc;
                "--delimiter {text:?}: one ASCII character is wanted, or tab"
            );
            Err(usage(alloc, wrong))
        }
    }
}

fn kind(alloc: Global, text: &str) -> Result<(String, Kind)> {
    if let Some((column, name)) = split_last(alloc, text)? {
        let kind = Kind::named(name.as_str());
        drop(name);
        if let Some(kind) = kind {
            return Ok((column, kind));
        }
        drop(column);
    }
    let wrong = format!(in alloc; "--type {text:?}: COLUMN=whole, =float or =text is wanted");
    Err(usage(alloc, wrong))
}
