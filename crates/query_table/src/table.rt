//! A CSV file, with the names of its columns.
use crate::batches::Batches;
use crate::names::{find, listed, names};
use query_csv::{CsvError, Dialect, Failure, Reader, Result, Rows, Source, shown, told};
use std::alloc::{AllocError, Global};
use std::rt::Files;
use std::{fs, io};

/// How a file is read.
#[derive(Clone, Copy)]
pub struct Format {
    /// The bytes that separate and quote fields.
    pub dialect: Dialect,
    /// Whether the first row has the names of the columns.
    pub has_header: bool,
    /// Whether rows may lack fields at their end. These are then null.
    pub has_short_rows: bool,
}

impl Format {
    /// Returns the format with commas, double quotes and a header line.
    pub fn commas() -> Format {
        Format {
            dialect: Dialect {
                delimiter: b',',
                quote: Some(b'"'),
            },
            has_header: true,
            has_short_rows: false,
        }
    }
}

/// A CSV file, with the names of its columns.
#[derive(Drop)]
pub struct Table {
    alloc: Global,
    path: String,
    format: Format,
    names: Vec<String>,
    /// The first row.
    first: Rows,
}

impl Table {
    /// Returns the table of a file, whose first row has the names of the columns. Without a header
    /// line, or if a name is empty, a column is called c1, c2 and so on. Without a header line and
    /// if rows may be short, there is a column for each field of the longest row, and the call
    /// reads the whole file.
    ///
    /// Fails if the file isn't a regular one, can't be read, is empty, or begins with no row of
    /// CSV. If it reads the whole file, it also fails if any row isn't CSV.
    pub fn open<R: Files + AllocGlobal>(rt: &R, path: &str, format: Format) -> Result<Table> {
        let alloc = rt.alloc();
        let is_file = match fs::metadata(rt, path) {
            Ok(file) => file.is_file(),
            Err(error) => return Err(file_failure(alloc, path, &error)),
        };
        if !is_file {
            return Err(told(format!(in alloc; "{path}: {NOT_REGULAR}")));
        }
        let mut table = Table {
            alloc,
            path: String::from_str(alloc, path)?,
            format,
            names: Vec::new(alloc),
            first: Rows::new(alloc, 0)?,
        };
        table.read_names(rt)?;
        Ok(table)
    }

    /// Reads the first row.
    fn read_names<R: Files + AllocGlobal>(&mut self, rt: &R) -> Result<()> {
        let mut reader = self.reader(rt)?;
        let read = reader.read_row(&mut self.first);
        drop(reader);
        match read {
            Ok(true) => {}
            Ok(false) => return Err(self.empty()),
            Err(error) => return Err(self.failure(error)),
        }
        let has_header = self.format.has_header;
        let width = if has_header || !self.format.has_short_rows {
            self.first.fields()
        } else {
            self.widest(rt)?
        };
        let names = names(self.alloc, &self.first, width, has_header)?;
        drop(std::mem::replace(&mut self.names, names));
        Ok(())
    }

    /// Reads the file once. Returns the greatest number of fields in a row.
    fn widest<R: Files + AllocGlobal>(&self, rt: &R) -> Result<usize> {
        let mut reader = self.reader(rt)?;
        let mut rows = Rows::new(self.alloc, 0)?;
        let mut widest = 0usize;
        for _ in 0..u64::MAX {
            rows.clear();
            let read = reader.read_row(&mut rows);
            if !self.checked(read)? {
                break;
            }
            widest = widest.max(rows.fields());
        }
        drop((reader, rows));
        Ok(widest)
    }

    fn empty(&self) -> Failure {
        let path = self.path();
        let names = if self.format.has_header {
            " with the names of the columns"
        } else {
            ""
        };
        told(format!(in self.alloc; "{path}:1: the file is empty; a row{names} is wanted"))
    }

    /// Returns the file.
    pub fn path(&self) -> &str {
        self.path.as_str()
    }

    /// Returns how the file is read.
    pub fn format(&self) -> Format {
        self.format
    }

    /// Returns the number of columns.
    pub fn width(&self) -> usize {
        self.names.len()
    }

    /// Returns the name of a column; an empty text if there is no such column.
    pub fn name(&self, column: usize) -> &str {
        match self.names.get(column) {
            Some(name) => name.as_str(),
            None => "",
        }
    }

    /// Returns a field of the first row, without its quotes; no bytes if it doesn't exist.
    pub fn header(&self, column: usize) -> &[u8] {
        self.first.nth_field(column)
    }

    /// Returns the index of a column. Compares names exactly; if none is equal, ignores the case of
    /// ASCII letters, as SQL does.
    ///
    /// Fails if no column has the name, or several have it. The error has the text of `source`,
    /// with the name at byte `at`.
    pub fn find(&self, name: &str, source: Source<'_>, at: usize) -> Result<usize> {
        find(self.alloc, self.names.as_slice(), name, source, at)
    }

    /// Returns the names for an error, at most the first 12.
    pub fn listed(&self) -> std::result::Result<String, AllocError> {
        listed(self.alloc, self.names.as_slice())
    }

    /// Returns the rows of the file, read anew.
    pub fn batches<R: Files + AllocGlobal>(&self, rt: &R) -> Result<Batches<R::File>> {
        let mut reader = self.reader(rt)?;
        let mut rows = Rows::new(self.alloc, self.width())?;
        if self.format.has_header {
            let read = reader.read_row(&mut rows);
            self.checked(read)?;
            rows.clear();
        }
        Ok(Batches::new(reader, rows))
    }

    fn reader<R: Files + AllocGlobal>(&self, rt: &R) -> Result<Reader<R::File>> {
        match fs::open(rt, self.path()) {
            Ok(file) => match Reader::new(self.alloc, file, self.format.dialect) {
                Ok(reader) => Ok(reader),
                Err(error) => Err(self.failure(error)),
            },
            Err(error) => Err(file_failure(self.alloc, self.path(), &error)),
        }
    }

    /// Returns the result of a read, or its failure for the user.
    pub fn checked(&self, read: std::result::Result<bool, CsvError>) -> Result<bool> {
        match read {
            Ok(has_row) => Ok(has_row),
            Err(error) => Err(self.failure(error)),
        }
    }

    fn failure(&self, error: CsvError) -> Failure {
        match error {
            CsvError::Io(error) => file_failure(self.alloc, self.path(), &error),
            CsvError::Memory => Failure::Memory,
            CsvError::Malformed { line, field, what } => {
                match what.message(self.alloc) {
                    Ok(message) => {
                        let failure = self.wrong_field(line, field, message.as_str());
                        drop(message);
                        failure
                    }
                    Err(_) => Failure::Memory,
                }
            }
        }
    }

    /// Returns the error of a field in a line of the file.
    pub fn wrong_field(&self, line: u64, field: usize, message: &str) -> Failure {
        told(self.wrong_text(line, field, message))
    }

    fn wrong_text(
        &self,
        line: u64,
        field: usize,
        message: &str,
    ) -> std::result::Result<String, AllocError> {
        let path = self.path();
        let column = self.column_of(field)?;
        let text = format!(in self.alloc; "{path}:{line}: {column}: {message}");
        drop(column);
        text
    }

    /// Returns the name of a field's column for an error.
    fn column_of(&self, field: usize) -> std::result::Result<String, AllocError> {
        match self.names.get(field) {
            Some(name) => {
                let name = shown(self.alloc, name.as_bytes(), 40)?;
                let column = format!(in self.alloc; "column \"{name}\"");
                drop(name);
                column
            }
            None => format!(in self.alloc; "column {}", field.saturating_add(1)),
        }
    }
}

const NOT_REGULAR: &str = "not a regular file; it is read twice, so save the data to a file first";

/// Returns the failure of a file, with the system's message.
pub fn file_failure(alloc: Global, path: &str, error: &io::Error) -> Failure {
    told(format!(in alloc; "{path}: {error}"))
}
