//! The splitting of bytes into rows and fields, byte by byte.
use crate::error::{CsvError, Malformed};
use crate::rows::Rows;

/// The most bytes of one row's fields, without quotes and delimiters. A longer row is an error, so
/// that memory stays bounded.
pub const LONGEST_ROW: usize = 16_777_216;

/// The most fields of one row.
pub const MOST_FIELDS: usize = 1_048_576;

/// The bytes that separate and quote fields.
#[derive(Clone, Copy, PartialEq, Eq)]
pub struct Dialect {
    /// The byte between two fields.
    pub delimiter: u8,
    /// The byte around a quoted field; None if no field is quoted.
    pub quote: Option<u8>,
}

/// The state before the next byte of a row.
#[derive(Clone, Copy, PartialEq, Eq)]
enum State {
    /// Before a row.
    Row,
    /// Before the first byte of a field that isn't the row's first one.
    Field,
    /// In a field without quotes.
    Plain,
    /// Between the quotes of a field.
    Quoted,
    /// Behind a quote that closes its field, or is the first of two.
    Quote,
    /// Behind a carriage return that ends a field.
    Return,
}

/// A splitter of the bytes of a file, which come in pieces of any length.
#[derive(Drop)]
pub struct Splitter {
    dialect: Dialect,
    state: State,
    /// The line of the next byte, from 1 on.
    line: u64,
    /// The line of the last quote that opened a field.
    opened: u64,
    /// The number of fields of the row that have ended.
    field: usize,
    /// The number of bytes of the row's fields.
    size: usize,
}

impl Splitter {
    /// Returns a splitter at the first byte of a file.
    pub fn new(dialect: Dialect) -> Splitter {
        Splitter {
            dialect,
            state: State::Row,
            line: 1,
            opened: 1,
            field: 0,
            size: 0,
        }
    }

    /// Adds the fields of bytes to the rows, up to the end of a row. Returns the number of bytes it
    /// read, and whether a row has ended.
    ///
    /// The error of malformed bytes has the line, the field and the reason. After an error `rows`
    /// has the rows before it, and may end in a part of a row.
    pub fn feed(&mut self, bytes: &[u8], rows: &mut Rows) -> Result<(usize, bool), CsvError> {
        let mut taken = 0usize;
        for byte in bytes {
            taken = taken.saturating_add(1);
            if self.step(*byte, rows)? {
                return Ok((taken, true));
            }
        }
        Ok((taken, false))
    }

    /// Ends the last row of a file, which may lack a line end. Returns whether there is one.
    ///
    /// Fails inside a quoted field, after a carriage return, and if memory runs out.
    pub fn finish(&mut self, rows: &mut Rows) -> Result<bool, CsvError> {
        match self.state {
            State::Row => Ok(false),
            State::Quoted => Err(CsvError::Malformed {
                line: self.opened,
                field: self.field,
                what: Malformed::Unclosed,
            }),
            State::Return => Err(self.malformed(Malformed::CarriageReturn)),
            State::Field | State::Plain | State::Quote => self.end_row(rows),
        }
    }

    fn step(&mut self, byte: u8, rows: &mut Rows) -> Result<bool, CsvError> {
        match self.state {
            State::Row => {
                rows.begin_row(self.line)?;
                self.field = 0;
                self.size = 0;
                self.begin_field(byte, rows)
            }
            State::Field => self.begin_field(byte, rows),
            State::Plain => self.plain(byte, rows),
            State::Quoted => self.quoted(byte, rows),
            State::Quote => self.after_quote(byte, rows),
            State::Return if byte == b'\n' => self.end_row(rows),
            State::Return => Err(self.malformed(Malformed::CarriageReturn)),
        }
    }

    fn begin_field(&mut self, byte: u8, rows: &mut Rows) -> Result<bool, CsvError> {
        if self.is_quote(byte) {
            self.state = State::Quoted;
            self.opened = self.line;
            return Ok(false);
        }
        self.state = State::Plain;
        self.plain(byte, rows)
    }

    fn plain(&mut self, byte: u8, rows: &mut Rows) -> Result<bool, CsvError> {
        if self.is_end(byte) {
            return self.end(byte, rows);
        }
        self.push(byte, rows)
    }

    fn quoted(&mut self, byte: u8, rows: &mut Rows) -> Result<bool, CsvError> {
        if self.is_quote(byte) {
            self.state = State::Quote;
            return Ok(false);
        }
        if byte == b'\n' {
            self.line = self.line.saturating_add(1);
        }
        self.push(byte, rows)
    }

    fn after_quote(&mut self, byte: u8, rows: &mut Rows) -> Result<bool, CsvError> {
        if self.is_quote(byte) {
            self.state = State::Quoted;
            return self.push(byte, rows);
        }
        if self.is_end(byte) {
            return self.end(byte, rows);
        }
        Err(self.malformed(Malformed::AfterQuote(byte)))
    }

    fn push(&mut self, byte: u8, rows: &mut Rows) -> Result<bool, CsvError> {
        if self.size >= LONGEST_ROW {
            return Err(self.too_long());
        }
        self.size = self.size.saturating_add(1);
        rows.push(byte)?;
        Ok(false)
    }

    /// Processes a delimiter, or the first byte of a line end.
    fn end(&mut self, byte: u8, rows: &mut Rows) -> Result<bool, CsvError> {
        if byte == self.dialect.delimiter {
            return self.end_field(rows);
        }
        if byte == b'\r' {
            self.state = State::Return;
            return Ok(false);
        }
        self.end_row(rows)
    }

    fn end_field(&mut self, rows: &mut Rows) -> Result<bool, CsvError> {
        self.field = self.field.saturating_add(1);
        if self.field >= MOST_FIELDS {
            return Err(self.malformed(Malformed::TooLong));
        }
        self.state = State::Field;
        rows.end_field()?;
        Ok(false)
    }

    fn end_row(&mut self, rows: &mut Rows) -> Result<bool, CsvError> {
        self.line = self.line.saturating_add(1);
        self.state = State::Row;
        rows.end_field()?;
        Ok(true)
    }

    fn is_quote(&self, byte: u8) -> bool {
        match self.dialect.quote {
            Some(quote) => quote == byte,
            None => false,
        }
    }

    fn is_end(&self, byte: u8) -> bool {
        byte == self.dialect.delimiter || byte == b'\n' || byte == b'\r'
    }

    /// Returns the error of a row that is too long, at the line where the current field begins.
    fn too_long(&self) -> CsvError {
        let is_quoted = self.state == State::Quoted;
        CsvError::Malformed {
            line: if is_quoted { self.opened } else { self.line },
            field: self.field,
            what: Malformed::TooLong,
        }
    }

    fn malformed(&self, what: Malformed) -> CsvError {
        CsvError::Malformed {
            line: self.line,
            field: self.field,
            what,
        }
    }
}
