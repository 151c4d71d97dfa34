//! The names of columns.
use query_csv::{Failure, Result, Rows, Source, shown};
use std::alloc::{AllocError, Global};

/// Returns the names of `width` columns, from the fields of the first row.
pub fn names(
    alloc: Global,
    first: &Rows,
    width: usize,
    has_header: bool,
) -> std::result::Result<Vec<String>, AllocError> {
    let mut names = Vec::new(alloc);
    for place in 0..width {
        let field = first.nth_field(place);
        let name = if has_header && !field.is_empty() {
            String::from_utf8_lossy(alloc, field)?
        } else {
            format!(in alloc; "c{}", place.saturating_add(1))?
        };
        names.push(name)?;
    }
    Ok(names)
}

/// Returns the index of the column with a name, as `Table::find` does.
pub fn find(
    alloc: Global,
    names: &[String],
    name: &str,
    source: Source<'_>,
    at: usize,
) -> Result<usize> {
    let exact = Found::among(names, name, true);
    let found = if exact.count == 0 {
        Found::among(names, name, false)
    } else {
        exact
    };
    if found.count == 1 {
        return Ok(found.first);
    }
    let message = if found.count == 0 {
        no_column(alloc, names, name)?
    } else {
        several(alloc, name, found)?
    };
    let failure = source.wrong(alloc, at, message.as_str());
    drop(message);
    Err(failure)
}

/// The number of names that match, and the first two of them.
#[derive(Clone, Copy)]
struct Found {
    count: usize,
    first: usize,
    second: usize,
}

impl Found {
    fn among(names: &[String], name: &str, with_case: bool) -> Found {
        let mut found = Found {
            count: 0,
            first: 0,
            second: 0,
        };
        for (place, own) in names.iter().enumerate() {
            let own = own.as_str();
            if own != name && (with_case || !own.eq_ignore_ascii_case(name)) {
                continue;
            }
            if found.count == 0 {
                found.first = place;
            }
            if found.count == 1 {
                found.second = place;
            }
            found.count = found.count.saturating_add(1);
        }
        found
    }
}

/// Returns the message about a name that no column has.
fn no_column(
    alloc: Global,
    names: &[String],
    name: &str,
) -> std::result::Result<String, AllocError> {
    let shown = shown(alloc, name.as_bytes(), 40)?;
    let listed = listed(alloc, names)?;
    let message = format!(in alloc; "there is no column \"{shown}\"; the columns are {listed}");
    drop((shown, listed));
    message
}

/// Returns the message about a name that several columns have.
fn several(alloc: Global, name: &str, found: Found) -> std::result::Result<String, AllocError> {
    let shown = shown(alloc, name.as_bytes(), 40)?;
    let (first, second) = (
        found.first.saturating_add(1),
        found.second.saturating_add(1),
    );
    let message = format!(in alloc;
        "{} columns are called \"{shown}\", as column {first} and column {second}; rename them in \
         the first line of the file, or read it as a row by --no-header, which calls them \
         c{first} and c{second}",
        found.count
    );
    drop(shown);
    message
}

/// The most names that an error lists.
const LISTED: usize = 12;

/// Returns the names for an error, at most the first [`LISTED`].
pub fn listed(alloc: Global, names: &[String]) -> std::result::Result<String, AllocError> {
    let mut list = String::new(alloc);
    for (place, name) in names.iter().enumerate() {
        if place > 0 {
            list.push_str(", ")?;
        }
        if place >= LISTED {
            list.push_str("..")?;
            break;
        }
        let name = shown(alloc, name.as_bytes(), 40)?;
        list.push_str(name.as_str())?;
        drop(name);
    }
    Ok(list)
}
