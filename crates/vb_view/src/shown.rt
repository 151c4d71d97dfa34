//! `Debug` for views.
use crate::mut_view::{BitBufferMutView, BitStore};
use crate::view::BitBufferView;
use std::fmt;

/// The most bits that are printed.
const SHOWN: usize = 64;

/// Prints at most the first 64 bits, for example `BitBufferView(01101)`, and `..` after them if
/// there are more.
impl<'a> fmt::Debug for BitBufferView<'a> {
    fn fmt<W: fmt::Write>(&self, f: &mut fmt::Formatter<W>) -> fmt::Result {
        write_view(f, "BitBufferView", *self)
    }
}

/// Prints at most the first 64 bits, for example `BitBufferMutView(01101)`, and `..` after them if
/// there are more.
impl<S: BitStore> fmt::Debug for BitBufferMutView<S> {
    fn fmt<W: fmt::Write>(&self, f: &mut fmt::Formatter<W>) -> fmt::Result {
        write_view(f, "BitBufferMutView", self.as_view())
    }
}

/// Writes the name of a type and at most the first 64 bits as digits, with `..` after them if there
/// are more.
fn write_view<W: fmt::Write>(
    f: &mut fmt::Formatter<W>,
    name: &str,
    view: BitBufferView<'_>,
) -> fmt::Result {
    write!(f, "{name}(")?;
    for i in 0..view.len().min(SHOWN) {
        let digit = if view.value(i) { "1" } else { "0" };
        write!(f, "{digit}")?;
    }
    let end = if view.len() > SHOWN { "..)" } else { ")" };
    write!(f, "{end}")
}
