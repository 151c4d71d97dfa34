//! Three-valued logic into windows, compared with the table of the nine pairs: at every offset of
//! the windows in their bytes, and at lengths that differ.
ghost use Rattle.std.specs.Prelude.{◌≡◌, length};
ghost use Rattle.std.specs.Option.{ForSome};
ghost use Rattle.vb_view.specs.View.{bits_of};

use crate::compared::{equal_lists, holds};
use crate::kleene::{AND, OR, Table, Truth, combined};
use crate::masks::Kept;
use crate::windows::{bytes_of, copied, set};
use std::alloc::Global;
use std::process::Abort;
use vb_bits::window_fits;
use vb_kleene::{and_kleene_into, or_kleene_into};
use vb_view::BitBufferView;

/// A column in bytes that all windows share: the bits at which its values and its validity, if
/// there is one, begin.
#[derive(Clone, Copy)]
struct Side {
    values: usize,
    validity: Option<usize>,
}

/// The bits at which the written windows begin, and the columns.
#[derive(Clone, Copy)]
struct Windows {
    trues: usize,
    valid: usize,
    left: Side,
    right: Side,
    len: usize,
}

impl Windows {
    /// The n-th of many cases, whose windows begin at one of the first eight bits.
    fn nth(n: usize) -> Windows {
        let validity = |here: bool, at: usize| if here { Some(at % 8) } else { None };
        Windows {
            trues: n % 8,
            valid: n / 8 % 8,
            left: Side {
                values: n / 64 % 8,
                validity: validity(n % 3 != 0, n / 512),
            },
            right: Side {
                values: n / 7 % 8,
                validity: validity(n % 5 != 0, n / 11),
            },
            len: n % 613,
        }
    }
}

fn bit(bytes: &[u8], at: usize) -> bool {
    match bytes.get(at / 8) {
        Some(byte) => byte >> (at % 8) & 1 == 1,
        None => false,
    }
}

fn truth(bytes: &[u8], side: Side, place: usize) -> Truth {
    let value = bit(bytes, side.values.saturating_add(place));
    match side.validity {
        Some(at) if !bit(bytes, at.saturating_add(place)) => None,
        _ => Some(value),
    }
}

fn view<'a>(rt: &impl Abort, bytes: &'a [u8], at: usize, len: usize) -> BitBufferView<'a>
    ensures { length (bits_of result) ≡ len }
{
    holds(rt, window_fits(bytes, at, len));
    BitBufferView::new_with_offset(bytes, len, at)
}

fn validity<'a>(
    rt: &impl Abort,
    bytes: &'a [u8],
    side: Side,
    len: usize,
) -> Option<BitBufferView<'a>>
    ensures { ForSome result (λ v. length (bits_of v) ≡ len) }
{
    match side.validity {
        Some(at) => Some(view(rt, bytes, at, len)),
        None => None,
    }
}

/// The results of the table, one after the other.
fn combine_by_rows(trues: &mut [u8], valid: &mut [u8], bytes: &[u8], table: &Table, at: Windows) {
    for place in 0..at.len {
        let row = combined(
            table,
            truth(bytes, at.left, place),
            truth(bytes, at.right, place),
        );
        set(trues, at.trues.saturating_add(place), row == Some(true));
        set(valid, at.valid.saturating_add(place), row.is_some());
    }
}

/// The call and the table leave the same in all bytes.
fn combines_as_the_table(rt: &impl Abort, alloc: Global, bytes: &[u8], and: bool, at: Windows) {
    let mut trues = copied(rt, alloc, bytes);
    let mut valid = copied(rt, alloc, bytes);
    let mut wanted = (copied(rt, alloc, bytes), copied(rt, alloc, bytes));
    let left = view(rt, bytes, at.left.values, at.len);
    let right = view(rt, bytes, at.right.values, at.len);
    let left_valid = validity(rt, bytes, at.left, at.len);
    let right_valid = validity(rt, bytes, at.right, at.len);
    holds(rt, window_fits(trues.as_slice(), at.trues, at.len));
    holds(rt, window_fits(valid.as_slice(), at.valid, at.len));
    let (to, known) = (trues.as_mut_slice(), valid.as_mut_slice());
    let table = if and { AND } else { OR };
    if and {
        and_kleene_into(
            to,
            at.trues,
            known,
            at.valid,
            left,
            left_valid,
            right,
            right_valid,
        );
    } else {
        or_kleene_into(
            to,
            at.trues,
            known,
            at.valid,
            left,
            left_valid,
            right,
            right_valid,
        );
    }
    combine_by_rows(
        wanted.0.as_mut_slice(),
        wanted.1.as_mut_slice(),
        bytes,
        table,
        at,
    );
    equal_lists(rt, trues.as_slice(), wanted.0.as_slice());
    equal_lists(rt, valid.as_slice(), wanted.1.as_slice());
    drop((trues, valid, wanted));
}

#[test]
fn windows_have_what_the_table_says(rt: HostRuntime) {
    let bytes = bytes_of(&rt, rt.alloc(), 80, Kept::Runs(3, 7));
    for n in 0..8192 {
        combines_as_the_table(
            &rt,
            rt.alloc(),
            bytes.as_slice(),
            n % 2 == 0,
            Windows::nth(n),
        );
    }
    drop(bytes);
}

#[test]
fn so_have_windows_of_many_words(rt: HostRuntime) {
    let bytes = bytes_of(&rt, rt.alloc(), 1300, Kept::AllButOneIn(5));
    for n in 0..512 {
        let at = Windows {
            len: 10_300_usize.saturating_add(n % 64),
            ..Windows::nth(n)
        };
        combines_as_the_table(&rt, rt.alloc(), bytes.as_slice(), n % 2 == 0, at);
    }
    drop(bytes);
}
