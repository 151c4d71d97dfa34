//! Known results, with ample memory and with each allocation failing in turn.
use crate::tests::equal;
use crate::{Column, PageError, Run, decode_dictionary, decode_runs, masked_sum, read_page};
use std::alloc::Allocator;
use std::process::Abort;
use vb_testing::{Handle, Refusing};
use vortex_buffer::{BitBuffer, Buffer, BufferError, Result};

#[test]
fn a_null_is_not_summed(rt: HostRuntime) {
    let values = Buffer::copy_from(rt.alloc(), &[u32::MAX, 7, u32::MAX]).expect(&rt, "memory");
    let valid = BitBuffer::from_bools(rt.alloc(), &[true, false, true]).expect(&rt, "memory");
    equal(&rt, masked_sum(&values, &valid), 8_589_934_590);
    drop((values, valid));
}

/// A column that is decoded.
const COLUMN: &[u32] = &[40, 40, 50];

/// Asserts that the decoded column is [`COLUMN`].
fn is_decoded<A: Allocator>(rt: &impl Abort, made: Result<Buffer<u32, A>>) -> Result<()> {
    let column = made?;
    assert_eq!(rt; column.as_slice(), COLUMN);
    drop(column);
    Ok(())
}

/// The runs of [`COLUMN`], one of which is empty.
const RUNS: &[Run] = &[
    Run { value: 40, len: 2 },
    Run { value: 9, len: 0 },
    Run { value: 50, len: 1 },
];

/// Decodes the column from its runs and from codes.
fn decoded<A: Allocator + Clone>(rt: &impl Abort, alloc: A) -> Result<()> {
    is_decoded(rt, decode_runs(alloc.clone()?, RUNS))?;
    is_decoded(rt, decode_dictionary(alloc, &[50, 40], &[1, 1, 0]))
}

#[test]
fn columns_are_decoded_or_refused(rt: HostRuntime) {
    let heap = Refusing::new(rt.alloc(), 0);
    for _ in heap.in_turn() {
        let answer = decoded(&rt, Handle { inner: &heap });
        let refused = Err(BufferError::OutOfMemory);
        equal(&rt, answer, heap.wanted(Ok(()), refused));
    }
    equal(&rt, (heap.has_refused(), heap.asked()), (false, 9));
}

#[test]
fn the_first_unknown_code_is_told(rt: HostRuntime) {
    let answer = decode_dictionary(rt.alloc(), &[50, 40], &[1, 3, 2]).err();
    let unknown = BufferError::IndexOutOfRange { index: 3, len: 2 };
    equal(&rt, answer, Some(unknown));
}

/// A page of three rows, of which the second is null.
const PAGE: &[u8] = b"\x03\xFD\x09\0\0\0\x07\0\0\0\0\x01\0\0";

/// Asserts that the column is that of the page, by its nulls, sum, minimum and maximum.
fn is_of_page<A: Allocator + Clone>(rt: &impl Abort, column: &Column<A>) {
    equal(rt, (column.len(), column.null_count()), (3, 1));
    let few = column.len() < 4_294_967_296;
    assert!(rt; few);
    equal(rt, (column.sum(), column.min_max()), (265, Some((9, 256))));
}

fn page_is_answered<A: Allocator + Clone>(rt: &impl Abort, alloc: A) -> Result<(), PageError> {
    let page = Buffer::copy_from(alloc, PAGE)?;
    let read = read_page(&page);
    drop(page);
    let column = read?;
    is_of_page(rt, &column);
    drop(column);
    Ok(())
}

#[test]
fn a_page_is_read_or_refused(rt: HostRuntime) {
    let heap = Refusing::new(rt.alloc(), 0);
    for _ in heap.in_turn() {
        let answer = page_is_answered(&rt, Handle { inner: &heap });
        let refused = Err(PageError::Buffer(BufferError::OutOfMemory));
        equal(&rt, answer, heap.wanted(Ok(()), refused));
    }
    equal(&rt, (heap.has_refused(), heap.asked()), (false, 11));
}

#[test]
fn a_page_of_another_length_is_refused(rt: HostRuntime) {
    for end in 0..PAGE.len() {
        let page = Buffer::copy_from(rt.alloc(), &PAGE[..end]).expect(&rt, "memory");
        equal(&rt, read_page(&page).err(), Some(PageError::Length));
        drop(page);
    }
}
