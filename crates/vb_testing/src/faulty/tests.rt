use crate::trials::{equal, equal_bytes};
use crate::{FaultyReader, FaultyWriter};
use std::alloc::Allocator;
use std::io::{BufWriter, Error, ErrorKind, Read, Write};
use std::process::Abort;

fn is_broken_pipe<T: Drop>(answer: Result<T, Error>) -> bool {
    match answer {
        Ok(_) => false,
        Err(fault) => fault.kind() == ErrorKind::BrokenPipe,
    }
}

/// Reads up to a fault, and then to the end. Asserts that the list has the first bytes, and then
/// all.
fn read_past_a_fault<R: Read, A: Allocator>(
    rt: &impl Abort,
    reader: &mut R,
    list: &mut Vec<u8, A>,
    first: &[u8],
) {
    equal(rt, is_broken_pipe(reader.read_to_end(list)), true);
    equal_bytes(rt, list.as_slice(), first);
    let rest = 6usize.saturating_sub(first.len());
    equal(rt, reader.read_to_end(list).ok(), Some(rest));
    equal_bytes(rt, list.as_slice(), b"abcdef");
}

/// Numbers of bytes before the fault, and these bytes.
const READS: &[(usize, &[u8])] = &[(0, b""), (4, b"abcd"), (6, b"abcdef")];

#[test]
fn a_reader_faults_once_after_its_bytes(rt: HostRuntime) {
    for (before, first) in READS {
        let mut reader = FaultyReader::new(b"abcdef".as_slice(), *before);
        let mut list = Vec::new(rt.alloc());
        read_past_a_fault(&rt, &mut reader, &mut list, first);
        drop(list);
    }
}

#[test]
fn a_reader_that_ends_before_its_fault_just_ends(rt: HostRuntime) {
    let mut reader = FaultyReader::new(b"abcdef".as_slice(), 7);
    let mut list = Vec::new(rt.alloc());
    equal(&rt, reader.read_to_end(&mut list).ok(), Some(6));
    equal_bytes(&rt, list.as_slice(), b"abcdef");
    drop(list);
}

/// Reads once, and compares the number of bytes read (`None` for a fault) and the buffer
/// afterwards.
fn is_read<R: Read>(
    rt: &impl Abort,
    reader: &mut R,
    buf: &mut [u8],
    count: Option<usize>,
    holds: &[u8],
) {
    equal(rt, reader.read(buf).ok(), count);
    equal_bytes(rt, buf, holds);
}

#[test]
fn a_read_stops_short_of_the_fault(rt: HostRuntime) {
    let mut reader = FaultyReader::new(b"abcdef".as_slice(), 2);
    let mut buf = [0u8; 4];
    is_read(&rt, &mut reader, &mut [], Some(0), b"");
    is_read(&rt, &mut reader, &mut buf, Some(2), b"ab\0\0");
    is_read(&rt, &mut reader, &mut buf, None, b"ab\0\0");
    is_read(&rt, &mut reader, &mut buf, Some(4), b"cdef");
}

/// Writes up to a fault, which writes nothing, and past it.
fn write_past_a_fault<A: Allocator>(
    rt: &impl Abort,
    writer: &mut FaultyWriter<Vec<u8, A>>,
    before: usize,
) {
    for _ in 0..before {
        equal(rt, writer.write_all(b"ab").ok(), Some(()));
        equal(rt, writer.flush().ok(), Some(()));
    }
    let written = before.saturating_mul(2);
    equal(rt, is_broken_pipe(writer.write_all(b"cd")), true);
    equal(rt, writer.inner().len(), written);
    equal(rt, writer.write_all(b"efg").ok(), Some(()));
    let ends = (writer.inner().len(), writer.inner().ends_with(b"efg"));
    equal(rt, ends, (written.saturating_add(3), true));
}

#[test]
fn a_writer_faults_once_after_its_writes(rt: HostRuntime) {
    for before in 0..3usize {
        let mut writer = FaultyWriter::new(Vec::new(rt.alloc()), before);
        write_past_a_fault(&rt, &mut writer, before);
        drop(writer);
    }
}

/// Writes two bytes, which the buffer keeps until the flush. The next write faults.
fn write_and_flush<A: Allocator>(
    rt: &impl Abort,
    writer: &mut FaultyWriter<BufWriter<Vec<u8, A>, A>>,
) {
    equal(rt, writer.write_all(b"ab").ok(), Some(()));
    equal_bytes(rt, writer.inner().get_ref().as_slice(), b"");
    equal(rt, writer.flush().ok(), Some(()));
    equal_bytes(rt, writer.inner().get_ref().as_slice(), b"ab");
    equal(rt, is_broken_pipe(writer.write_all(b"cd")), true);
}

#[test]
fn a_flush_reaches_the_writer_within_and_is_no_write(rt: HostRuntime) {
    let buffered = BufWriter::new(rt.alloc(), Vec::new(rt.alloc())).expect(&rt, "memory");
    let mut writer = FaultyWriter::new(buffered, 1);
    write_and_flush(&rt, &mut writer);
    drop(writer);
}
