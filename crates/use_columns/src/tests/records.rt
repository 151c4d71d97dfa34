//! Files with known names, with ample memory and with each allocation failing in turn.
use crate::tests::equal;
use crate::{ReadError, read_name};
use std::alloc::{Allocator, Global};
use std::process::Abort;
use vb_testing::{Handle, Refusing};
use vortex_buffer::{AlignedBuf, Buffer, BufferError};

/// The names "ab" and "", and a third that is cut short.
const FILE: &[u8] = b"\x02ab\x00\x05c";

/// The names of the file, each with the number of bytes after it.
const NAMES: &[(&str, usize)] = &[("ab", 3), ("", 2)];

/// Reads the next name. If memory runs out, the file is unchanged.
fn reads<B: AlignedBuf, A: Allocator + Clone>(
    rt: &impl Abort,
    alloc: &A,
    file: &mut B,
    (text, left): (&str, usize),
) -> Result<(), ReadError> {
    let before = file.remaining();
    let read = read_name(alloc.clone().map_err(BufferError::from)?, file);
    let wanted = if read.is_ok() { left } else { before };
    equal(rt, file.remaining(), wanted);
    let name = read?;
    equal(rt, name.as_str(), text);
    drop(name);
    Ok(())
}

/// Reads the two names, and expects that the third is cut short.
fn two_names<B: AlignedBuf, A: Allocator + Clone>(
    rt: &impl Abort,
    alloc: A,
    file: &mut B,
) -> Result<(), ReadError> {
    for name in NAMES {
        reads(rt, &alloc, file, *name)?;
    }
    let cut = read_name(alloc, file).err();
    equal(rt, (cut, file.remaining()), (Some(ReadError::CutShort), 2));
    Ok(())
}

#[test]
fn names_are_read_or_refused(rt: HostRuntime) {
    let heap = Refusing::new(rt.alloc(), 0);
    for _ in heap.in_turn() {
        let mut file = FILE;
        let answer = two_names(&rt, Handle { inner: &heap }, &mut file);
        let refused = Err(ReadError::Buffer(BufferError::OutOfMemory));
        equal(&rt, answer, heap.wanted(Ok(()), refused));
    }
    equal(&rt, (heap.has_refused(), heap.asked()), (false, 9));
}

#[test]
fn names_of_a_buffer_are_read(rt: HostRuntime) {
    let mut file = Buffer::copy_from(rt.alloc(), FILE).expect(&rt, "memory");
    equal(&rt, two_names(&rt, rt.alloc(), &mut file), Ok(()));
    drop(file);
}

#[test]
fn what_is_no_text_stays(rt: HostRuntime) {
    let mut file = b"\x02a\xFF".as_slice();
    let answer = read_name(rt.alloc(), &mut file).err();
    let wanted = ReadError::Buffer(BufferError::NotUtf8 { valid_up_to: 1 });
    equal(&rt, (answer, file.len()), (Some(wanted), 3));
}

/// Characters of one to four bytes in UTF-8, with the last ones of two, three and four bytes.
const LETTERS: &str = "aZ é\u{7ff}関\u{ffff}\u{10000}\u{10ffff}";

/// Names with characters of several bytes, each as a text and the number of its repetitions. A
/// reader that takes the length for a number of characters reads none of them. The last two have 63
/// characters, the most of four bytes whose length fits in one byte.
const REPEATED: &[(&str, usize)] = &[
    ("Émilie du Châtelet", 1),
    ("関", 1),
    ("\u{1d11e}", 1),
    (LETTERS, 7),
    ("\u{10ffff}", 63),
];

/// Appends a name to a file, after its length in one byte.
fn add_name(rt: &impl Abort, file: &mut Vec<u8>, name: &str) {
    let len = u8::try_from(name.len()).expect(rt, "a length in one byte");
    file.push(len).expect(rt, "memory");
    file.extend_from_slice(name.as_bytes()).expect(rt, "memory");
}

/// Asserts that the name of this text is read from a file between two other names.
fn is_read_between(rt: &impl Abort, global: Global, (text, times): (&str, usize)) {
    let name = text.repeat(global, times).expect(rt, "memory");
    let mut bytes = Vec::new(global);
    for stored in ["Ada", name.as_str(), "関"] {
        add_name(rt, &mut bytes, stored);
    }
    let mut file = bytes.as_slice();
    let after_ada = name.len().saturating_add(5);
    for wanted in [("Ada", after_ada), (name.as_str(), 4), ("関", 0)] {
        equal(rt, reads(rt, &global, &mut file, wanted), Ok(()));
    }
    drop((name, bytes));
}

#[test]
fn names_of_several_bytes_a_character_are_read(rt: HostRuntime) {
    for row in REPEATED {
        is_read_between(&rt, rt.alloc(), *row);
    }
}
