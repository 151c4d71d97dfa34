//! Which lines can be read, and what each kind of word means. The tests of sessions show by the
//! answers which command each name means.
use crate::compared::equal;
use std::alloc::Global;
use std::process::Abort;
use vb_command::{Command, Mode, Unread, command_of};

/// A command with these fields. It borrows its list, if it has one.
enum Asked<'a> {
    Len(usize),
    Get(usize, usize),
    Append(usize, bool),
    Not(Mode, usize, usize),
    Import(usize, usize, usize, &'a [u8]),
    Indices(usize, usize, &'a [usize]),
    Take(usize, usize, Option<usize>, &'a [i64]),
}

impl Asked<'_> {
    /// Whether a command is this one.
    fn is(&self, command: &Command) -> bool {
        match (self, command) {
            (Asked::Len(k), Command::Len(x)) => *k == *x,
            (Asked::Get(k, i), Command::Get(x, y)) => *k == *x && *i == *y,
            (Asked::Append(k, v), Command::Append(x, y)) => *k == *x && *v == *y,
            (Asked::Not(m, l, t), Command::Not(x, y, z)) => *m == *x && *l == *y && *t == *z,
            (Asked::Import(t, o, n, bytes), Command::Import(x, y, z, list)) => {
                *t == *x && *o == *y && *n == *z && *bytes == list.as_slice()
            }
            (Asked::Indices(t, n, places), Command::Indices(x, y, list)) => {
                *t == *x && *n == *y && *places == list.as_slice()
            }
            (Asked::Take(k, t, m, indexes), Command::Take(x, y, z, list)) => {
                *k == *x && *t == *y && *m == *z && *indexes == list.as_slice()
            }
            _ => false,
        }
    }
}

/// A line has this command.
fn asks(rt: &impl Abort, alloc: Global, line: &str, asked: &Asked<'_>) {
    let read = command_of(&alloc, line.as_bytes()).expect(rt, line);
    let command = read.expect(rt, line);
    let is_asked = asked.is(&command);
    drop(command);
    equal(rt, (line, is_asked), (line, true));
}

/// Lines, and their commands.
const READABLE: &[(&str, Asked<'static>)] = &[
    ("len 3", Asked::Len(3)),
    ("len 16", Asked::Len(16)),
    ("get 0 0", Asked::Get(0, 0)),
    (
        "get 0 00018446744073709551615",
        Asked::Get(0, 18446744073709551615),
    ),
    ("   get   15  7 ", Asked::Get(15, 7)),
    ("append 2 1", Asked::Append(2, true)),
    ("append 3 0", Asked::Append(3, false)),
    ("not own 8 8", Asked::Not(Mode::Own, 8, 8)),
    ("not ref 3 4", Asked::Not(Mode::Ref, 3, 4)),
    ("import 0 0 8 14", Asked::Import(0, 0, 8, &[20])),
    ("import 16 0 0 -", Asked::Import(16, 0, 0, &[])),
    (
        "import 1 2 3 09afAFfa",
        Asked::Import(1, 2, 3, &[9, 175, 175, 250]),
    ),
    ("indices 0 4 1,01,3", Asked::Indices(0, 4, &[1, 1, 3])),
    ("indices 3 0 -", Asked::Indices(3, 0, &[])),
    (
        "indices 3 9 18446744073709551615",
        Asked::Indices(3, 9, &[18446744073709551615]),
    ),
    ("take 0 4 - 3,0,-1", Asked::Take(0, 4, None, &[3, 0, -1])),
    ("take 0 4 5 -", Asked::Take(0, 4, Some(5), &[])),
    (
        "take 1 2 - -9223372036854775808,-0,9223372036854775807",
        Asked::Take(1, 2, None, &[-9223372036854775808, 0, 9223372036854775807]),
    ),
];

#[test]
fn each_kind_of_word_is_read(rt: HostRuntime) {
    for (line, asked) in READABLE {
        asks(&rt, rt.alloc(), line, asked);
    }
}

/// Words and items of about 16 bytes. The code looks for a separator in 16 bytes at a time, or byte
/// by byte if fewer are left.
const LONG_PARTS: &[(&str, Asked<'static>)] = &[
    ("get 0000000000003 7", Asked::Get(3, 7)),
    ("get 00000000000003 7", Asked::Get(3, 7)),
    ("get 000000000000003 7", Asked::Get(3, 7)),
    ("get 0000000000000003 7", Asked::Get(3, 7)),
    ("get 00000000000000003 7", Asked::Get(3, 7)),
    ("get 3 00000000000007 ", Asked::Get(3, 7)),
    ("get 3 000000000000007 ", Asked::Get(3, 7)),
    ("get 3 0000000000000007 ", Asked::Get(3, 7)),
    ("get 3 00000000000000007 ", Asked::Get(3, 7)),
    ("get 3 00000000000007", Asked::Get(3, 7)),
    ("get 3 000000000000007", Asked::Get(3, 7)),
    ("get 3 0000000000000007", Asked::Get(3, 7)),
    ("get 3 00000000000000007", Asked::Get(3, 7)),
    ("indices 0 4 0000000000001,3", Asked::Indices(0, 4, &[1, 3])),
    (
        "indices 0 4 00000000000001,3",
        Asked::Indices(0, 4, &[1, 3]),
    ),
    (
        "indices 0 4 000000000000001,3",
        Asked::Indices(0, 4, &[1, 3]),
    ),
    (
        "indices 0 4 0000000000000001,3",
        Asked::Indices(0, 4, &[1, 3]),
    ),
    (
        "indices 0 4 00000000000000001,3",
        Asked::Indices(0, 4, &[1, 3]),
    ),
    (
        "indices 0 4 1,00000000000003",
        Asked::Indices(0, 4, &[1, 3]),
    ),
    (
        "indices 0 4 1,000000000000003",
        Asked::Indices(0, 4, &[1, 3]),
    ),
    (
        "indices 0 4 1,0000000000000003",
        Asked::Indices(0, 4, &[1, 3]),
    ),
    (
        "indices 0 4 1,00000000000000003",
        Asked::Indices(0, 4, &[1, 3]),
    ),
];

#[test]
fn parts_of_about_16_bytes_are_read(rt: HostRuntime) {
    for (line, asked) in LONG_PARTS {
        asks(&rt, rt.alloc(), line, asked);
    }
}

/// Whether a line has a command, or why it can't be read.
fn has_command(alloc: Global, line: &[u8]) -> Result<bool, Unread> {
    let command = command_of(&alloc, line)?;
    let is_there = command.is_some();
    drop(command);
    Ok(is_there)
}

/// Lines without a command.
const SKIPPED: &[&str] = &["", "   ", "#", "# a", "  #len 0", "# \r\t\x00\x7f"];

#[test]
fn empty_lines_and_comments_are_skipped(rt: HostRuntime) {
    for line in SKIPPED {
        let is_read = has_command(rt.alloc(), line.as_bytes());
        equal(&rt, (*line, is_read), (*line, Ok(false)));
    }
}

/// Lines that are no command and aren't skipped.
const UNREADABLE: &[&str] = &[
    "import 0 0 8 1",
    "import 0 0 8 1g",
    "import 0 0 8 --",
    "import 0 0 8",
    "import 0 0 8 14 14",
    "get 0 18446744073709551616",
    "get 0 +1",
    "get 0 -1",
    "get 0 1x",
    "get 0",
    "get 0 1 2",
    "len",
    "len x",
    "len 0 #",
    "len\t0",
    "len 0\r",
    "Len 0",
    "length 0",
    "selectunse 0 1",
    "1",
    "set 0 1",
    "set 0 1 2",
    "set 0 1 01",
    "append 0",
    "append 0 -",
    "full 0 10 1",
    "full 0 1 10 1",
    "fill 0 1 7",
    "slice 0 3 2",
    "countrange 0 3",
    "freeze",
    "drop 0 1",
    "and 0 1 2",
    "or Own 0 1 2",
    "xor own 0 1",
    "not ref 0 1 2",
    "sliced 0",
    "eq 0",
    "appendset 0",
    "appendset 0 -",
    "indices 0 4",
    "indices 0 4 1,,3",
    "indices 0 4 ,1",
    "indices 0 4 1,",
    "indices 0 4 1,-",
    "indices 0 4 -1",
    "indices 0 4 1, 3",
    "indices 0 4 +1",
    "indices 0 4 18446744073709551616",
    "take 0 4 3,0",
    "take 0 4 -- 3,0",
    "take 0 4 -1 3,0",
    "take 0 4 - 3,-",
    "take 0 4 - +3",
    "take 0 4 - --3",
    "take 0 4 - 9223372036854775808",
    "take 0 4 - -9223372036854775809",
];

#[test]
fn other_lines_cannot_be_read(rt: HostRuntime) {
    for line in UNREADABLE {
        let is_read = has_command(rt.alloc(), line.as_bytes());
        equal(&rt, (*line, is_read), (*line, Err(Unread::Unreadable)));
    }
}

/// Lines with bytes past ASCII.
const NOT_ASCII: &[&[u8]] = &[
    b"\xff",
    b"# \xff",
    b"# \xc3\xa9",
    b"len \xff",
    b"len 0 \x80",
];

#[test]
fn bytes_past_ascii_cannot_be_read(rt: HostRuntime) {
    for line in NOT_ASCII {
        let is_read = has_command(rt.alloc(), line);
        equal(&rt, (*line, is_read), (*line, Err(Unread::Unreadable)));
    }
}
