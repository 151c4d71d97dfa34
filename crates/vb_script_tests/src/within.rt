//! Lines with other bytes after them: each is read as if it were alone.
use crate::compared::equal;
use std::alloc::Global;
use std::process::Abort;
use vb_command::{command_of, command_within};

/// What may follow a line: nothing, too few bytes to make 32 with the line, or enough.
const BEHIND: &[&[u8]] = &[
    b"",
    b"\n",
    b"\nlen 0\n",
    b"                                ",
    b"0123456789 abcdef 0123456789 abcdef",
    b"\x80\xff\x80\xff 0123456789 \x80\xff 0123456789 \x80\xff 0123456789",
];

/// What is read of the line alone, and of the line with bytes behind it.
fn both(rt: &impl Abort, alloc: Global, line: &[u8], behind: &[u8]) {
    let mut bytes = Vec::new(alloc);
    bytes.extend_from_slice(line).expect(rt, "memory");
    bytes.extend_from_slice(behind).expect(rt, "memory");
    let alone = command_of(&alloc, line);
    let within = command_within(&alloc, &bytes, line.len());
    let wanted = format!(in alloc; "{alone:?}").expect(rt, "memory");
    let given = format!(in alloc; "{within:?}").expect(rt, "memory");
    drop((alone, within, bytes));
    equal(rt, given.as_str(), wanted.as_str());
    drop((given, wanted));
}

/// A line is read the same, whatever follows it.
fn alike(rt: &impl Abort, alloc: Global, line: &[u8]) {
    for behind in BEHIND {
        both(rt, alloc, line, behind);
    }
}

/// Lines with and without a command, with spaces at all positions.
const LINES: &[&str] = &[
    "",
    " ",
    "#",
    " # get 0 1",
    "len",
    "len 3",
    "  len   3  ",
    "get 0 7",
    "get 0  7 ",
    "countrange 0 3 9",
    "set 0 4711 1",
    "fill 0 1 2 0 ",
    "fill 0 1 2 0 4",
    "import 5 0 64 0123456789abcdef",
    "import 5 0 64  0123456789abcdef",
    "import 5 0 64   0123456789abcdef",
    "import 5 0 64    0123456789abcdef",
    "indices 0 4 1,2,3,1,2,3,1,2,3,1",
    "indices 0 4 1,2,3,1,2,3,1,2,3,1 ",
    "take 0 1 - 1,2,3,1,2,3,1,2,3,10",
    "take 0 1 - 1,2,3,1,2,3,1,2,3,100",
    "get 0 18446744073709551615",
    "get 0 18446744073709551616",
];

#[test]
fn lines_are_read_alike_whatever_stands_behind(rt: HostRuntime) {
    for line in LINES {
        alike(&rt, rt.alloc(), line.as_bytes());
    }
}

/// A question with `times` bytes of one value in it: at its front, between its words, before a
/// number or at its end.
fn stretched(rt: &impl Abort, alloc: Global, parts: (&str, u8, &str), times: usize) {
    let mut line = Vec::new(alloc);
    line.extend_from_slice(parts.0.as_bytes())
        .expect(rt, "memory");
    for _ in 0..times {
        line.push(parts.1).expect(rt, "memory");
    }
    line.extend_from_slice(parts.2.as_bytes())
        .expect(rt, "memory");
    alike(rt, alloc, &line);
    drop(line);
}

/// Where a question is stretched.
const STRETCHED: &[(&str, u8, &str)] = &[
    ("", b' ', "get 0 7"),
    ("get", b' ', " 0 7"),
    ("get 0", b' ', " 7"),
    ("get 0 7", b' ', ""),
    ("get 0 ", b'0', "7"),
    ("get ", b'0', " 7"),
    ("get 0 7 ", b'x', ""),
];

#[test]
fn lines_of_about_32_bytes_are_read_alike(rt: HostRuntime) {
    for parts in STRETCHED {
        for times in 0..36 {
            stretched(&rt, rt.alloc(), *parts, times);
        }
    }
}

/// Lines with a byte that isn't ASCII: among the first 32 bytes, as the last of them, and after
/// them. These 32 bytes are read at once.
const HIGH: &[(&str, u8, &str)] = &[
    ("", 128, "et 0 7"),
    ("get 0 7", 255, ""),
    ("get 0 000000000", 128, "0000000000000007"),
    ("get 0 0000000000", 128, "0000000000000007"),
    ("get 0 0000000000000000000000000", 128, ""),
    ("get 0 0000000000000000000000000", 128, "7"),
    ("get 0 00000000000000000000000000", 128, ""),
    ("# get 0 000000000000000000000000", 128, "7"),
];

#[test]
fn a_byte_that_is_not_ascii_is_seen_at_each_place(rt: HostRuntime) {
    for parts in HIGH {
        stretched(&rt, rt.alloc(), *parts, 1);
    }
}
