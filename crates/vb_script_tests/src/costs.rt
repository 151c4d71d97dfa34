//! Requests for memory in a session: the buffer of a long line doubles, and a line that fits in it
//! and makes no set or list makes no request.
use crate::compared::{equal, session};
use std::alloc::{AllocError, Global};
use std::process::Abort;
use vb_script::{DriveError, FromRead};
use vb_testing::Refusing;

/// A session over these lines ends well, and makes `wanted.0` requests for `wanted.1` bytes.
fn asks(rt: &impl Abort, global: Global, lines: &[u8], wanted: (u64, usize)) {
    let heap = Refusing::new(global, 0);
    let (ended, written) = session(global, &heap, FromRead::new(lines));
    drop(written);
    let asked = (heap.asked(), heap.asked_bytes());
    drop(heap);
    let well: Result<(), DriveError> = Ok(());
    equal(rt, (lines.len(), ended, asked), (lines.len(), well, wanted));
}

/// The length of the only line, the number of requests of a session over it, and their bytes in
/// units of 65,536: one unit for the answers, and buffers for the line that double until it fits
/// with a byte to spare.
const ROOMS: &[(usize, u64, usize)] = &[
    (0, 2, 2),
    (1, 2, 2),
    (65_535, 2, 2),
    (65_536, 3, 4),
    (131_071, 3, 4),
    (131_072, 4, 8),
    (1_048_576, 7, 64),
    (2_000_000, 7, 64),
];

/// A body whose buffer grows by the same number of bytes each time fails here: it copies the line
/// at each step.
#[test]
fn a_long_line_asks_for_room_that_doubles(rt: HostRuntime) {
    for (len, requests, rooms) in ROOMS {
        let line = b"#".repeat(rt.alloc(), *len).expect(&rt, "memory");
        let wanted = (*requests, rooms.saturating_mul(65_536));
        asks(&rt, rt.alloc(), line.as_slice(), wanted);
        drop(line);
    }
}

/// Lines over an open set in slot 0 and a frozen one in slot 1 that need no memory.
const WORK: &[&str] = &[
    "#\n",
    "\n",
    "get 0 7\n",
    "set 0 7 0\n",
    "len 1\n",
    "count 1\n",
    "select 1 5\n",
    "last 1\n",
    "eq 0 1\n",
    "fill 0 2 9 1\n",
    "flip 0\n",
    "truncate 0 700\n",
    "drop 2\n",
    "clone 1 2\n",
    "slice 1 3 90 3\n",
];

/// Lines that make these sets.
const SETS: &[u8] = b"full 0 1 800\nfull 1 1 800\nfreeze 1\n";

/// The lines of [`SETS`], and then a line `times` times.
fn repeated(global: Global, line: &str, times: usize) -> Result<Vec<u8>, AllocError> {
    let mut lines = Vec::new(global);
    lines.extend_from_slice(SETS)?;
    for _ in 0..times {
        lines.extend_from_slice(line.as_bytes())?;
    }
    Ok(lines)
}

/// How many requests a session over the sets and these lines makes.
fn asked(rt: &impl Abort, global: Global, line: &str, times: usize) -> u64 {
    let lines = repeated(global, line, times).expect(rt, "memory");
    let heap = Refusing::new(global, 0);
    let (ended, written) = session(global, &heap, FromRead::new(lines.as_slice()));
    drop((written, lines));
    let well: Result<(), DriveError> = Ok(());
    equal(rt, (line, ended), (line, well));
    let asked = heap.asked();
    drop(heap);
    asked
}

/// A body that copies a line, an answer or a set at each line fails here.
#[test]
fn a_thousand_lines_ask_for_no_more_than_one(rt: HostRuntime) {
    for line in WORK {
        let one = asked(&rt, rt.alloc(), line, 1);
        equal(
            &rt,
            (*line, asked(&rt, rt.alloc(), line, 1000)),
            (*line, one),
        );
    }
}
