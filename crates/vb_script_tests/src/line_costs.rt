//! What reading a line allocates: one block for its bytes or numbers, and nothing if it has none.
use crate::compared::equal;
use std::alloc::Allocator;
use std::process::Abort;
use vb_command::command_of;
use vb_testing::Refusing;

/// A line, how many requests it makes, and for how many bytes.
type Row = (&'static str, u64, usize);

/// Bodies that push items to a vector that grows fail here.
const ROWS: &[Row] = &[
    (
        "import 0 0 256 000102030405060708090a0b0c0d0e0f101112131415161718191a1b1c1d1e1f",
        1,
        32,
    ),
    (
        "indices 0 80 0,1,2,3,4,5,6,7,8,9,10,11,12,13,14,15,16,17,18,19",
        1,
        160,
    ),
    (
        "take 0 1 - 0,1,2,3,4,5,6,7,8,9,10,11,12,13,14,15,16,17,18,-19",
        1,
        160,
    ),
    (
        "take 0 1 2 0,1,2,3,4,5,6,7,8,9,10,11,12,13,14,15,16,17,18,-19",
        1,
        160,
    ),
    ("import 0 0 0 -", 0, 0),
    ("indices 0 0 -", 0, 0),
    ("take 0 1 2 -", 0, 0),
    ("full 0 1 80000", 0, 0),
    ("appendset 0 1", 0, 0),
    ("and own 0 1 2", 0, 0),
    ("bits 0", 0, 0),
    ("# a comment", 0, 0),
    ("", 0, 0),
    // Lines that can't be read.
    ("bit 0", 0, 0),
    ("import 0 0 8 0", 0, 0),
    ("indices 0 80 0,1,", 0, 0),
];

/// Reads a line. What it makes is dropped.
fn read<A: Allocator + Clone>(alloc: &A, line: &str) {
    drop(command_of(alloc, line.as_bytes()));
}

#[test]
fn lines_ask_once_for_their_items(rt: HostRuntime) {
    let heap = Refusing::new(rt.alloc(), 0);
    for (line, requests, bytes) in ROWS {
        heap.refuse(0);
        read(&&heap, line);
        let asked = (heap.asked(), heap.asked_bytes());
        equal(&rt, (*line, asked), (*line, (*requests, *bytes)));
    }
}
