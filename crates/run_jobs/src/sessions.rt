//! Sessions of lines: queries, edits, sets that are imported and dropped, and lists of sets.
use crate::digest::Digest;
use crate::random::Random;
use anyhow::Result;
use std::alloc::{AllocError, Global};
use vb_script::{FromRead, ToWrite, drive};

/// Runs `rounds` rounds of four sessions: three of 60,000 to 101,000 lines, and one that prints
/// long lists.
pub fn sessions(
    alloc: Global,
    rounds: u32,
    random: &mut Random,
    digest: &mut Digest,
) -> Result<()> {
    let mut lines = Vec::new(alloc);
    for _ in 0..rounds {
        round(alloc, &mut lines, random, digest)?;
    }
    drop(lines);
    Ok(())
}

/// Runs four sessions, whose lines share one buffer.
fn round(
    alloc: Global,
    lines: &mut Vec<u8>,
    random: &mut Random,
    digest: &mut Digest,
) -> Result<()> {
    put_questions(lines, random)?;
    answer(alloc, lines, digest)?;
    put_edits(lines, random)?;
    answer(alloc, lines, digest)?;
    put_imports(lines, random)?;
    answer(alloc, lines, digest)?;
    put_lists(lines, random)?;
    answer(alloc, lines, digest)
}

/// Adds the answers to these lines, each of which can be read, and removes the lines.
fn answer(alloc: Global, lines: &mut Vec<u8>, digest: &mut Digest) -> Result<()> {
    let mut input = FromRead::new(lines.as_slice());
    let mut output = ToWrite::new(Vec::new(alloc));
    let ended = drive(alloc, &mut input, &mut output);
    drop(input);
    let written = output.into_inner();
    digest.add_bytes(&written);
    drop(written);
    lines.clear();
    Ok(ended?)
}

/// The result of a call that adds to lines. There are millions of these calls, so its error has no
/// text.
type Added = Result<(), AllocError>;

/// Adds words.
fn put(lines: &mut Vec<u8>, words: &str) -> Added {
    lines.extend_from_slice(words.as_bytes())
}

/// Adds a space and then a number, modulo ten million.
fn put_number(lines: &mut Vec<u8>, number: usize) -> Added {
    put_behind(lines, b' ', number)
}

/// Adds a byte and then a number, modulo ten million.
fn put_behind(lines: &mut Vec<u8>, before: u8, number: usize) -> Added {
    let mut text = [before; 8];
    let mut left = (number % 10_000_000) as u32;
    let mut start = 0usize;
    for k in 0..7 {
        start = 6 - k;
        text[start + 1] = 48 + (left % 10) as u8;
        left /= 10;
        if left == 0 {
            break;
        }
    }
    lines.extend_from_slice(&text[start.min(7)..])
}

/// Adds `words` words of random bytes in hexadecimal digits.
fn put_bytes(lines: &mut Vec<u8>, random: &mut Random, words: usize) -> Added {
    for _ in 0..words {
        let mut digits = [b'0'; 16];
        let mut left = random.number();
        for digit in digits.iter_mut() {
            *digit = b"0123456789abcDEF"[(left % 16) as usize];
            left /= 16;
        }
        lines.extend_from_slice(&digits)?;
    }
    Ok(())
}

/// Adds a set of 1,000 random bits, and queries of it.
fn put_questions(lines: &mut Vec<u8>, random: &mut Random) -> Added {
    put(lines, "# a set of one thousand bits\nimport 0 3 1000 ")?;
    put_bytes(lines, random, 16)?;
    put(lines, "\n")?;
    for _ in 0..100_000 {
        let place = random.below(1_010);
        match random.below(6) {
            0 => put(lines, "count 0")?,
            1 => put(lines, "len 0")?,
            2 => put_question(lines, "select 0", place / 2)?,
            3 => {
                put_question(lines, "countrange 0", place / 2)?;
                put_number(lines, place)?;
            }
            _ => put_question(lines, "get 0", place)?,
        }
        put(lines, "\n")?;
    }
    Ok(())
}

/// Adds words and a number.
fn put_question(lines: &mut Vec<u8>, words: &str, number: usize) -> Added {
    put(lines, words)?;
    put_number(lines, number)
}

/// Adds a set of 100,000 bits and 60,000 edits of it; after one in 500 edits also [`SHARED`].
fn put_edits(lines: &mut Vec<u8>, random: &mut Random) -> Added {
    put(lines, "full 0 0 100000\n")?;
    for turn in 0..60_000 {
        put_edit(lines, random)?;
        put(lines, "\n")?;
        if turn % 500 == 0 {
            put(lines, SHARED)?;
        }
    }
    Ok(())
}

/// Adds an edit of one bit or of several; some edits are refused.
fn put_edit(lines: &mut Vec<u8>, random: &mut Random) -> Added {
    let place = random.below(103_000);
    match random.below(8) {
        0 => {
            put_question(lines, "fill 0", place / 2)?;
            put_number(lines, place)?;
        }
        1 => put(lines, "append 0")?,
        2 => return put_question(lines, "appendn 0 1", place / 1_000),
        _ => put_question(lines, "set 0", place)?,
    }
    put(lines, if place % 2 == 0 { " 1" } else { " 0" })
}

/// Lines that freeze a set of 100,000 bits or more, share it whole and by two windows of one
/// length, and thaw it while the others share it. Operators combine the windows: into a new set, in
/// a set whose storage others share, and in one with one owner.
const SHARED: &str = "count 0\nfreeze 0\nclone 0 1\nslice 0 5 90005 2\nslice 0 8 90008 3\neq 0 1\n\
    thaw 0\ntruncate 0 100000\nand ref 2 3 4\nxor own 3 2 3\nor own 4 2 4\nnot ref 4 5\n\
    count 3\ncount 4\nlast 5\ndrop 1\ndrop 2\ndrop 3\ndrop 4\ndrop 5\n";

/// Adds sets of 8 to 800 bytes that are imported, queried and dropped.
fn put_imports(lines: &mut Vec<u8>, random: &mut Random) -> Added {
    for turn in 0..20_000 {
        let words = if turn % 50 == 0 { 100 } else { 1 };
        put_question(lines, "import 5 0", 64 * words)?;
        put(lines, " ")?;
        put_bytes(lines, random, words)?;
        put(lines, "\ncount 5\nlen 5\ndrop 5\n")?;
    }
    Ok(())
}

/// Adds random sets of 160,000 bits, and queries that print their lists.
fn put_lists(lines: &mut Vec<u8>, random: &mut Random) -> Added {
    for _ in 0..3 {
        put(lines, "import 0 0 160000 ")?;
        put_bytes(lines, random, 2_500)?;
        put(
            lines,
            "\nplaces 0\nruns 0\nbits 0\nfreeze 0\nshow 0\ntake 0 1 -",
        )?;
        put_indices(lines, random)?;
        put(lines, "\nplaces 1\ndrop 0\ndrop 1\n")?;
    }
    Ok(())
}

/// Adds 10,001 indices, with a comma between two.
fn put_indices(lines: &mut Vec<u8>, random: &mut Random) -> Added {
    put(lines, " 1")?;
    for _ in 0..10_000 {
        put_behind(lines, b',', random.below(160_000))?;
    }
    Ok(())
}
