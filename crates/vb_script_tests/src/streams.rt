//! Streams that fail, and what is written before a read.
ghost use Rattle.std.specs.Prelude.{◌≡◌, IfOk};

use crate::compared::{end_of, ends, equal, session};
use crate::one_by_one::OneByOne;
use std::alloc::{AllocError, Global};
use std::cell::Cell;
use std::io;
use std::io::{Read, Write};
use std::process::Abort;
use vb_script::{DriveError, Fault, FromRead, Pool, Sink, Source, ToWrite, command_of};
use vb_testing::{FaultyReader, FaultyWriter};

/// Two lines with the same answer.
const LINES: &[u8] = b"len 0\nlen 1\n";

/// After how many bytes of the lines a read fails, and the answers to the lines that were read
/// whole.
const READS: &[(usize, &str)] = &[
    (0, ""),
    (5, ""),
    (6, "refused BadSlot\n"),
    (10, "refused BadSlot\n"),
    (11, "refused BadSlot\n"),
    (12, "refused BadSlot\nrefused BadSlot\n"),
];

#[test]
fn whole_lines_before_a_failed_read_are_answered(rt: HostRuntime) {
    let alloc = rt.alloc();
    for (before, answered) in READS {
        let source = FromRead::new(FaultyReader::new(LINES, *before));
        let ended = session(alloc, alloc, source);
        ends(&rt, *before, ended, Err(DriveError::Read), answered);
    }
}

/// Gives its bytes, and faults once, after `until_fault` of them.
#[derive(Drop)]
struct Broken<'a> {
    bytes: &'a [u8],
    until_fault: usize,
    faults: u64,
}

impl Source for Broken<'_> {
    ghost faults = { λ s. s.faults };

    fn read(&mut self, buf: &mut [u8]) -> Result<usize, Fault> {
        if self.faults == 0 && self.until_fault == 0 {
            self.until_fault = usize::MAX;
            self.faults = 1;
            return Err(Fault);
        }
        let count = self.bytes.len().min(buf.len()).min(self.until_fault);
        let (given, rest) = self.bytes.split_at(count);
        buf[..count].copy_from_slice(given);
        self.bytes = rest;
        self.until_fault -= count;
        Ok(count)
    }
}

/// Takes no bytes at first: its first write faults.
#[derive(Drop)]
struct Full {
    faults: u64,
}

impl Sink for Full {
    ghost faults = { λ s. s.faults };

    fn write(&mut self, _bytes: &[u8]) -> Result<(), Fault> {
        if self.faults > 0 {
            return Ok(());
        }
        self.faults = 1;
        Err(Fault)
    }
}

#[test]
fn a_source_of_ones_own_faults(rt: HostRuntime) {
    let source = Broken {
        bytes: LINES,
        until_fault: 10,
        faults: 0,
    };
    let ended = session(rt.alloc(), rt.alloc(), source);
    let wanted = Err(DriveError::Read);
    ends(&rt, (), ended, wanted, "refused BadSlot\n");
}

#[test]
fn a_sink_of_ones_own_faults(rt: HostRuntime) {
    let mut sink = Full { faults: 0 };
    let ended = end_of(rt.alloc(), FromRead::new(LINES), &mut sink);
    drop(sink);
    equal(&rt, ended, Err(DriveError::Write));
}

/// A session whose write fails ends with `wanted`, and nothing is written.
fn write_fails(rt: &impl Abort, alloc: Global, lines: &str, wanted: Result<(), DriveError>) {
    let mut sink = ToWrite::new(FaultyWriter::new(Vec::new(alloc), 0));
    let ended = end_of(alloc, FromRead::new(lines.as_bytes()), &mut sink);
    let writer = sink.into_inner();
    let is_empty = writer.inner().is_empty();
    drop(writer);
    equal(rt, (lines, ended, is_empty), (lines, wanted, true));
}

/// Lines, and how a session over them ends if its first write fails.
const WRITES: &[(&str, Result<(), DriveError>)] = &[
    ("len 0\n", Err(DriveError::Write)),
    ("len 0", Err(DriveError::Write)),
    ("len 0\nlen x\n", Err(DriveError::Write)),
    // No answer is written here, so no write can fail.
    ("len x", Err(DriveError::Unreadable { line: 1 })),
    ("\n", Ok(())),
];

#[test]
fn a_failed_write_ends_the_session(rt: HostRuntime) {
    for (lines, wanted) in WRITES {
        write_fails(&rt, rt.alloc(), lines, *wanted);
    }
}

/// Returns `Interrupted` from its first call, then ends as a reader, and takes all as a writer. If
/// its caller retried after that error, the session would see no error.
#[derive(Drop)]
struct Interrupted {
    calls: usize,
}

impl Interrupted {
    fn call(&mut self, count: usize) -> io::Result<usize>
        ensures { IfOk result (λ n. n ≡ count) }
    {
        if self.calls > 0 {
            return Ok(count);
        }
        self.calls = 1;
        Err(io::Error::from(io::ErrorKind::Interrupted))
    }
}

impl Read for Interrupted {
    fn read(&mut self, _buf: &mut [u8]) -> io::Result<usize> {
        self.call(0)
    }
}

impl Write for Interrupted {
    fn write(&mut self, buf: &[u8]) -> io::Result<usize> {
        self.call(buf.len())
    }

    fn flush(&mut self) -> io::Result<()> {
        Ok(())
    }
}

#[test]
fn each_error_of_a_reader_is_a_fault(rt: HostRuntime) {
    let source = FromRead::new(Interrupted { calls: 0 });
    let ended = session(rt.alloc(), rt.alloc(), source);
    ends(&rt, (), ended, Err(DriveError::Read), "");
}

#[test]
fn each_error_of_a_writer_is_a_fault(rt: HostRuntime) {
    let mut sink = ToWrite::new(Interrupted { calls: 0 });
    let ended = end_of(rt.alloc(), FromRead::new(LINES), &mut sink);
    drop(sink);
    equal(&rt, ended, Err(DriveError::Write));
}

/// Takes no byte at its first write, and all at later ones. If its caller retried the first write,
/// the session would see no fault.
#[derive(Drop)]
struct Stuck {
    calls: usize,
}

impl Write for Stuck {
    fn write(&mut self, buf: &[u8]) -> io::Result<usize> {
        if self.calls > 0 {
            return Ok(buf.len());
        }
        self.calls = 1;
        Ok(0)
    }

    fn flush(&mut self) -> io::Result<()> {
        Ok(())
    }
}

#[test]
fn a_write_that_takes_no_byte_is_a_fault(rt: HostRuntime) {
    let mut sink = ToWrite::new(Stuck { calls: 0 });
    let ended = end_of(rt.alloc(), FromRead::new(LINES), &mut sink);
    drop(sink);
    equal(&rt, ended, Err(DriveError::Write));
}

/// What was written so far: how many bytes, in how many writes, the widest of these, and a hash of
/// all widths in their order.
#[derive(Default, Drop)]
struct Written {
    bytes: Cell<usize>,
    writes: Cell<usize>,
    widest: Cell<usize>,
    widths: Cell<usize>,
}

/// The hash of the widths so far and of one more.
fn next_width(widths: usize, width: usize) -> usize {
    widths.wrapping_mul(65_599).wrapping_add(width)
}

/// Takes bytes and counts them.
#[derive(Drop)]
struct Counting<'a>(&'a Written);

impl Write for Counting<'_> {
    fn write(&mut self, buf: &[u8]) -> io::Result<usize> {
        let written = self.0;
        let bytes = written.bytes.get().saturating_add(buf.len());
        written.bytes.set(bytes);
        written.writes.set(written.writes.get().saturating_add(1));
        written.widest.set(written.widest.get().max(buf.len()));
        written
            .widths
            .set(next_width(written.widths.get(), buf.len()));
        Ok(buf.len())
    }

    fn flush(&mut self) -> io::Result<()> {
        Ok(())
    }
}

/// Gives the lines at each read. A read fails if the lines before aren't all answered.
#[derive(Drop)]
struct Asking<'a> {
    lines: &'a [u8],
    left: usize,
    wanted: usize,
    answers: usize,
    written: &'a Written,
}

impl Read for Asking<'_> {
    fn read(&mut self, buf: &mut [u8]) -> io::Result<usize> {
        if self.written.bytes.get() != self.wanted {
            return Err(io::Error::from(io::ErrorKind::InvalidData));
        }
        if self.left == 0 {
            return Ok(0);
        }
        self.left -= 1;
        self.wanted = self.wanted.saturating_add(self.answers);
        let mut lines = self.lines;
        lines.read(buf)
    }
}

/// Lines that come in `reads` reads are answered by `answers` bytes per read, in one write per
/// read.
fn asked(rt: &impl Abort, alloc: Global, lines: &[u8], reads: usize, answers: usize) {
    let written = Written::default();
    let source = FromRead::new(Asking {
        lines,
        left: reads,
        wanted: 0,
        answers,
        written: &written,
    });
    let mut sink = ToWrite::new(Counting(&written));
    let ended = end_of(alloc, source, &mut sink);
    drop(sink);
    let counts = (written.writes.get(), written.bytes.get());
    drop(written);
    equal(
        rt,
        (ended, counts),
        (Ok(()), (reads, reads.saturating_mul(answers))),
    );
}

#[test]
fn answers_are_written_before_the_next_read(rt: HostRuntime) {
    asked(&rt, rt.alloc(), LINES, 5, 32);
}

/// Four lines of which the answers are `ok` three times, and a refusal.
const FOUR_LINES: &[u8] = b"full 0 1 9\nappend 0 1\ndrop 0\nlen 0\n";

/// A body that answers `Memory` after 100,000 lines fails here, and so does one that writes at
/// every line.
#[test]
fn many_lines_are_answered(rt: HostRuntime) {
    let lines = b"len 0\n".repeat(rt.alloc(), 4000).expect(&rt, "memory");
    asked(&rt, rt.alloc(), &lines, 38, 64_000);
    drop(lines);
    let lines = FOUR_LINES.repeat(rt.alloc(), 1000).expect(&rt, "memory");
    asked(&rt, rt.alloc(), &lines, 25, 25_000);
    drop(lines);
}

#[test]
fn answers_do_not_pile_up(rt: HostRuntime) {
    let lines = b"len 0\n".repeat(rt.alloc(), 50_000).expect(&rt, "memory");
    let written = Written::default();
    let mut sink = ToWrite::new(Counting(&written));
    let ended = end_of(rt.alloc(), FromRead::new(lines.as_slice()), &mut sink);
    drop(sink);
    drop(lines);
    let is_narrow = written.widest.get() < 65536 + 16;
    // A write has the answers of many lines.
    let is_rare = written.writes.get() <= 20;
    let bytes = written.bytes.get();
    drop(written);
    equal(&rt, (ended, bytes), (Ok(()), 800_000));
    equal(&rt, (is_narrow, is_rare), (true, true));
}

/// Lines that make an open set and a frozen one. Their three answers are `ok`.
const SETS: &str = "indices 1 20000 5,6,7,10,12,99,100,101,1000,12345,12346\n\
    full 2 1 7\nfreeze 2\n";

/// Lines over these sets. Their answers are a number, words, words and a number, indices, and runs,
/// 132 bytes in all.
const LAST_LINES: &str = "last 1\nlen 9\ntake 2 3 - 0,7\nplaces 1\nruns 1\n";

/// Lines whose answers leave `room` of the buffer's 65,536 bytes free, and then [`LAST_LINES`].
fn lines_to_room(alloc: Global, room: usize) -> Result<String, AllocError> {
    // Each `ok` takes three bytes, and a list of bits one more than it has bits.
    let bits = 65_536usize.saturating_sub(4 * 3 + 1).saturating_sub(room);
    format!(in alloc; "{SETS}full 0 1 {bits}\nbits 0\n{LAST_LINES}")
}

/// Carries out the lines, and writes their answers to the sink piece by piece.
fn put_one_by_one(rt: &impl Abort, alloc: Global, lines: &str, sink: &mut impl Sink) {
    let mut pool = Pool::new();
    let mut out = OneByOne::new(alloc).expect(rt, "memory");
    for line in lines.lines() {
        let command = command_of(&alloc, line.as_bytes()).expect(rt, "a line");
        let answer = pool.serve_owned(&alloc, command.expect(rt, "a command"));
        out.push(&answer, sink).expect(rt, "a write");
        drop(answer);
    }
    out.flush(sink).expect(rt, "a write");
    drop((pool, out));
}

/// Each write of a session over these lines is as wide as when they are written piece by piece.
fn is_cut_between_pieces(rt: &impl Abort, alloc: Global, lines: &str) {
    let (given, wanted) = (Written::default(), Written::default());
    let mut sink = ToWrite::new(Counting(&given));
    let ended = end_of(alloc, FromRead::new(lines.as_bytes()), &mut sink);
    drop(sink);
    let mut sink = ToWrite::new(Counting(&wanted));
    put_one_by_one(rt, alloc, lines, &mut sink);
    drop(sink);
    let widths = (given.widths.get(), wanted.widths.get());
    drop((given, wanted));
    equal(rt, (lines, ended, widths.0), (lines, Ok(()), widths.1));
}

/// For one `room` a piece of the last answers ends at the end of the buffer, and for others 1 to 21
/// bytes before it: a number and a byte next to it have at most 21. Each write has the same width
/// as when the pieces are written one by one.
#[test]
fn writes_are_cut_between_pieces(rt: HostRuntime) {
    for room in 0..160 {
        let lines = lines_to_room(rt.alloc(), room).expect(&rt, "memory");
        is_cut_between_pieces(&rt, rt.alloc(), &lines);
        drop(lines);
    }
}

/// Lines that list one bit per byte of the buffer, and more, before and after other answers; and
/// lines that list indices, for which the buffer grows step by step.
const LONG_LISTS: &[&str] = &[
    "full 0 1 65536\nfreeze 0\nbits 0\nlen 0\n",
    "full 0 1 65537\nbits 0\nlen 0\n",
    "full 0 1 131072\nbits 0\nbits 0\n",
    "len 9\nfull 0 1 131073\nbits 0\nlast 0\nfull 1 1 65000\nbits 1\nbits 0\n",
    "full 0 1 20000\nplaces 0\nlen 0\nruns 0\nplaces 0\n",
];

#[test]
fn lists_wider_than_the_room_are_cut_at_its_end(rt: HostRuntime) {
    for lines in LONG_LISTS {
        is_cut_between_pieces(&rt, rt.alloc(), lines);
    }
}
