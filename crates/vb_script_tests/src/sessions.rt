//! Sessions over readers and writers in memory.
ghost use Rattle.std.specs.Prelude.{[], IfOk, Some};
ghost use Rattle.std.specs.Str.Lines.{lines};
ghost use Rattle.vb_script.specs.Session.{AnswersLines};

use crate::compared::{ends, equal, session};
use std::alloc::Global;
use std::io;
use std::io::Read;
use std::process::Abort;
use vb_script::{DriveError, FromRead, ToWrite, drive};

/// The output of a session that answers all lines. Its contract follows from that of `drive` alone.
fn answers(alloc: Global, input: &[u8]) -> Result<Vec<u8>, DriveError>
    ensures { IfOk result (λ bytes. AnswersLines (lines input.now) (Some []) (Some bytes.items)) }
{
    let mut source = FromRead::new(input);
    let mut sink = ToWrite::new(Vec::new(alloc));
    let ended = drive(alloc, &mut source, &mut sink);
    drop(source);
    let written = sink.into_inner();
    if let Err(error) = ended {
        drop(written);
        return Err(error);
    }
    Ok(written)
}

/// Gives its bytes a few at a time.
#[derive(Drop)]
struct Pieces<'a> {
    bytes: &'a [u8],
    most: usize,
}

impl Read for Pieces<'_> {
    fn read(&mut self, buf: &mut [u8]) -> io::Result<usize> {
        let most = self.most.min(buf.len());
        self.bytes.read(&mut buf[..most])
    }
}

/// The sizes of the pieces in which an input comes.
const SIZES: [usize; 4] = [1, 2, 7, 1_000_000];

/// A session over these lines, in pieces of each size, ends with `wanted` and writes `answered`.
fn pieces_end(
    rt: &impl Abort,
    alloc: Global,
    lines: &[u8],
    wanted: Result<(), DriveError>,
    answered: &str,
) {
    for most in SIZES {
        let source = FromRead::new(Pieces { bytes: lines, most });
        let ended = session(alloc, alloc, source);
        ends(rt, (lines, most), ended, wanted, answered);
    }
}

/// Lines, and their answers.
const ANSWERED: &[(&str, &str)] = &[
    ("", ""),
    (
        "import 0 0 8 14\ncount 0\nselect 0 1\nselectunset 0 2\nget 0 4\n",
        "ok\n2\n4\n3\n1\n",
    ),
    ("import 0 0 0 -\ncount 0\nselect 0 0\n", "ok\n0\nnone\n"),
    ("import 0 8 1 00\n", "refused BadWindow\n"),
    ("import 0 7 2 00\n", "refused BadWindow\n"),
    ("import 0 7 1 00\n", "ok\n"),
    (
        "import 0 0 18446744073709551615 00\nimport 0 7 18446744073709551615 00\n",
        "refused BadWindow\nrefused BadWindow\n",
    ),
    ("import 16 0 0 -\n", "refused BadSlot\n"),
    (
        "import 15 0 1 01\nimport 15 9 1 -\nlen 15\n",
        "ok\nrefused BadSlot\n1\n",
    ),
    ("len 0", "refused BadSlot\n"),
    ("len 0\n", "refused BadSlot\n"),
    ("len 0\r\n", "refused BadSlot\n"),
    (
        "  len   0  \r\n\n \n# a\n #b\nlen 1\n",
        "refused BadSlot\nrefused BadSlot\n",
    ),
    (
        "import 3 5 3 a0\nlen 3\ncount 3\nget 3 3\n",
        "ok\n3\n2\nrefused OutOfRange\n",
    ),
    (
        "import 1 3 7 000000\nselectunset 1 6\nselectunset 1 7\nselect 1 0\n",
        "ok\n6\nnone\nnone\n",
    ),
    (
        "import 0 0 8 ff\nimport 1 0 8 0f\ncount 0\ncount 1\nget 2 0\n",
        "ok\nok\n8\n4\nrefused BadSlot\n",
    ),
    (
        "full 0 0 10\nfill 0 2 7 1\ncountrange 0 3 9\ntruncate 0 99\ntruncate 0 4\nappend 0 0\n\
         bits 0\nfreeze 0\nslice 0 3 2 1\n",
        "ok\nok\n4\nok\nok\nok\n00110\nok\nrefused OutOfRange\n",
    ),
    (
        "full 0 1 1\nappendn 0 1 18446744073709551615\nbits 0\nclear 0\nbits 0\n",
        "ok\nrefused TooManyBits\n1\nok\n-\n",
    ),
    (
        "import 0 0 7 76\nruns 0\nplaces 0\nlast 0\nfreeze 0\nruns 0\nplaces 0\nlast 0\n",
        "ok\n1-3,4-7\n1,2,4,5,6\n6\nok\n1-3,4-7\n1,2,4,5,6\n6\n",
    ),
    ("full 0 1 130\nruns 0\nlast 0\n", "ok\n0-130\n129\n"),
    (
        "full 0 1 3\ndrop 0\ndrop 0\nlen 0\nfull 0 0 1\nbits 0\n",
        "ok\nok\nrefused BadSlot\nrefused BadSlot\nok\n0\n",
    ),
    (
        "full 0 1 0\nruns 0\nplaces 0\nlast 0\nlast 1\nplaces 16\nruns 1\n",
        "ok\n-\n-\nnone\nrefused BadSlot\nrefused BadSlot\nrefused BadSlot\n",
    ),
    (
        "import 0 3 5 f8\nfreeze 0\nimport 1 0 5 1f\nfreeze 1\nand own 0 1 0\nbits 0\neq 0 1\n\
         show 0\nor own 0 0 3\nfull 2 1 6\nfreeze 2\nor ref 0 2 3\n",
        "ok\nok\nok\nok\nok\n11111\n1\n\
         BitBuffer { len: 5, buffer: [true, true, true, true, true] }\n\
         refused BadSlot\nok\nok\nrefused LengthMismatch\n",
    ),
    (
        "import 0 0 4 03\nfreeze 0\nimport 1 0 4 05\nfreeze 1\nand ref 0 1 2\nor ref 0 1 3\n\
         xor ref 0 1 4\nandnot ref 0 1 5\nandnot ref 0 1 5\nnot ref 0 6\nbits 2\nbits 3\nbits 4\n\
         bits 5\nbits 6\nsliced 0 7\neq 7 0\neq 7 1\nand own 7 1 8\nlen 7\neq 8 2\nfull 9 1 1\n\
         show 9\nnot ref 9 10\neq 9 11\nor own 0 9 0\nbits 0\n",
        "ok\nok\nok\nok\nok\nok\nok\nok\nrefused BadSlot\nok\n1000\n1110\n0110\n0100\n0011\n\
         ok\n1\n0\nok\nrefused BadSlot\n1\nok\nrefused BadSlot\nrefused BadSlot\nrefused BadSlot\n\
         refused BadSlot\n1100\n",
    ),
    (
        "indices 0 4 1,1,3\nfreeze 0\nfull 1 0 4\nflip 1\nfull 2 0 3\nfreeze 2\nappendset 1 2\n\
         bits 1\nindices 3 4 4\ntake 0 4 - 3,0,-1\nimport 5 0 3 03\nfreeze 5\n\
         take 0 4 5 3,0,-1\nbits 4\n",
        "ok\nok\nok\nok\nok\nok\nok\n1111000\nrefused OutOfRange\nrefused TakeOutOfRange 2\n\
         ok\nok\nok\n100\n",
    ),
    (
        "full 0 1 200\nappend 0 0\nfreeze 0\nclone 0 1\nthaw 1\nslice 0 3 190 2\nnot own 2 2\n\
         and ref 0 0 3\ntake 0 4 - 0,200\nbits 4\nruns 2\n",
        "ok\nok\nok\nok\nok\nok\nok\nok\nok\n10\n-\n",
    ),
    // Other owners keep their bits.
    (
        "full 0 1 4\nfreeze 0\nclone 0 1\nslice 0 1 4 2\nthaw 1\nset 1 0 0\nappend 1 0\nflip 1\n\
         bits 0\nbits 1\nbits 2\n",
        "ok\nok\nok\nok\nok\nok\nok\nok\n1111\n10001\n111\n",
    ),
];

#[test]
fn lines_are_answered(rt: HostRuntime) {
    for (lines, answered) in ANSWERED {
        let written = answers(rt.alloc(), lines.as_bytes()).expect(&rt, lines);
        ends(&rt, *lines, (Ok(()), written), Ok(()), answered);
        pieces_end(&rt, rt.alloc(), lines.as_bytes(), Ok(()), answered);
    }
}

/// Lines, the number of the one that can't be read, and the answers of those before it.
const UNREADABLE: &[(&[u8], u64, &str)] = &[
    (b"import 0 0 8 1\nlen 0\n", 1, ""),
    (
        b"len 0\nget 0 18446744073709551616\nlen 1\n",
        2,
        "refused BadSlot\n",
    ),
    (b"# a\n\nlen x\n", 3, ""),
    (b"len \xff\n", 1, ""),
    (b"len 0\n# \xff\n", 2, "refused BadSlot\n"),
    (b"len 0\nlen 0\r", 2, "refused BadSlot\n"),
    (b"import 0 0 8 14\nlen 0 0\ncount 0\n", 2, "ok\n"),
    (b"import 0 0 8 14\ncount 0\nselect 0", 3, "ok\n2\n"),
    (b"\x00", 1, ""),
];

#[test]
fn a_line_that_cannot_be_read_ends_the_session(rt: HostRuntime) {
    for (lines, line, answered) in UNREADABLE {
        let ended = Err(DriveError::Unreadable { line: *line });
        pieces_end(&rt, rt.alloc(), lines, ended, answered);
    }
}

/// An error says this.
fn says(rt: &impl Abort, alloc: Global, error: DriveError, text: &str) {
    let shown = format!(in alloc; "{error}").expect(rt, "memory");
    equal(rt, shown.as_str(), text);
    drop(shown);
}

const ERRORS: &[(DriveError, &str)] = &[
    (
        DriveError::Unreadable { line: u64::MAX },
        "line 18446744073709551615 can't be read",
    ),
    (DriveError::Read, "input can't be read"),
    (DriveError::Write, "output can't be written"),
    (DriveError::Memory, "out of memory"),
];

#[test]
fn errors_say_what_ended_the_session(rt: HostRuntime) {
    for (error, text) in ERRORS {
        says(&rt, rt.alloc(), *error, text);
    }
}
