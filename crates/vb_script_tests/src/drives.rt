//! Sessions from lines to answers, by `drive`.
use crate::answered::is_plain;
use crate::compared::equal;
use crate::random::{ALL_LENGTHS, LENGTHS, Random};
use crate::refused_sessions::{SESSIONS, with_looks};
use std::alloc::Global;
use std::process::Abort;
use std::str;
use vb_script::{FromRead, ToWrite, drive};
use vb_testing::{Handle, Refusing};

/// Compares a session over these lines with the plain machine. A copy of its allocator is a request
/// too.
fn drive_is_plain(rt: &impl Abort, global: Global, heap: &Refusing<Global>, lines: &str) {
    let mut source = FromRead::new(lines.as_bytes());
    let mut sink = ToWrite::new(Vec::new(global));
    let ended = drive(Handle { inner: heap }, &mut source, &mut sink);
    drop(source);
    let written = sink.into_inner();
    let text = str::from_utf8(&written).expect(rt, "ASCII");
    is_plain(rt, global, lines, heap.has_refused(), (ended, text));
    drop(written);
}

/// Compares a session with the plain machine, with each of its requests refused in turn, copies of
/// the allocator too. It makes at least one request.
fn each_is_refused(rt: &impl Abort, global: Global, heap: &Refusing<Global>, lines: &str) {
    for _ in heap.in_turn() {
        drive_is_plain(rt, global, heap, lines);
    }
    let (refuses, asks) = (heap.has_refused(), heap.asked() > 0);
    equal(rt, (lines, refuses, asks), (lines, false, true));
}

#[test]
fn sessions_are_plain_whatever_is_refused(rt: HostRuntime) {
    let heap = Refusing::new(rt.alloc(), 0);
    for (lines, _, requests) in SESSIONS {
        let lines = with_looks(&rt, rt.alloc(), "", lines);
        each_is_refused(&rt, rt.alloc(), &heap, lines.as_str());
        equal(&rt, heap.asked(), *requests);
        drop(lines);
    }
    drop(heap);
}

/// The memory of a session.
#[derive(Clone, Copy)]
enum Memory {
    Ample,
    /// Each request is refused in turn.
    Refused,
}

/// Compares sessions over `most` random lines with the plain machine. Each session but the last
/// ends at a line that can't be read.
fn random_sessions_are_plain(
    rt: &impl Abort,
    global: Global,
    mut random: Random,
    most: usize,
    memory: Memory,
) {
    let heap = Refusing::new(global, 0);
    let mut left = most;
    for _ in 0..most {
        if left == 0 {
            break;
        }
        random.text.clear();
        left = left.saturating_sub(random.add_session(left));
        let lines = random.text.whole().expect(rt, "memory");
        match memory {
            Memory::Ample => drive_is_plain(rt, global, &heap, lines),
            Memory::Refused => each_is_refused(rt, global, &heap, lines),
        }
    }
    drop((random, heap));
}

/// How many random lines the sessions have, apart from those of groups.
const LINES: usize = 10_000;

#[test]
fn random_lines_are_plain(rt: HostRuntime) {
    let random = Random::new(rt.alloc(), 20_251_123, ALL_LENGTHS);
    random_sessions_are_plain(&rt, rt.alloc(), random, LINES, Memory::Ample);
}

/// How many random lines are answered again with each of their requests refused in turn.
const REFUSED_LINES: usize = 200;

#[test]
fn random_lines_are_plain_whatever_is_refused(rt: HostRuntime) {
    let random = Random::new(rt.alloc(), 7, LENGTHS);
    random_sessions_are_plain(&rt, rt.alloc(), random, REFUSED_LINES, Memory::Refused);
}
