//! Sessions, and comparisons of what is given with what is wanted. Each is proved once here,
//! whereas each use of `assert_eq!` is proved again, with all that it prints.
use std::alloc::{Allocator, Global};
use std::fmt::Debug;
use std::process::Abort;
use vb_script::{DriveError, Sink, Source, ToWrite, drive};

/// The two values are equal. If there are many cases, both are tuples that also name the case.
pub(crate) fn equal<T: Copy + PartialEq + Debug>(rt: &impl Abort, given: T, wanted: T) {
    assert_eq!(rt; given, wanted);
}

/// Runs a session and returns how it ends. Drops the source.
pub(crate) fn end_of<A: Allocator + Clone, S: Source + Drop, W: Sink>(
    alloc: A,
    mut source: S,
    sink: &mut W,
) -> Result<(), DriveError> {
    let ended = drive(alloc, &mut source, sink);
    drop(source);
    ended
}

/// How a session from this source ends, and what it writes.
pub(crate) fn session<A: Allocator + Clone, S: Source + Drop>(
    global: Global,
    alloc: A,
    source: S,
) -> (Result<(), DriveError>, Vec<u8>) {
    let mut sink = ToWrite::new(Vec::new(global));
    let ended = end_of(alloc, source, &mut sink);
    (ended, sink.into_inner())
}

/// Asserts that the session of a case ended with `wanted` and wrote `answered`.
pub(crate) fn ends<C: Copy + PartialEq + Debug>(
    rt: &impl Abort,
    case: C,
    (ended, written): (Result<(), DriveError>, Vec<u8>),
    wanted: Result<(), DriveError>,
    answered: &str,
) {
    let answered = answered.as_bytes();
    equal(
        rt,
        (case, ended, written.as_slice()),
        (case, wanted, answered),
    );
    drop(written);
}
