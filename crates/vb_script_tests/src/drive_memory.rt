//! Memory that runs out in the middle of a session: the lines before are answered, and a line that
//! can't be read doesn't allocate.
use crate::compared::{ends, equal, session};
use std::alloc::Global;
use std::process::Abort;
use vb_script::{DriveError, FromRead};
use vb_testing::Refusing;

/// Lines and their answers. The first line allocates its bytes, as the refused line of [`IMPORT`]
/// does.
const LINES: &[u8] = b"import 0 0 8 14\ncount 0\nlen 1\n";

const ANSWERED: &str = "ok\n2\nrefused BadSlot\n";

/// The same lines, then one that allocates its bytes, and one more. The session may not end at the
/// first `import`, which gets its memory.
const IMPORT: &[u8] = b"import 0 0 8 14\ncount 0\nlen 1\nimport 1 0 8 14\ncount 0\n";

/// The same lines, then one whose bytes can't be read, and one more.
const NO_DIGIT: &[u8] = b"import 0 0 8 14\ncount 0\nlen 1\nimport 1 0 8 1g\ncount 0\n";

/// The same lines, then one with a word too many, and one more.
const LONG: &[u8] = b"import 0 0 8 14\ncount 0\nlen 1\nimport 1 0 8 14 14\ncount 0\n";

/// How many requests a session makes for the first lines.
fn asked(global: Global) -> u64 {
    let heap = Refusing::new(global, 0);
    drop(session(global, &heap, FromRead::new(LINES)));
    let asked = heap.asked();
    drop(heap);
    asked
}

/// Refuses the request after those of the first lines. A session over these lines answers the first
/// ones and ends with `wanted`. `has_refused` is whether it makes that request.
fn ends_after_first(
    rt: &impl Abort,
    global: Global,
    lines: &[u8],
    wanted: DriveError,
    has_refused: bool,
) {
    let heap = Refusing::new(global, asked(global).saturating_add(1));
    let ended = session(global, &heap, FromRead::new(lines));
    ends(rt, lines, ended, Err(wanted), ANSWERED);
    equal(rt, (lines, heap.has_refused()), (lines, has_refused));
    drop(heap);
}

#[test]
fn lines_before_refused_memory_are_answered(rt: HostRuntime) {
    ends_after_first(&rt, rt.alloc(), IMPORT, DriveError::Memory, true);
}

#[test]
fn a_line_that_cannot_be_read_asks_for_no_memory(rt: HostRuntime) {
    for lines in [NO_DIGIT, LONG] {
        let unreadable = DriveError::Unreadable { line: 4 };
        ends_after_first(&rt, rt.alloc(), lines, unreadable, false);
    }
}
