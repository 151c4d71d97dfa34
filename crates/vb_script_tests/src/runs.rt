//! Sessions by `run`, over commands that have been read before.
use crate::answered::is_plain;
use crate::compared::equal;
use crate::refused_sessions::{SESSIONS, with_looks};
use std::alloc::{Allocator, Global};
use std::process::Abort;
use vb_script::{Answer, BufferError, Command, Pool, command_of, run};
use vb_testing::{Handle, Refusing};

/// A pool about which a proof knows only this. So the proof doesn't consider each slot, and is
/// faster.
trait Machine<A: Allocator> {
    fn run(&mut self, alloc: A, commands: &[Command<A>]) -> Result<Vec<Answer<A>, A>, BufferError>;
}

impl<A: Allocator + Clone> Machine<A> for Pool<A> {
    fn run(&mut self, alloc: A, commands: &[Command<A>]) -> Result<Vec<Answer<A>, A>, BufferError> {
        run(alloc, self, commands)
    }
}

/// The command of a line.
fn command<A: Allocator + Clone>(rt: &impl Abort, alloc: &A, line: &str) -> Command<A> {
    let read = command_of(alloc, line.as_bytes()).expect(rt, line);
    read.expect(rt, line)
}

/// The commands of lines, all of which can be read.
fn commands<A: Allocator + Clone>(
    rt: &impl Abort,
    global: Global,
    alloc: A,
    lines: &str,
) -> Vec<Command<A>> {
    let mut commands = Vec::new(global);
    for line in lines.lines() {
        let pushed = commands.push(command(rt, &alloc, line)).is_ok();
        equal(rt, pushed, true);
    }
    drop(alloc);
    commands
}

/// The lines before each session. They put a frozen set and an open one into slots that the session
/// fills last or not at all.
const HELD: &str = "full 14 1 70\nfreeze 14\nimport 15 3 9 f8ff\n";

/// Runs commands and writes their answers, one a line. Returns false, and writes nothing, if the
/// run is refused as a whole.
fn answers<A: Allocator, M: Machine<A>>(
    rt: &impl Abort,
    text: &mut String,
    machine: &mut M,
    alloc: A,
    commands: &[Command<A>],
) -> bool {
    let Ok(answers) = machine.run(alloc, commands) else {
        return false;
    };
    for answer in answers.iter() {
        writeln!(text, "{answer}").expect(rt, "memory");
    }
    drop(answers);
    true
}

/// Compares a run of a session, with this request refused, with the plain machine. Two slots are
/// filled before. `whole` has the lines that fill them, and then the lines of the session.
///
/// If the run is refused as a whole, the pool is unchanged. The same run is then repeated and
/// answers all lines, so no answer reports the refusal.
fn run_is_plain(
    rt: &impl Abort,
    global: Global,
    heap: &Refusing<Global>,
    request: u64,
    (whole, lines): (&str, &str),
) {
    heap.refuse(0);
    let held = commands(rt, global, Handle { inner: heap }, HELD);
    let commands = commands(rt, global, Handle { inner: heap }, lines);
    let (mut pool, mut text) = (Pool::new(), String::new(global));
    let is_held = answers(rt, &mut text, &mut pool, Handle { inner: heap }, &held);
    heap.refuse(request);
    let is_run = answers(rt, &mut text, &mut pool, Handle { inner: heap }, &commands);
    let was_refused = heap.has_refused();
    if !is_run {
        let is_run_again = answers(rt, &mut text, &mut pool, Handle { inner: heap }, &commands);
        equal(rt, (is_run_again, was_refused), (true, true));
    }
    drop((pool, held, commands));
    equal(rt, is_held, true);
    let session = (Ok(()), text.as_str());
    is_plain(rt, global, whole, was_refused && is_run, session);
    drop(text);
}

/// Compares a session with the plain machine, with each of its `requests` requests refused in turn.
fn each_is_refused(rt: &impl Abort, global: Global, (whole, lines): (&str, &str), requests: u64) {
    let heap = Refusing::new(global, 0);
    for request in heap.in_turn() {
        run_is_plain(rt, global, &heap, request, (whole, lines));
    }
    let ended = (lines, heap.has_refused(), heap.asked());
    equal(rt, ended, (lines, false, requests));
    drop(heap);
}

#[test]
fn runs_are_plain_whatever_is_refused(rt: HostRuntime) {
    for (lines, requests, _) in SESSIONS {
        let whole = with_looks(&rt, rt.alloc(), HELD, lines);
        let lines = with_looks(&rt, rt.alloc(), "", lines);
        each_is_refused(&rt, rt.alloc(), (whole.as_str(), lines.as_str()), *requests);
        drop((whole, lines));
    }
}
