//! Commands that are read from lines, and served with counted memory.
use std::alloc::{Allocator, Global};
use std::process::Abort;
use vb_command::{Answer, Command, command_of};
use vb_pool::Pool;
use vb_testing::Refusing;

pub(crate) type Heap<'a> = &'a Refusing<Global>;

/// The command of a line.
fn command<A: Allocator + Clone>(rt: &impl Abort, alloc: &A, line: &str) -> Command<A> {
    let read = command_of(alloc, line.as_bytes()).expect(rt, "a line that can be read");
    read.expect(rt, "a line with a command")
}

/// Whether it is no refusal. The answer is dropped.
fn is_done<A: Allocator>(answer: Answer<A>) -> bool {
    let is_done = !matches!(&answer, Answer::Refused(_));
    drop(answer);
    is_done
}

/// How the command of a line is given to a pool.
#[derive(Clone, Copy)]
pub(crate) enum Way {
    Lent,
    Owned,
}

/// Carries out the command of a line, and returns whether it was done and not refused. After that
/// the heap has counted only the requests of the command.
pub(crate) fn serve<'a>(
    rt: &impl Abort,
    heap: Heap<'a>,
    pool: &mut Pool<Heap<'a>>,
    line: &str,
    way: Way,
) -> bool {
    let command = command(rt, &heap, line);
    heap.refuse(0);
    match way {
        Way::Lent => {
            let answer = pool.serve(&heap, &command);
            drop(command);
            is_done(answer)
        }
        Way::Owned => is_done(pool.serve_owned(&heap, command)),
    }
}
