//! A whole input, line by line.
ghost use Rattle.std.specs.Prelude.{◌≡◌, ◌<◌, ◌≤◌, [], length, take, IfErr, IfOk, OnOk};
ghost use Rattle.std.specs.Io.KnownBytes.{append_known, Appends};
ghost use Rattle.vb_command.specs.Machine.{empty_slots};
ghost use Rattle.vb_script.specs.DriveError.{FailsReads, FailsWrites, UnlessWrite};
ghost use Rattle.vb_script.specs.Session.{AnswersLast, AnswersLine, AnswersRun, EndsIfKnown};
ghost use Rattle.vb_script.specs.Session.{IsUnread};

use crate::error::DriveError;
use crate::feed::Feed;
use crate::lines::{line_len, line_ready};
use crate::outbox::Outbox;
use crate::session::Session;
use crate::sink::Sink;
use crate::source::Source;
use std::alloc::{AllocError, Allocator};

/// Reads lines to the end of the input, runs the command of each, and writes the answers, one on
/// each line. The slots are empty at the start, and are dropped at the end.
///
/// Before it reads more bytes, the session writes the answers to all whole lines that it has read.
/// It allocates memory for the sets and the answers of commands, for the bytes or numbers that a
/// command is given (8 bytes a number) while it runs, for 65536 bytes of the input or at most twice
/// the longest line, and once for 65536 bytes of answers. It does not allocate to print answers.
///
/// A stream reports its bytes if `R.remaining` or `W.contents` is `Some`, as for a slice and a
/// vector. Clause `ends` states how the session ended, for a source that reports its bytes. Clause
/// `ran` states, for any source and a sink that reports its bytes, that the session wrote the
/// answers of some commands, run from empty slots on. For a sink that does not report its bytes, no
/// clause states what was written.
///
/// A line that is blank or a comment has no command and no answer. A line has ended once its line
/// feed was read.
///
/// - `Ok`: the input ended, and each line with a command was answered.
/// - `Unreadable`: this line cannot be read, or its number is `u64::MAX`, and it had no effect; the
///   lines before it were answered.
/// - `Read`: a read failed, and the source's count of faults is one more; all lines that had ended
///   were answered.
/// - `Write`: a write failed, and the sink's count of faults is one more; no clause states what was
///   read and written.
/// - `Memory`: an allocation outside a command failed. Of the lines that had ended, the first ones
///   were answered, possibly none. If one of them was not answered, the first such line is an
///   `import`, `indices` or `take` that can be read.
pub fn drive<A: Allocator + Clone, R: Source, W: Sink>(
    alloc: A,
    input: &mut R,
    output: &mut W,
) -> Result<(), DriveError>
    ensures ends { EndsIfKnown result (R.remaining input.old) (R.remaining input.new)
        (W.contents output.old) (W.contents output.new) }
    ensures ran { UnlessWrite result (AnswersRun (W.contents output.old) (W.contents output.new)) }
    ensures reads { FailsReads result (R.faults input.old) (R.faults input.new) }
    ensures writes { FailsWrites result (W.faults output.old) (W.faults output.new) }
{
    let (mut session, mut feed, mut out) = begin(alloc).map_err(|_| DriveError::Memory)?;
    let ended = answer_all(&mut session, &mut feed, &mut out, input, output);
    // An explicit `drop`, since proving the implicit one at the end of the block takes ten times as
    // long.
    drop((session, feed, out));
    ended
}

/// Returns empty slots, an empty feed and an empty outbox.
fn begin<A: Allocator + Clone>(alloc: A) -> Result<(Session<A>, Feed<A>, Outbox<A>), AllocError>
    ensures slots { IfOk result (λ it. it.0.pool ≡ empty_slots) }
    ensures feed { IfOk result (λ it. it.1 ≡ []) }
    ensures out { IfOk result (λ it. it.2 ≡ []) }
{
    let feed = Feed::new(alloc.clone()?);
    let out = Outbox::new(alloc.clone()?)?;
    Ok((Session::new(alloc), feed, out))
}

/// Answers all lines of an input, from the first one on.
fn answer_all<A: Allocator + Clone, R: Source, W: Sink>(
    session: &mut Session<A>,
    feed: &mut Feed<A>,
    out: &mut Outbox<A>,
    input: &mut R,
    output: &mut W,
) -> Result<(), DriveError>
    requires slots { session.old.pool ≡ empty_slots }
    requires feed { feed.old ≡ [] }
    requires out { out.old ≡ [] }
    ensures ends { EndsIfKnown result (R.remaining input.old) (R.remaining input.new)
        (W.contents output.old) (W.contents output.new) }
    ensures ran { UnlessWrite result (AnswersRun (W.contents output.old) (W.contents output.new)) }
    ensures reads { FailsReads result (R.faults input.old) (R.faults input.new) }
    ensures writes { FailsWrites result (W.faults output.old) (W.faults output.new) }
{
    let mut number = 1;
    while let Some(at) = line_ready(feed, out, input, output)? {
        let bytes = feed.as_slice();
        answer_line(session, bytes, line_len(bytes, at), number, out, output)?;
        feed.consume(at + 1);
        number += 1;
    }
    answer_last(session, feed.as_slice(), number, out, output)
}

/// Answers a last line without a line feed, if it has any bytes. Then writes the answers that wait.
fn answer_last<A: Allocator + Clone, W: Sink>(
    session: &mut Session<A>,
    line: &[u8],
    number: u64,
    out: &mut Outbox<A>,
    output: &mut W,
) -> Result<(), DriveError>
    ensures ok { OnOk result (AnswersLast line.now number session.old.pool session.new.pool
        (append_known (W.contents output.old) out.old) (W.contents output.new)) }
    ensures err { UnlessWrite result (IfErr result (λ why. IsUnread line.now number why
        × (0 < length line.now)
        × Appends (W.contents output.old) (W.contents output.new) out.old)) }
    ensures writes { FailsWrites result (W.faults output.old) (W.faults output.new) }
{
    if !line.is_empty() {
        answer_line(session, line, line.len(), number, out, output)?;
    }
    out.flush(output).map_err(|_| DriveError::Write)
}

/// Answers the line with this number: the first `len` of the bytes, without its line feed. If that
/// fails, writes the answers that wait and returns the error.
fn answer_line<A: Allocator + Clone, W: Sink>(
    session: &mut Session<A>,
    bytes: &[u8],
    len: usize,
    number: u64,
    out: &mut Outbox<A>,
    output: &mut W,
) -> Result<(), DriveError>
    requires { len ≤ length bytes.now }
    ensures ok { OnOk result (AnswersLine (take len bytes.now) number
        session.old.pool session.new.pool
        (append_known (W.contents output.old) out.old)
        (append_known (W.contents output.new) out.new)) }
    ensures err { UnlessWrite result (IfErr result (λ why. IsUnread (take len bytes.now) number why
        × Appends (W.contents output.old) (W.contents output.new) out.old)) }
    ensures writes { FailsWrites result (W.faults output.old) (W.faults output.new) }
{
    match session.answer(bytes, len, number) {
        Ok(Some(answer)) => {
            let pushed = out.push(&answer, output);
            drop(answer);
            pushed.map_err(|_| DriveError::Write)
        }
        Ok(None) => Ok(()),
        Err(why) => {
            out.flush(output).map_err(|_| DriveError::Write)?;
            Err(why)
        }
    }
}
