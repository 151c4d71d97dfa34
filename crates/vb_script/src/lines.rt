//! Lines of the input, as they come.
ghost use Rattle.std.specs.Prelude.{◌≡◌, ◌≤◌, ◌==◌, ℕ, None, length, take, position};
ghost use Rattle.std.specs.Prelude.{IfErr, IfOk, OnOk};
ghost use Rattle.std.specs.Io.KnownBytes.{append_known, prepend_known, Appends, IsAtEnd, Keeps};
ghost use Rattle.std.specs.Str.Lines.{strip_carriage_return};
ghost use Rattle.vb_script.specs.DriveError.{FailsReading, FailsReads, FailsWrites, UnlessWrite};

use crate::error::DriveError;
use crate::feed::Feed;
use crate::outbox::Outbox;
use crate::sink::Sink;
use crate::source::Source;
use std::alloc::Allocator;

/// Reads until a whole line has come. Returns the index of its line feed, or `None` if the input
/// ends first. Writes all answers before each read. Never returns `Unreadable`.
pub(crate) fn line_ready<A: Allocator, R: Source, W: Sink>(
    feed: &mut Feed<A>,
    out: &mut Outbox<A>,
    input: &mut R,
    output: &mut W,
) -> Result<Option<usize>, DriveError>
    ensures kept { Keeps
        (prepend_known feed.old (R.remaining input.old))
        (prepend_known feed.new (R.remaining input.new)) }
    ensures told { OnOk result (Keeps
        (append_known (W.contents output.old) out.old)
        (append_known (W.contents output.new) out.new)) }
    ensures stopped { UnlessWrite result (IfErr result (λ why. FailsReading why (
        Appends (W.contents output.old) (W.contents output.new) out.old
        × (position (λ b. b == 10) feed.new ≡ None)))) }
    ensures ready { IfOk result (λ at. at ≡ position (λ b. b == 10) feed.new) }
    ensures end { IfOk result (λ at. at ≡ None → IsAtEnd (R.remaining input.new)) }
    ensures reads { FailsReads result (R.faults input.old) (R.faults input.new) }
    ensures writes { FailsWrites result (W.faults output.old) (W.faults output.new) }
{
    loop {
        if let Some(at) = feed.line_feed() {
            return Ok(Some(at));
        }
        out.flush(output).map_err(|_| DriveError::Write)?;
        if !feed.fill(input)? {
            return Ok(None);
        }
    }
}

/// Returns the number of bytes of the line whose line feed is at index `at`, without the carriage
/// return before it.
#[tactic(auto, using(crate::proofs::InputLines::fronts))]
pub(crate) fn line_len(bytes: &[u8], at: usize) -> usize
    requires { at ≤ length bytes.now }
    ensures line { take result bytes.now ≡ strip_carriage_return (take at bytes.now) }
    ensures within { result ≤ length bytes.now }
{
    if at > 0 && bytes[at - 1] == b'\r' {
        at - 1
    } else {
        at
    }
}
