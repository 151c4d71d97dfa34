//! Comparisons of what was answered with what the plain machine answers.
use crate::compared::equal;
use crate::machine::{Call, Line, Plain, read};
use std::alloc::Global;
use std::process::Abort;
use vb_script::DriveError;

/// Compares each answer with that of the plain machine. Returns how a session over the lines then
/// ends: at its first line that can't be read, with `Memory` at the first answer that is missing,
/// or else with `Ok`.
fn answers_are_plain(
    rt: &impl Abort,
    plain: &mut Plain,
    (lines, written): (&str, &str),
) -> Result<(), DriveError> {
    let mut answers = written.lines();
    let mut end = Ok(());
    for (line, text) in (1u64..).zip(lines.lines()) {
        end = match read(text) {
            Line::Command(call) => is_answered(rt, plain, (line, call), answers.next()),
            Line::Skipped => Ok(()),
            Line::Unreadable => Err(DriveError::Unreadable { line }),
        };
        if end.is_err() {
            break;
        }
    }
    equal(rt, answers.next(), None);
    end
}

/// Compares the answer that a command got with that of the plain machine. Returns `Memory` if the
/// command got none.
fn is_answered(
    rt: &impl Abort,
    plain: &mut Plain,
    (line, call): (u64, Call<'_>),
    told: Option<&str>,
) -> Result<(), DriveError> {
    let told = told.ok_or(DriveError::Memory)?;
    let wanted = plain.serve(call, told).expect(rt, "memory");
    equal(rt, (line, call.text, told), (line, call.text, wanted));
    Ok(())
}

/// Compares a session over these lines with the plain machine. If a request for memory was refused,
/// exactly one answer reports it, or else the end of the session does.
pub(crate) fn is_plain(
    rt: &impl Abort,
    global: Global,
    lines: &str,
    was_refused: bool,
    (ended, written): (Result<(), DriveError>, &str),
) {
    equal(rt, written.is_empty() || written.ends_with('\n'), true);
    let mut plain = Plain::new(global, was_refused).expect(rt, "memory");
    let end = answers_are_plain(rt, &mut plain, (lines, written));
    let may_refuse = plain.may_refuse;
    drop(plain);
    let is_memory = ended == Err(DriveError::Memory);
    equal(rt, (ended, may_refuse), (end, is_memory));
}
