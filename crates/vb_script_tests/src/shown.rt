//! What `Debug` shows of commands.
use crate::compared::equal;
use std::alloc::Global;
use std::process::Abort;
use vb_command::command_of;

/// Lines, and the texts of their commands: a field of each kind.
const SHOWN: &[(&str, &str)] = &[
    ("import 3 7 9 09affa", "Import(3, 7, 9, [9, 175, 250])"),
    ("full 0 1 9", "Full(0, true, 9)"),
    ("indices 3 4 1,0", "Indices(3, 4, [1, 0])"),
    ("clear 4", "Clear(4)"),
    ("slice 1 2 3 4", "Slice(1, 2, 3, 4)"),
    ("andnot own 1 2 3", "Andnot(Own, 1, 2, 3)"),
    ("not ref 1 2", "Not(Ref, 1, 2)"),
    ("take 0 4 5 3,-1", "Take(0, 4, Some(5), [3, -1])"),
    ("take 0 4 - -", "Take(0, 4, None, [])"),
];

/// Asserts that the command of a line is shown as `text`, and drops the command.
fn shows(rt: &impl Abort, alloc: Global, line: &str, text: &str) {
    let read = command_of(&alloc, line.as_bytes()).expect(rt, line);
    let command = read.expect(rt, line);
    let shown = format!(in alloc; "{command:?}").expect(rt, line);
    drop(command);
    equal(rt, shown.as_str(), text);
    drop(shown);
}

#[test]
fn commands_are_shown_with_their_fields(rt: HostRuntime) {
    for (line, text) in SHOWN {
        shows(&rt, rt.alloc(), line, text);
    }
}
