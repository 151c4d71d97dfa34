//! Conditions, by their steps.
use crate::{Condition, Step, parse_condition};
use query_csv::{Failure, Source};
use std::alloc::{AllocError, Global};
use std::test::Fail;

/// Returns the steps of a condition, as a character for each.
fn described(alloc: Global, condition: &Condition) -> Result<String, AllocError> {
    let mut steps = String::new(alloc);
    for step in condition.steps.iter() {
        steps.push(match step {
            Step::Compare(_, _, _) => 'c',
            Step::IsNull(_) => 'n',
            Step::Not => '!',
            Step::And => '&',
            Step::Or => '|',
        })?;
    }
    Ok(steps)
}

/// Returns the steps of a text, or the error for the user; None if memory runs out.
fn told(alloc: Global, text: &str) -> Option<String> {
    let source = Source { option: "w", text };
    match parse_condition(alloc, source) {
        Ok(condition) => {
            let steps = described(alloc, &condition).ok();
            drop(condition);
            steps
        }
        Err(Failure::Told(text)) => Some(text),
        Err(_) => None,
    }
}

/// Conditions, with their steps or the error for the user.
const CONDITIONS: &[(&str, &str)] = &[
    ("a = 1", "c"),
    ("a = 1 or b = 2 and c = 3", "ccc&|"),
    ("(a = 1 or b = 2) and c = 3", "cc|c&"),
    (
        "not a = 1 or b is not null and ('x' < d or e >= 2.5)",
        "c!n!cc|&|",
    ),
    ("not (a is null and not b <> .5)", "nc!&!"),
    ("a in (1, b, 'c') and b not in (2)", "cc|c|c!&"),
    (
        "a in (1, 2",
        "w: a comma or \")\" is wanted here\n  a in (1, 2\n            ^",
    ),
    (
        "a 1",
        "w: a comparison, as \"=\" or \"<\", \"is\" or \"in\" is wanted here\n  a 1\n    ^",
    ),
    (
        "(a = 1",
        "w: \"and\", \"or\" or \")\" is wanted here\n  (a = 1\n        ^",
    ),
];

#[test]
fn conditions_are_read(rt: HostRuntime) -> Result<(), Fail> {
    for (text, wanted) in CONDITIONS {
        let found = told(rt.alloc(), *text).ok_or("memory")?;
        assert_eq!(rt; found.as_str(), *wanted);
        drop(found);
    }
    Ok(())
}
