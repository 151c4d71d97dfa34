//! An example of commands. Those of the README are tests of `vortex_buffer_tests`.
use crate::compared::equal;
use vb_script::{Answer, Command, Pool, run};

#[test]
fn commands_without_text_are_answered(rt: HostRuntime) {
    // Ten rows from bit 3 of the first byte on, queried by commands.
    let bytes = [0b1110_1000u8, 0b0000_0110].to_vec(rt.alloc());
    let commands = [
        Command::Import(0, 3, 10, bytes.expect(&rt, "memory")),
        Command::Count(0),
        Command::Select(0, 1),
    ];
    let mut pool = Pool::new();
    let answers = run(rt.alloc(), &mut pool, &commands).expect(&rt, "memory");
    let are_known = matches!(
        answers.as_slice(),
        [Answer::Done, Answer::Number(6), Answer::Place(Some(2))]
    );
    drop((answers, commands, pool));
    equal(&rt, are_known, true);
}
