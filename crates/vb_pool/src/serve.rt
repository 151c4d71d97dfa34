//! One command or many.
ghost use Rattle.std.specs.Prelude.{◌≡◌, length, map, IfOk, OnErr, IsOkUnless};
ghost use Rattle.vb_command.specs.Machine.{Outcome, Run, order_of};
ghost use Rattle.vb_command.specs.Views.{reply};
ghost use Rattle.vb_pool.specs.Answered.{reply_of};
ghost use Rattle.vb_set.specs.declared.BufferError.TheVariants.{OutOfMemory};

use crate::pool::Pool;
use std::alloc::Allocator;
use vb_command::{Answer, Command, Refusal};
use vb_set::{BitOp, Result};

impl<A: Allocator + Clone> Pool<A> {
    /// Runs one command and returns its answer. A refused command changes nothing, with one
    /// exception: `freeze`, `thaw` and the operators with `own` release their set, so if memory
    /// runs out, its slot is empty and all others are unchanged.
    ///
    /// Memory:
    ///
    /// - `import`, `full`, `indices`, `take`, `bits` and `places` allocate once, with a clone of
    ///   `alloc`, unless they have nothing to store; so does `thaw` if another slot shares the
    ///   storage. `runs` and `show` allocate with it as their list or text grows.
    /// - `clone` of an open set, the appends and `sliced` allocate with the set's allocator, and
    ///   the operators with that of the left set.
    /// - `freeze`, `slice` and `clone` of a frozen set copy no bits, nor does `thaw` if no other
    ///   slot shares the storage. Operators with `own` copy none if the left set is the only owner
    ///   of its storage. But `thaw` and these operators move the bytes of a slice to the start of
    ///   its storage. `sliced` copies none if the first bit is the lowest of its byte.
    /// - `freeze`, `take`, the operators, and `sliced` if it copies bits also allocate a count of
    ///   owners.
    pub fn serve(&mut self, alloc: &A, command: &Command<A>) -> Answer<A>
        ensures outcome { Outcome self.old (order_of command.now) (reply result) self.new }
        ensures slots { length self.new ≡ 16 }
    {
        let answer = answer_of(self.carry_out(alloc, command));
        prove!(self.slot_count() == 16);
        answer
    }

    /// Runs one command passed by value, as [`serve`](Self::serve) runs one passed by reference.
    /// The bytes of an `import` become the bytes of its set. The call then allocates only a count
    /// of owners, with a clone of `alloc`.
    pub fn serve_owned(&mut self, alloc: &A, command: Command<A>) -> Answer<A>
        ensures outcome { Outcome self.old (order_of command) (reply result) self.new }
        ensures slots { length self.new ≡ 16 }
    {
        match command {
            Command::Import(k, o, n, bytes) => {
                let answer = answer_of(self.import_owned(alloc, k, o, n, bytes));
                prove!(self.slot_count() == 16);
                answer
            }
            other => {
                let answer = self.serve(alloc, &other);
                drop(other);
                answer
            }
        }
    }

    /// Runs one command. Returns its answer or its refusal.
    fn carry_out(&mut self, alloc: &A, command: &Command<A>) -> Result<Answer<A>, Refusal>
        ensures { Outcome self.old (order_of command.now) (reply_of result) self.new }
    {
        match *command {
            Command::Import(k, o, n, ref bytes) => self.import(alloc, k, o, n, bytes),
            Command::Full(k, v, n) => self.full(alloc, k, v, n),
            Command::Indices(k, n, ref places) => self.indices(alloc, k, n, places),
            Command::Set(k, i, v) => self.set(k, i, v),
            Command::Append(k, v) => self.append(k, v),
            Command::Appendn(k, v, n) => self.append_n(k, v, n),
            Command::Appendset(k, j) => self.append_set(k, j),
            Command::Fill(k, a, b, v) => self.fill(k, a, b, v),
            Command::Truncate(k, n) => self.truncate(k, n),
            Command::Clear(k) => self.clear(k),
            Command::Flip(k) => self.negate(k),
            Command::Freeze(k) => self.freeze(k),
            Command::Thaw(k) => self.thaw(alloc, k),
            Command::Clone(k, t) => self.clone(k, t),
            Command::Slice(k, a, b, t) => self.slice(k, a, b, t),
            Command::Sliced(k, t) => self.sliced(k, t),
            Command::Drop(k) => self.drop(k),
            Command::And(mode, l, r, t) => self.combine(BitOp::And, mode, l, r, t),
            Command::Or(mode, l, r, t) => self.combine(BitOp::Or, mode, l, r, t),
            Command::Xor(mode, l, r, t) => self.combine(BitOp::Xor, mode, l, r, t),
            Command::Andnot(mode, l, r, t) => self.combine(BitOp::AndNot, mode, l, r, t),
            Command::Not(mode, l, t) => self.not(mode, l, t),
            Command::Take(k, t, m, ref indices) => self.take(alloc, k, t, m, indices),
            Command::Get(k, i) => self.get(k, i),
            Command::Countrange(k, a, b) => self.count_range(k, a, b),
            ref question => self.ask(alloc, question),
        }
    }
}

/// Returns the answer for a command that was done or refused.
fn answer_of<A: Allocator>(outcome: Result<Answer<A>, Refusal>) -> Answer<A>
    ensures { reply result ≡ reply_of outcome }
{
    match outcome {
        Ok(answer) => answer,
        Err(why) => Answer::Refused(why),
    }
}

/// Runs the commands in their order and returns one answer for each. In contracts a pool is the
/// list of the contents of its sixteen slots.
///
/// First allocates the space for all answers with a clone of `alloc`. Returns `OutOfMemory` if that
/// runs out of memory; no command has run then. A command that is refused later, also because
/// memory runs out, has its refusal among the answers, and the commands after it run. It changes
/// nothing, with one exception: if `freeze`, `thaw` or an operator with `own` runs out of memory,
/// the slot whose set it released is empty.
pub fn run<A: Allocator + Clone>(
    alloc: A,
    pool: &mut Pool<A>,
    commands: &[Command<A>],
) -> Result<Vec<Answer<A>, A>>
    ensures ok { IfOk result (λ answers.
        Run pool.old (map order_of commands.now) (map reply answers.items) pool.new) }
    ensures refused { IsOkUnless result OutOfMemory }
    ensures err { OnErr result (pool.new ≡ pool.old) }
    ensures slots { length pool.new ≡ 16 }
{
    prove!(pool.slot_count() == 16);
    let mut answers = Vec::with_capacity(alloc.clone()?, commands.len())?;
    for command in commands {
        answers.push(pool.serve(&alloc, command)).unwrap();
    }
    prove!(pool.slot_count() == 16);
    Ok(answers)
}
