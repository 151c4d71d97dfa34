//! Queries of a set. No slot changes, and only the queries for a list or a text allocate.
ghost use Rattle.vb_command.specs.Machine.{Step, Outcome, order_of};
ghost use Rattle.vb_command.specs.Machine as machine;
ghost use Rattle.vb_pool.specs.Answered.{AsksWhole, IsQuestion, reply_of};

use crate::lists::{list_bits, list_places, list_runs, text};
use crate::pool::Pool;
use crate::range::is_range;
use crate::refused::refusal_of;
use std::alloc::Allocator;
use vb_command::{Answer, Command, Refusal};

impl<A: Allocator + Clone> Pool<A> {
    /// Returns the answer to `len`, `count`, `select`, `selectunset`, `last` or `eq`, or to a query
    /// for a list or a text. It is a separate function, so that other commands do not clear its
    /// stack frame: a function clears its whole frame when it begins.
    #[inline(never)]
    pub(crate) fn ask(&self, alloc: &A, question: &Command<A>) -> Result<Answer<A>, Refusal>
        requires { IsQuestion (order_of question.now) }
        ensures { Outcome self.now (order_of question.now) (reply_of result) self.now }
    {
        match *question {
            Command::Len(k) => Ok(Answer::Number(self.set_at(k)?.len())),
            Command::Count(k) => Ok(Answer::Number(self.set_at(k)?.true_count())),
            Command::Select(k, n) => Ok(Answer::Place(self.set_at(k)?.select(n))),
            Command::Selectunset(k, n) => Ok(Answer::Place(self.set_at(k)?.select_unset(n))),
            Command::Last(k) => Ok(Answer::Place(self.set_at(k)?.last_set_index())),
            _ => self.ask_whole(alloc, question),
        }
    }

    /// Returns the answer to a query for a list or a text, or to `eq`.
    #[inline(never)]
    fn ask_whole(&self, alloc: &A, question: &Command<A>) -> Result<Answer<A>, Refusal>
        requires { AsksWhole (order_of question.now) }
        ensures { Outcome self.now (order_of question.now) (reply_of result) self.now }
    {
        match *question {
            Command::Eq(k, j) => Ok(Answer::Truth(self.set_at(k)? == self.set_at(j)?)),
            Command::Bits(k) => {
                let bits = list_bits(alloc, self.set_at(k)?).map_err(refusal_of)?;
                Ok(Answer::Bits(bits))
            }
            Command::Places(k) => {
                let places = list_places(alloc, self.set_at(k)?).map_err(refusal_of)?;
                Ok(Answer::Places(places))
            }
            Command::Runs(k) => {
                let runs = list_runs(alloc, self.set_at(k)?).map_err(refusal_of)?;
                Ok(Answer::Runs(runs))
            }
            Command::Show(k) => {
                let text = text(alloc, self.frozen_at(k)?).map_err(refusal_of)?;
                Ok(Answer::Text(text))
            }
            _ => unreachable!(),
        }
    }

    /// Returns bit `i` of the set.
    pub(crate) fn get(&self, k: usize, i: usize) -> Result<Answer<A>, Refusal>
        ensures { Step self.now (machine.Get k i) (reply_of result) self.now }
    {
        let set = self.set_at(k)?;
        if i >= set.len() {
            return Err(Refusal::OutOfRange);
        }
        Ok(Answer::Truth(set.value(i)))
    }

    /// Returns the number of true bits among bits `a..b` of the set.
    pub(crate) fn count_range(&self, k: usize, a: usize, b: usize) -> Result<Answer<A>, Refusal>
        ensures { Step self.now (machine.Countrange k a b) (reply_of result) self.now }
    {
        let set = self.set_at(k)?;
        if !is_range(a, b, set.len()) {
            return Err(Refusal::OutOfRange);
        }
        Ok(Answer::Number(set.count_range(a, b)))
    }
}
