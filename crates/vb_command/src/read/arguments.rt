//! The command of a line of words.
ghost use Rattle.std.specs.Prelude.{IsErrOf, IsTrue, Some, option_map};
ghost use Rattle.vb_command.specs.Arguments.{arguments_of, one_word, two_words, three_words};
ghost use Rattle.vb_command.specs.Arguments.{four_words, append_of, indices_of, set_of, not_of};
ghost use Rattle.vb_command.specs.Arguments.{countrange_of, value_of, import_of, take_of, fill_of};
ghost use Rattle.vb_command.specs.Arguments.{slice_of, operator_of, two_numbers, three_numbers};
ghost use Rattle.vb_command.specs.Arguments.{of_number, question_of_number, listing_of_number};
ghost use Rattle.vb_command.specs.Arguments.{of_numbers, question_of_numbers, of_value};
ghost use Rattle.vb_command.specs.Arguments.{of_operator};
ghost use Rattle.vb_command.specs.Machine.{order_of};
ghost use Rattle.vb_command.specs.Reading.{Gives, Tells, asks_memory};

use crate::command::Command;
use crate::mode::Mode;
use crate::read::field::Field;
use crate::read::hex::{bytes_of_pairs, hex_pairs};
use crate::read::listed::list;
use crate::read::words::Words;
use crate::unread::Unread;
use std::alloc::Allocator;

/// Returns the command of this name with these words after it. Allocates only for a command that
/// can be read.
#[tactic(auto, unfolding(crate::specs::Arguments::arguments_of))]
pub(crate) fn arguments<A: Allocator + Clone>(
    alloc: &A,
    name: &str,
    words: &mut Words<'_>,
) -> Result<Command<A>, Unread>
    ensures read { Gives order_of result (arguments_of name.now words.old) }
    ensures memory { IsErrOf result Unread.Memory →
        IsTrue (asks_memory (option_map Some (arguments_of name.now words.old))) }
{
    let Some(a) = words.next() else {
        return Err(Unread::Unreadable);
    };
    let Some(b) = words.next() else {
        return one_word(name, a);
    };
    let Some(c) = words.next() else {
        return two_words(name, a, b);
    };
    let Some(d) = words.next() else {
        return three_words(alloc, name, a, b, c);
    };
    if words.next().is_some() {
        return Err(Unread::Unreadable);
    }
    four_words(alloc, name, a, b, c, d)
}

/// Returns the command of this name with one word after it.
#[tactic(auto, unfolding(crate::specs::Arguments::one_word))]
fn one_word<A: Allocator>(name: &str, a: &str) -> Result<Command<A>, Unread>
    ensures { Tells order_of result (one_word name.now a.now) }
{
    of_number(name, usize::read(a)?)
}

/// Returns the command of this name with two words after it.
#[tactic(auto, unfolding(crate::specs::Arguments::two_words))]
fn two_words<A: Allocator>(name: &str, a: &str, b: &str) -> Result<Command<A>, Unread>
    ensures { Tells order_of result (two_words name.now a.now b.now) }
{
    if name == "append" {
        return append(a, b);
    }
    let (k, n) = two_numbers(a, b)?;
    of_numbers(name, k, n)
}

/// Returns the command of this name with three words after it.
#[tactic(auto, unfolding(crate::specs::Arguments::three_words))]
fn three_words<A: Allocator + Clone>(
    alloc: &A,
    name: &str,
    a: &str,
    b: &str,
    c: &str,
) -> Result<Command<A>, Unread>
    ensures read { Gives order_of result (three_words name.now a.now b.now c.now) }
    ensures memory { IsErrOf result Unread.Memory →
        IsTrue (asks_memory (option_map Some (three_words name.now a.now b.now c.now))) }
{
    match name {
        "indices" => indices(alloc, a, b, c),
        "set" => set(a, b, c),
        "not" => not(a, b, c),
        "countrange" => countrange(a, b, c),
        _ => value(name, a, b, c),
    }
}

/// Returns the command of this name with four words after it.
#[tactic(auto, unfolding(crate::specs::Arguments::four_words))]
fn four_words<A: Allocator + Clone>(
    alloc: &A,
    name: &str,
    a: &str,
    b: &str,
    c: &str,
    d: &str,
) -> Result<Command<A>, Unread>
    ensures read { Gives order_of result (four_words name.now a.now b.now c.now d.now) }
    ensures memory { IsErrOf result Unread.Memory →
        IsTrue (asks_memory (option_map Some (four_words name.now a.now b.now c.now d.now))) }
{
    match name {
        "import" => import(alloc, a, b, c, d),
        "take" => take(alloc, a, b, c, d),
        "fill" => fill(a, b, c, d),
        "slice" => slice(a, b, c, d),
        _ => operator(name, a, b, c, d),
    }
}

/// Returns the command of this name with a number after it.
#[tactic(auto, unfolding(crate::specs::Arguments::of_number))]
fn of_number<A: Allocator>(name: &str, k: usize) -> Result<Command<A>, Unread>
    ensures { Tells order_of result (of_number name.now k) }
{
    match name {
        "clear" => Ok(Command::Clear(k)),
        "flip" => Ok(Command::Flip(k)),
        "freeze" => Ok(Command::Freeze(k)),
        "thaw" => Ok(Command::Thaw(k)),
        "drop" => Ok(Command::Drop(k)),
        _ => question_of_number(name, k),
    }
}

/// Returns the query with this name for the set in one slot.
#[tactic(auto, unfolding(crate::specs::Arguments::question_of_number))]
fn question_of_number<A: Allocator>(name: &str, k: usize) -> Result<Command<A>, Unread>
    ensures { Tells order_of result (question_of_number name.now k) }
{
    match name {
        "len" => Ok(Command::Len(k)),
        "count" => Ok(Command::Count(k)),
        "last" => Ok(Command::Last(k)),
        _ => listing_of_number(name, k),
    }
}

/// Returns the query with this name for the set in one slot, if its answer is a list or a text.
#[tactic(auto, unfolding(crate::specs::Arguments::listing_of_number))]
fn listing_of_number<A: Allocator>(name: &str, k: usize) -> Result<Command<A>, Unread>
    ensures { Tells order_of result (listing_of_number name.now k) }
{
    match name {
        "bits" => Ok(Command::Bits(k)),
        "places" => Ok(Command::Places(k)),
        "runs" => Ok(Command::Runs(k)),
        "show" => Ok(Command::Show(k)),
        _ => Err(Unread::Unreadable),
    }
}

/// Returns the command of this name with two numbers after it.
#[tactic(auto, unfolding(crate::specs::Arguments::of_numbers))]
fn of_numbers<A: Allocator>(name: &str, k: usize, n: usize) -> Result<Command<A>, Unread>
    ensures { Tells order_of result (of_numbers name.now k n) }
{
    match name {
        "truncate" => Ok(Command::Truncate(k, n)),
        "appendset" => Ok(Command::Appendset(k, n)),
        "clone" => Ok(Command::Clone(k, n)),
        "sliced" => Ok(Command::Sliced(k, n)),
        _ => question_of_numbers(name, k, n),
    }
}

/// Returns the query with this name for the set in one slot, with a number.
#[tactic(auto, unfolding(crate::specs::Arguments::question_of_numbers))]
fn question_of_numbers<A: Allocator>(name: &str, k: usize, n: usize) -> Result<Command<A>, Unread>
    ensures { Tells order_of result (question_of_numbers name.now k n) }
{
    match name {
        "get" => Ok(Command::Get(k, n)),
        "select" => Ok(Command::Select(k, n)),
        "selectunset" => Ok(Command::Selectunset(k, n)),
        "eq" => Ok(Command::Eq(k, n)),
        _ => Err(Unread::Unreadable),
    }
}

/// Returns the command of this name with a number, a truth value and a number after it.
#[tactic(auto, unfolding(crate::specs::Arguments::of_value))]
fn of_value<A: Allocator>(name: &str, k: usize, v: bool, n: usize) -> Result<Command<A>, Unread>
    ensures { Tells order_of result (of_value name.now k v n) }
{
    match name {
        "full" => Ok(Command::Full(k, v, n)),
        "appendn" => Ok(Command::Appendn(k, v, n)),
        _ => Err(Unread::Unreadable),
    }
}

/// Returns the operator of this name on two sets.
#[tactic(auto, unfolding(crate::specs::Arguments::of_operator))]
fn of_operator<A: Allocator>(
    name: &str,
    m: Mode,
    l: usize,
    r: usize,
    t: usize,
) -> Result<Command<A>, Unread>
    ensures { Tells order_of result (of_operator name.now m l r t) }
{
    match name {
        "and" => Ok(Command::And(m, l, r, t)),
        "or" => Ok(Command::Or(m, l, r, t)),
        "xor" => Ok(Command::Xor(m, l, r, t)),
        "andnot" => Ok(Command::Andnot(m, l, r, t)),
        _ => Err(Unread::Unreadable),
    }
}

/// Returns the `append` of these words.
#[tactic(auto, unfolding(crate::specs::Arguments::append_of))]
fn append<A: Allocator>(a: &str, b: &str) -> Result<Command<A>, Unread>
    ensures { Tells order_of result (append_of a.now b.now) }
{
    Ok(Command::Append(usize::read(a)?, bool::read(b)?))
}

/// Returns the `indices` of these words.
#[tactic(auto, unfolding(crate::specs::Arguments::indices_of))]
fn indices<A: Allocator + Clone>(alloc: &A, a: &str, b: &str, c: &str) -> Result<Command<A>, Unread>
    ensures read { Gives order_of result (indices_of a.now b.now c.now) }
    ensures memory { IsErrOf result Unread.Memory →
        IsTrue (asks_memory (option_map Some (indices_of a.now b.now c.now))) }
{
    let (t, n) = two_numbers(a, b)?;
    Ok(Command::Indices(t, n, list(alloc, c)?))
}

/// Returns the `set` of these words.
#[tactic(auto, unfolding(crate::specs::Arguments::set_of))]
fn set<A: Allocator>(a: &str, b: &str, c: &str) -> Result<Command<A>, Unread>
    ensures { Tells order_of result (set_of a.now b.now c.now) }
{
    let (k, i) = two_numbers(a, b)?;
    Ok(Command::Set(k, i, bool::read(c)?))
}

/// Returns the `not` of these words.
#[tactic(auto, unfolding(crate::specs::Arguments::not_of))]
fn not<A: Allocator>(a: &str, b: &str, c: &str) -> Result<Command<A>, Unread>
    ensures { Tells order_of result (not_of a.now b.now c.now) }
{
    let m = Mode::read(a)?;
    let (l, t) = two_numbers(b, c)?;
    Ok(Command::Not(m, l, t))
}

/// Returns the `countrange` of these words.
#[tactic(auto, unfolding(crate::specs::Arguments::countrange_of))]
fn countrange<A: Allocator>(a: &str, b: &str, c: &str) -> Result<Command<A>, Unread>
    ensures { Tells order_of result (countrange_of a.now b.now c.now) }
{
    let (k, i, j) = three_numbers(a, b, c)?;
    Ok(Command::Countrange(k, i, j))
}

/// Returns the command of this name. The words after it are a number, a truth value and a number.
#[tactic(auto, unfolding(crate::specs::Arguments::value_of))]
fn value<A: Allocator>(name: &str, a: &str, b: &str, c: &str) -> Result<Command<A>, Unread>
    ensures { Tells order_of result (value_of name.now a.now b.now c.now) }
{
    of_value(name, usize::read(a)?, bool::read(b)?, usize::read(c)?)
}

/// Returns the `import` of these words.
#[tactic(auto, unfolding(crate::specs::Arguments::import_of))]
fn import<A: Allocator + Clone>(
    alloc: &A,
    a: &str,
    b: &str,
    c: &str,
    d: &str,
) -> Result<Command<A>, Unread>
    ensures read { Gives order_of result (import_of a.now b.now c.now d.now) }
    ensures memory { IsErrOf result Unread.Memory →
        IsTrue (asks_memory (option_map Some (import_of a.now b.now c.now d.now))) }
{
    let (t, o, n) = three_numbers(a, b, c)?;
    let pairs = hex_pairs(d)?;
    Ok(Command::Import(t, o, n, bytes_of_pairs(alloc.clone()?, pairs)?))
}

/// Returns the `take` of these words.
#[tactic(auto, unfolding(crate::specs::Arguments::take_of))]
fn take<A: Allocator + Clone>(
    alloc: &A,
    a: &str,
    b: &str,
    c: &str,
    d: &str,
) -> Result<Command<A>, Unread>
    ensures read { Gives order_of result (take_of a.now b.now c.now d.now) }
    ensures memory { IsErrOf result Unread.Memory →
        IsTrue (asks_memory (option_map Some (take_of a.now b.now c.now d.now))) }
{
    let (k, t) = two_numbers(a, b)?;
    let m = Option::<usize>::read(c)?;
    Ok(Command::Take(k, t, m, list(alloc, d)?))
}

/// Returns the `fill` of these words.
#[tactic(auto, unfolding(crate::specs::Arguments::fill_of))]
fn fill<A: Allocator>(a: &str, b: &str, c: &str, d: &str) -> Result<Command<A>, Unread>
    ensures { Tells order_of result (fill_of a.now b.now c.now d.now) }
{
    let (k, i, j) = three_numbers(a, b, c)?;
    Ok(Command::Fill(k, i, j, bool::read(d)?))
}

/// Returns the `slice` of these words.
#[tactic(auto, unfolding(crate::specs::Arguments::slice_of))]
fn slice<A: Allocator>(a: &str, b: &str, c: &str, d: &str) -> Result<Command<A>, Unread>
    ensures { Tells order_of result (slice_of a.now b.now c.now d.now) }
{
    let (k, i, j) = three_numbers(a, b, c)?;
    Ok(Command::Slice(k, i, j, usize::read(d)?))
}

/// Returns the operator of this name on two sets, with the fields that these words write.
#[tactic(auto, unfolding(crate::specs::Arguments::operator_of))]
fn operator<A: Allocator>(
    name: &str,
    a: &str,
    b: &str,
    c: &str,
    d: &str,
) -> Result<Command<A>, Unread>
    ensures { Tells order_of result (operator_of name.now a.now b.now c.now d.now) }
{
    let m = Mode::read(a)?;
    let (l, r, t) = three_numbers(b, c, d)?;
    of_operator(name, m, l, r, t)
}

/// Returns the numbers that two words write.
#[tactic(auto, unfolding(crate::specs::Arguments::two_numbers))]
fn two_numbers(a: &str, b: &str) -> Result<(usize, usize), Unread>
    ensures { Tells (λ numbers. numbers) result (two_numbers a.now b.now) }
{
    Ok((usize::read(a)?, usize::read(b)?))
}

/// Returns the numbers that three words write.
#[tactic(auto, unfolding(crate::specs::Arguments::three_numbers))]
fn three_numbers(a: &str, b: &str, c: &str) -> Result<(usize, usize, usize), Unread>
    ensures { Tells (λ numbers. numbers) result (three_numbers a.now b.now c.now) }
{
    Ok((usize::read(a)?, usize::read(b)?, usize::read(c)?))
}
