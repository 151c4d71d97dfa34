//! Answers and refusals as text, for any printer.
ghost use Rattle.std.specs.Prelude.{◌++◌, Some};

use crate::answer::Answer;
use crate::print::digit::digit;
use crate::print::lists::{print_digits, print_places, print_runs};
use crate::print::printer::Printer;
use crate::refusal::Refusal;
use std::alloc::Allocator;
use std::fmt;

impl Refusal {
    ghost use Rattle.vb_command.specs.Printed.{refusal_text};

    /// Prints the refusal and the end of an answer.
    fn print<O, P: Printer<O>>(self, printer: &mut P, output: &mut O) -> Result<(), P::Error>
        ensures { P.puts printer.old output.old (refusal_text self ++ P.end) result
            printer.new output.new }
    {
        match self {
            Refusal::BadSlot => printer.put_last_words("refused BadSlot", output),
            Refusal::BadWindow => printer.put_last_words("refused BadWindow", output),
            Refusal::OutOfRange => printer.put_last_words("refused OutOfRange", output),
            Refusal::LengthMismatch => printer.put_last_words("refused LengthMismatch", output),
            Refusal::TakeOutOfRange(position) => {
                printer.put_words("refused TakeOutOfRange ", output)?;
                printer.put_last_number(position, output)
            }
            Refusal::TooManyBits => printer.put_last_words("refused TooManyBits", output),
            Refusal::OutOfMemory => printer.put_last_words("refused OutOfMemory", output),
        }
    }
}

impl fmt::Display for Refusal {
    ghost use Rattle.vb_command.specs.Printed.{refusal_text};

    ghost output = { λ why. Some (refusal_text why) };

    fn fmt<W: fmt::Write>(&self, f: &mut fmt::Formatter<W>) -> fmt::Result {
        self.print(f, &mut ())
    }
}

impl<A: Allocator> Answer<A> {
    ghost use Rattle.vb_command.specs.Printed.{text_of};
    ghost use Rattle.vb_command.specs.Views.{reply};

    /// Prints the answer and its end. Returns the first error of the printer, and puts nothing
    /// after it. Only the printer may allocate.
    pub fn print<O, P: Printer<O>>(&self, printer: &mut P, output: &mut O) -> Result<(), P::Error>
        ensures { P.puts printer.old output.old (text_of (reply self.now) ++ P.end) result
            printer.new output.new }
    {
        match self {
            Answer::Done => printer.put_last_words("ok", output),
            Answer::Number(n) => printer.put_last_number(*n, output),
            Answer::Truth(bit) => printer.put_last_words(digit(*bit), output),
            Answer::Place(None) => printer.put_last_words("none", output),
            Answer::Place(Some(place)) => printer.put_last_number(*place, output),
            Answer::Bits(bits) => print_digits(bits, printer, output),
            Answer::Places(places) => print_places(places, printer, output),
            Answer::Runs(runs) => print_runs(runs, printer, output),
            Answer::Text(text) => printer.put_last_words(text, output),
            Answer::Refused(why) => why.print(printer, output),
        }
    }
}

impl<A: Allocator> fmt::Display for Answer<A> {
    ghost use Rattle.vb_command.specs.Printed.{text_of};
    ghost use Rattle.vb_command.specs.Views.{reply};

    ghost output = { λ answer. Some (text_of (reply answer)) };

    fn fmt<W: fmt::Write>(&self, f: &mut fmt::Formatter<W>) -> fmt::Result {
        self.print(f, &mut ())
    }
}
