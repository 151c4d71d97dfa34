//! Lists as text: truth values, indices and runs.
ghost use Rattle.std.specs.Prelude.{◌++◌, codes};
ghost use Rattle.vb_command.specs.Printed.{digits_of, places_text, run_text, runs_text};

use crate::print::printer::Printer;

/// Prints truth values as binary digits with nothing between them, or `-` if there are none, and
/// the end of an answer.
pub(crate) fn print_digits<O, P: Printer<O>>(
    bits: &[bool],
    printer: &mut P,
    output: &mut O,
) -> Result<(), P::Error>
    ensures { P.puts printer.old output.old (digits_of bits.now ++ P.end) result
        printer.new output.new }
{
    if bits.is_empty() {
        return printer.put_last_words("-", output);
    }
    printer.put_digits(bits, output)?;
    printer.put_end(output)
}

/// Prints indices in decimal with commas between them, or `-` if there are none, and the end of an
/// answer.
pub(crate) fn print_places<O, P: Printer<O>>(
    places: &[usize],
    printer: &mut P,
    output: &mut O,
) -> Result<(), P::Error>
    ensures { P.puts printer.old output.old (places_text places.now ++ P.end) result
        printer.new output.new }
{
    let [first, rest @ ..] = places else {
        return printer.put_last_words("-", output);
    };
    printer.put_number(*first, output)?;
    for place in rest {
        printer.put_behind(b',', *place, output)?;
    }
    printer.put_end(output)
}

/// Prints runs as `1-3` with commas between them, or `-` if there are none, and the end of an
/// answer.
pub(crate) fn print_runs<O, P: Printer<O>>(
    runs: &[(usize, usize)],
    printer: &mut P,
    output: &mut O,
) -> Result<(), P::Error>
    ensures { P.puts printer.old output.old (runs_text runs.now ++ P.end) result
        printer.new output.new }
{
    let [first, rest @ ..] = runs else {
        return printer.put_last_words("-", output);
    };
    put_run(*first, printer, output)?;
    for run in rest {
        put_next_run(*run, printer, output)?;
    }
    printer.put_end(output)
}

/// Puts a run: the index of its first bit, and the index after its last bit.
fn put_run<O, P: Printer<O>>(
    run: (usize, usize),
    printer: &mut P,
    output: &mut O,
) -> Result<(), P::Error>
    ensures { P.puts printer.old output.old (run_text run) result printer.new output.new }
{
    let (start, end) = run;
    printer.put_number(start, output)?;
    printer.put_behind(b'-', end, output)
}

/// Puts a comma and a run.
fn put_next_run<O, P: Printer<O>>(
    run: (usize, usize),
    printer: &mut P,
    output: &mut O,
) -> Result<(), P::Error>
    ensures { P.puts printer.old output.old (codes "," ++ run_text run) result
        printer.new output.new }
{
    let (start, end) = run;
    printer.put_behind(b',', start, output)?;
    printer.put_behind(b'-', end, output)
}
