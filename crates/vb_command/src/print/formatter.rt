//! Formatters as printers: an answer ends with nothing.
ghost use Rattle.std.specs.Prelude.{[], ◌++◌};
ghost use Rattle.std.specs.Fmt.{WritesOnOk};
ghost use Rattle.std.proofs.Common.{refl, sym, true≢false};
ghost use Rattle.std.proofs.lemmas.Grind.{put_two};

use crate::print::digit::digit;
use crate::print::printer::Printer;
use std::fmt;

impl<W: fmt::Write> Printer<()> for fmt::Formatter<W> {
    type Error = fmt::Error;

    ghost puts = { λ f _ text r g _. WritesOnOk W.write_str_gives f r text g };

    ghost end = { [] };

    ghost nothing = { λ f _ plain _. record {
      wrote = record { parts = []; calls = refl; whole = refl };
      plain = plain;
    } };

    ghost joins = { λ f _ front g _ back r h _ first next plain ok.
        put_two W.write_str_gives f g h front back (front ++ back) (first plain refl)
        (next (first plain refl).plain ok) refl };

    ghost fails = { λ _ _ _ _ _ _ _ _ _ ok. absurd (true≢false (sym ok)) };

    fn put_words(&mut self, words: &str, _output: &mut ()) -> fmt::Result {
        self.write_str(words)
    }

    fn put_number(&mut self, n: usize, _output: &mut ()) -> fmt::Result {
        write!(self, "{n}")
    }

    fn put_behind(&mut self, byte: u8, n: usize, _output: &mut ()) -> fmt::Result {
        write!(self, "{}{n}", byte as char)
    }

    fn put_digits(&mut self, bits: &[bool], _output: &mut ()) -> fmt::Result {
        for bit in bits {
            self.write_str(digit(*bit))?;
        }
        Ok(())
    }

    fn put_end(&mut self, _output: &mut ()) -> fmt::Result {
        Ok(())
    }

    fn put_last_words(&mut self, words: &str, output: &mut ()) -> fmt::Result {
        self.put_words(words, output)
    }

    fn put_last_number(&mut self, n: usize, output: &mut ()) -> fmt::Result {
        self.put_number(n, output)
    }
}
