//! The trait of printers of answers.
ghost use Rattle.std.specs.Prelude.{ℕ, List, Result, Ok, Err, [], ◌∷◌, ◌++◌, ◌<◌, decimal};
ghost use Rattle.std.specs.List.{flat_map};
ghost use Rattle.vb_command.specs.Printed.{digit_of};

/// A printer of answers. Its methods put the pieces of an answer's text, one after the other.
///
/// Each call gets an `O`, to which the printer writes the text that it does not keep itself. A
/// `Formatter` needs none. In `vb_script` the printer holds the answers that wait to be written,
/// and `O` is the sink. An error ends the text.
pub trait Printer<O> {
    /// The error of a piece that cannot be put.
    type Error;

    // The effect of putting a text, by its result.
    ghost puts: { Self → O → List ℕ → Result (Unit {0}) Self.Error → Self → O → Type 0 };

    // The text that ends an answer: a line feed in `vb_script`, nothing for a `Formatter`.
    ghost end: { List ℕ };

    /// Puts words.
    fn put_words(&mut self, words: &str, output: &mut O) -> Result<(), Self::Error>
        ensures { puts self.old output.old words.now result self.new output.new };

    /// Puts a number in decimal.
    fn put_number(&mut self, n: usize, output: &mut O) -> Result<(), Self::Error>
        ensures { puts self.old output.old (decimal n) result self.new output.new };

    /// Puts an ASCII byte and then a number in decimal. The caller must prove that the byte is
    /// below 128.
    fn put_behind(&mut self, byte: u8, n: usize, output: &mut O) -> Result<(), Self::Error>
        requires { byte < 128 }
        ensures { puts self.old output.old (byte ∷ decimal n) result self.new output.new };

    /// Puts truth values as binary digits.
    fn put_digits(&mut self, bits: &[bool], output: &mut O) -> Result<(), Self::Error>
        ensures { puts self.old output.old (flat_map digit_of bits.now) result
            self.new output.new };

    /// Puts the end of an answer.
    fn put_end(&mut self, output: &mut O) -> Result<(), Self::Error>
        ensures { puts self.old output.old end result self.new output.new };

    /// Puts words and the end of an answer.
    fn put_last_words(&mut self, words: &str, output: &mut O) -> Result<(), Self::Error>
        ensures { puts self.old output.old (words.now ++ end) result self.new output.new };

    /// Puts a number in decimal and the end of an answer.
    fn put_last_number(&mut self, n: usize, output: &mut O) -> Result<(), Self::Error>
        ensures { puts self.old output.old (decimal n ++ end) result self.new output.new };

    // Putting an empty text changes nothing.
    ghost nothing: { (p : Self) (o : O) → puts p o [] (Ok tt) p o };

    // Two texts put one after the other are one text.
    ghost joins: { (p : Self) (o : O) (front : List ℕ) (q : Self) (m : O) (back : List ℕ)
        (r : Result (Unit {0}) Self.Error) (s : Self) (n : O)
        → puts p o front (Ok tt) q m → puts q m back r s n → puts p o (front ++ back) r s n };

    // An error for one text is an error for any text.
    ghost fails: { (p : Self) (o : O) (front whole : List ℕ) (why : Self.Error) (s : Self) (n : O)
        → puts p o front (Err why) s n → puts p o whole (Err why) s n };
}
