//! Random lines, determined by a seed.
use crate::machine::{FORMS, Kind, Line, Text, form_of, read};
use std::alloc::Global;

/// Lines that have no answer.
const SKIPPED: &[&str] = &["", "  ", "# len 0", " #"];

/// Words that make most lines unreadable.
const OTHER_WORDS: &[&str] = &[
    "",
    "x",
    "+1",
    "-1",
    "1,",
    "2 2",
    "0x1",
    "1\t",
    "18446744073709551616",
    "own",
    "é",
    "-",
    "0 #",
];

/// Lengths around the ends of words, and two others.
pub(crate) const LENGTHS: &[&str] = &["63", "64", "65", "127", "128", "129", "200", "007", "512"];

/// The same lengths, and ones for which there is no memory, or that aren't numbers of bits.
pub(crate) const ALL_LENGTHS: &[&str] = &[
    "63",
    "64",
    "65",
    "127",
    "128",
    "129",
    "200",
    "007",
    "512",
    "9223372036854775808",
    "18446744073709551615",
];

/// Commands that are there more often, so that operators find frozen sets of one length, and an
/// empty slot.
const OFTEN: &[&str] = &[
    "full", "full", "freeze", "freeze", "freeze", "drop", "slice", "and", "or", "xor", "andnot",
];

/// Lines that combine two sets, or take from one. A, B and C are slots, M is a mode, and each H a
/// digit of bytes.
const GROUPS: &[&str] = &[
    "import A 3 40 HHHHHHHHHHHH\nimport B 5 40 HHHHHHHHHHHH\nfreeze A\nfreeze B\nand M A B C\n",
    "import A 7 70 HHHHHHHHHHHHHHHHHHHH\nclone A B\nflip B\nfreeze A\nfreeze B\nor M A B C\n",
    "import A 0 9 HHHH\nimport B 0 9 HHHH\nfreeze B\nfreeze A\nxor M A B C\n",
    "full A 1 65\nfreeze A\nimport B 2 65 HHHHHHHHHHHHHHHHHH\nfreeze B\nandnot M A B C\n",
    "import A 1 20 HHHHHH\nfreeze A\nimport B 6 4 HHHH\nfreeze B\ntake A C B 3,0,19,20\n",
    "import A 4 30 HHHHHHHHHH\nfreeze A\nslice A 5 25 B\nnot M B C\neq A C\nappendset A C\n",
    "indices A 70 69,0,64\nimport B 3 13 HHHH\nfreeze B\nappendset A B\n",
];

/// Slots of a group.
const SLOTS: &[(char, char, char)] = &[
    ('0', '1', '2'),
    ('3', '0', '1'),
    ('2', '4', '5'),
    ('5', '3', '0'),
];

/// Digits of bytes, in capitals and not.
const DIGITS: &[&str] = &[
    "0", "1", "2", "3", "4", "5", "6", "7", "8", "9", "a", "B", "c", "D", "e", "F",
];

/// Slots that aren't there.
const NO_SLOTS: &[&str] = &["16", "17", "18446744073709551615"];

const MODES: &[&str] = &["ref", "own"];

/// What precedes indexes.
const SIGNS: &[&str] = &["", "", "", "", "", "", "", "-"];

/// Generates lines from a sequence of numbers that a seed determines.
#[derive(Drop)]
pub(crate) struct Random {
    /// The seed, or what became of it.
    state: u64,
    /// Some of the numbers in lines.
    lengths: &'static [&'static str],
    /// The lines.
    pub text: Text,
}

impl Random {
    pub(crate) fn new(alloc: Global, seed: u64, lengths: &'static [&'static str]) -> Random {
        Random {
            state: seed,
            lengths,
            text: Text::new(alloc),
        }
    }

    /// A number below `n`.
    fn below(&mut self, n: usize) -> usize {
        self.state = self
            .state
            .wrapping_mul(6364136223846793005)
            .wrapping_add(1442695040888963407);
        (self.state >> 33) as usize % n.max(1)
    }

    fn one_of<'a>(&mut self, words: &[&'a str]) -> &'a str {
        words.get(self.below(words.len())).copied().unwrap_or("")
    }

    fn add_one_of(&mut self, words: &[&str]) {
        let word = self.one_of(words);
        self.text.add(word);
    }

    fn add_below(&mut self, n: usize) {
        let number = self.below(n);
        self.text.add_number(number);
    }

    /// Adds up to `most` random lines, and stops after the first one that can't be read. Adds
    /// groups of lines among them, which don't count. Returns the number of lines.
    pub(crate) fn add_session(&mut self, most: usize) -> usize {
        for count in 1..=most {
            if self.below(25) == 0 {
                self.add_group();
            }
            let start = self.text.len();
            if self.below(50) == 0 {
                self.add_one_of(SKIPPED);
            } else {
                self.add_command();
            }
            let is_last = matches!(read(self.text.added(start)), Line::Unreadable);
            let is_returned = self.below(20) == 0;
            self.text.add(if is_returned { "\r\n" } else { "\n" });
            if is_last {
                return count;
            }
        }
        most
    }

    /// Adds lines that empty three slots, a group of lines on these, and lines that print two.
    fn add_group(&mut self) {
        let slots = SLOTS.get(self.below(SLOTS.len())).copied();
        let slots = slots.unwrap_or(('0', '1', '2'));
        let group = self.one_of(GROUPS);
        self.add_filled("drop A\ndrop B\ndrop C\n", slots);
        self.add_filled(group, slots);
        self.add_filled("bits C\nruns A\nfreeze C\n", slots);
    }

    /// Adds a text, with each capital letter replaced by what it represents.
    fn add_filled(&mut self, text: &str, (a, b, c): (char, char, char)) {
        for letter in text.chars() {
            match letter {
                'A' => self.text.add_letter(a),
                'B' => self.text.add_letter(b),
                'C' => self.text.add_letter(c),
                'M' => self.add_one_of(MODES),
                'H' => self.add_one_of(DIGITS),
                _ => self.text.add_letter(letter),
            }
        }
    }

    fn add_command(&mut self) {
        let often = form_of(self.one_of(OFTEN));
        let any = FORMS.get(self.below(FORMS.len()));
        let Some(form) = (if self.below(2) == 0 { often } else { any }) else {
            return;
        };
        self.text.add(form.0);
        for kind in form.1 {
            let is_wide = self.below(50) == 0;
            self.text.add(if is_wide { "   " } else { " " });
            self.add_word(*kind);
        }
    }

    /// Adds a word of a kind, or rarely one that makes most lines unreadable.
    fn add_word(&mut self, kind: Kind) {
        match kind {
            _ if self.below(500) == 0 => self.add_one_of(OTHER_WORDS),
            Kind::Truth => self.add_one_of(&["0", "1"]),
            Kind::Mode => self.add_one_of(MODES),
            Kind::Hex => self.add_hex(),
            Kind::Numbers => self.add_numbers(&[""]),
            Kind::Indexes => self.add_numbers(SIGNS),
            Kind::Validity if self.below(2) == 0 => self.text.add("-"),
            Kind::Number => self.add_number(),
            _ if self.below(40) == 0 => self.add_one_of(NO_SLOTS),
            _ => self.add_below(6),
        }
    }

    fn add_number(&mut self) {
        match self.below(8) {
            0 => self.add_one_of(self.lengths),
            1 => self.add_below(140),
            2..=4 => self.text.add("8"),
            _ => self.add_below(9),
        }
    }

    /// Adds up to 20 bytes.
    fn add_hex(&mut self) {
        let count = self.below(21);
        for _ in 0..count {
            self.add_one_of(DIGITS);
            self.add_one_of(DIGITS);
        }
        if count == 0 {
            self.text.add("-");
        }
    }

    /// Adds up to six numbers with one of the signs before each.
    fn add_numbers(&mut self, signs: &[&str]) {
        let count = self.below(7);
        for place in 0..count {
            self.text.add(if place == 0 { "" } else { "," });
            self.add_one_of(signs);
            self.add_below(12);
        }
        if count == 0 {
            self.text.add("-");
        }
    }
}
