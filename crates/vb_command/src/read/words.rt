//! The words of a line: its nonempty parts between spaces.
ghost use Rattle.std.specs.Prelude.{◌≡◌, [], ◌∷◌, MatchOption};
ghost use Rattle.vb_command.specs.Words.{line_words};
ghost use Rattle.vb_command.specs.Spaces.{AreSpaces};

use crate::read::spaces::cut_at_space;
use crate::read::split::split_short;
use std::marker::Model;

/// The remaining words of a text. Contracts see the list of these words.
#[derive(Drop)]
pub(crate) struct Words<'a> {
    rest: &'a str,
    /// Which bytes are spaces, if that is known: the lowest bit is for the first byte.
    spaces: Option<u64>,
}

impl<'a> Model for Words<'a> {
    ghost use Rattle.std.specs.Prelude.{ℕ, List, IfSome};
    ghost use Rattle.vb_command.specs.Spaces.{AreSpaces};
    ghost use Rattle.vb_command.specs.Words.{line_words};

    ghost Value = { List (List ℕ) };

    ghost view = { λ w. line_words w.rest.now };

    ghost invariant = { λ w. IfSome w.spaces (AreSpaces w.rest.now) };
}

impl<'a> Words<'a> {
    /// Returns the words of a text.
    pub(crate) fn new(text: &'a str) -> Self
        ensures { result ≡ line_words text.now }
    {
        Words {
            rest: text,
            spaces: None,
        }
    }

    /// Returns the words of a text whose spaces are known.
    #[inline(always)]
    pub(crate) fn between(text: &'a str, spaces: u64) -> Self
        requires { AreSpaces text.now spaces }
        ensures { result ≡ line_words text.now }
    {
        Words {
            rest: text,
            spaces: Some(spaces),
        }
    }

    /// Returns the next word, if there is one.
    #[inline(always)]
    pub(crate) fn next(&mut self) -> Option<&'a str>
        ensures { MatchOption result
            (self.old ≡ [])
            (λ word. self.old ≡ word.now ∷ self.new) }
    {
        if let Some(spaces) = self.spaces {
            let (word, rest, left) = next_between(self.rest, spaces)?;
            self.rest = rest;
            self.spaces = Some(left);
            return Some(word);
        }
        let (word, rest) = next_word(self.rest)?;
        self.rest = rest;
        Some(word)
    }
}

/// Returns the first word of a text, the text after it, and the spaces of the text after it.
/// `spaces` has the spaces of the whole text.
#[inline(always)]
#[tactic(auto, using(crate::proofs::WordLists::parts))]
fn next_between(text: &str, spaces: u64) -> Option<(&str, &str, u64)>
    requires { AreSpaces text.now spaces }
    ensures { MatchOption result
        (line_words text.now ≡ [])
        (λ (word, rest, left). (line_words text.now ≡ word.now ∷ line_words rest.now)
        × AreSpaces rest.now left) }
{
    let mut rest = text;
    let mut left = spaces;
    while left != 0 {
        let (part, after, spaces) = cut_at_space(rest, left);
        if !part.is_empty() {
            return Some((part, after, spaces));
        }
        rest = after;
        left = spaces;
    }
    if rest.is_empty() {
        None
    } else {
        Some((rest, "", 0))
    }
}

/// Returns the first word of a text, and the text after it.
#[tactic(auto, using(crate::proofs::WordLists::parts))]
fn next_word(text: &str) -> Option<(&str, &str)>
    ensures { MatchOption result
        (line_words text.now ≡ [])
        (λ (word, rest). line_words text.now ≡ word.now ∷ line_words rest.now) }
{
    let mut rest = text;
    while let Some((word, after)) = split_short(rest, ' ') {
        if !word.is_empty() {
            return Some((word, after));
        }
        rest = after;
    }
    if rest.is_empty() {
        None
    } else {
        Some((rest, ""))
    }
}
