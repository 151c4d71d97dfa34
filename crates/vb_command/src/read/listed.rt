//! Lists with commas between the items, or `-` for no items.
ghost use Rattle.std.specs.Prelude.{◌≡◌, [], ◌∷◌, length, MatchOption, option_map};
ghost use Rattle.vb_command.specs.Listed.{items_of, parts};
ghost use Rattle.vb_command.specs.Reading.{Gives, Tells};

use crate::read::field::Field;
use crate::read::split::split_short;
use crate::unread::Unread;
use std::alloc::Allocator;
use std::marker::Model;

/// The texts of the remaining items of a list. Contracts see the list of these texts.
#[derive(Drop)]
struct ItemTexts<'a> {
    rest: Option<&'a str>,
}

impl<'a> Model for ItemTexts<'a> {
    ghost use Rattle.std.specs.Prelude.{ℕ, List, []};
    ghost use Rattle.std.specs.List.{slice_split};
    ghost use Rattle.std.specs.Option.{option_map_or};
    ghost use Rattle.vb_command.specs.Listed.{is_comma};

    ghost Value = { List (List ℕ) };

    ghost view = { λ t. option_map_or (λ rest. slice_split is_comma rest.now) t.rest [] };
}

impl<'a> ItemTexts<'a> {
    /// Returns the texts between the commas of a word; none for `-`.
    fn new(word: &'a str) -> Self
        ensures { result ≡ parts word.now }
    {
        ItemTexts {
            rest: if word == "-" { None } else { Some(word) },
        }
    }

    /// Returns the next text, if there is one.
    #[tactic(auto, using(crate::proofs::ListedLemmas::splits))]
    fn next(&mut self) -> Option<&'a str>
        ensures { MatchOption result
            (self.old ≡ [])
            (λ text. self.old ≡ text.now ∷ self.new) }
    {
        let rest = self.rest?;
        if let Some((text, after)) = split_short(rest, ',') {
            self.rest = Some(after);
            return Some(text);
        }
        self.rest = None;
        Some(rest)
    }
}

/// Returns the number of items that a word writes.
#[tactic(auto, using(crate::proofs::ListedLemmas::counts))]
fn count<T: Field>(word: &str) -> Result<usize, Unread>
    ensures { Tells (λ n. n) result (option_map length (items_of (T.written) word.now)) }
{
    let mut count = 0;
    let mut texts = ItemTexts::new(word);
    while let Some(text) = texts.next() {
        T::read(text)?;
        count += 1;
    }
    Ok(count)
}

/// Returns the items that a word writes. Allocates once.
pub(crate) fn list<T: Field, A: Allocator + Clone>(
    alloc: &A,
    word: &str,
) -> Result<Vec<T, A>, Unread>
    ensures { Gives (λ items. items.items) result (items_of (T.written) word.now) }
{
    let count = count::<T>(word)?;
    let mut items = Vec::with_capacity(alloc.clone()?, count)?;
    let mut texts = ItemTexts::new(word);
    while let Some(text) = texts.next() {
        items.push(T::read(text)?)?;
    }
    Ok(items)
}
