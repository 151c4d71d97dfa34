//! The form of each command's line, and how the command changes a plain list, or its answer.
use crate::machine::answer::{add_bits, add_place, add_places, add_runs, add_shown};
use crate::machine::form::Form;
use crate::machine::form::Kind::{
    Frozen, Held, Hex, Indexes, Mode, Number, Numbers, Open, Truth, Vacant, Validity,
};
use crate::machine::form::Memory::{Asks, Never};
use crate::machine::form::Then::{Answers, Empties, Freezes, Keeps, Opens};
use crate::machine::line::Call;
use crate::machine::list::{
    combine, count, cut, fill, lengthen, name_places, nth_place, part, take, window,
};
use crate::machine::stop::Stop;
use crate::machine::text::Text;

/// The form of the command of this name.
pub fn form_of(name: &str) -> Option<&'static Form> {
    for form in FORMS {
        if form.0 == name {
            return Some(form);
        }
    }
    None
}

/// The form of each command.
pub const FORMS: &[Form] = &[
    Form("import", &[Vacant, Number, Number, Hex], Opens, Asks),
    Form("full", &[Vacant, Truth, Number], Opens, Asks),
    Form("indices", &[Vacant, Number, Numbers], Opens, Asks),
    Form("set", &[Open, Number, Truth], Opens, Never),
    Form("append", &[Open, Truth], Opens, Asks),
    Form("appendn", &[Open, Truth, Number], Opens, Asks),
    Form("appendset", &[Open, Frozen], Opens, Asks),
    Form("fill", &[Open, Number, Number, Truth], Opens, Never),
    Form("truncate", &[Open, Number], Opens, Never),
    Form("clear", &[Open], Opens, Never),
    Form("flip", &[Open], Opens, Never),
    Form("freeze", &[Open], Freezes, Asks),
    Form("thaw", &[Frozen], Opens, Asks),
    Form("clone", &[Held, Vacant], Keeps, Asks),
    Form("slice", &[Frozen, Number, Number, Vacant], Freezes, Asks),
    Form("sliced", &[Frozen, Vacant], Freezes, Asks),
    Form("drop", &[Held], Empties, Never),
    Form("and", &[Mode, Frozen, Frozen, Vacant], Freezes, Asks),
    Form("or", &[Mode, Frozen, Frozen, Vacant], Freezes, Asks),
    Form("xor", &[Mode, Frozen, Frozen, Vacant], Freezes, Asks),
    Form("andnot", &[Mode, Frozen, Frozen, Vacant], Freezes, Asks),
    Form("not", &[Mode, Frozen, Vacant], Freezes, Asks),
    Form("take", &[Frozen, Vacant, Validity, Indexes], Freezes, Asks),
    Form("len", &[Held], Answers, Never),
    Form("count", &[Held], Answers, Never),
    Form("get", &[Held, Number], Answers, Never),
    Form("countrange", &[Held, Number, Number], Answers, Never),
    Form("select", &[Held, Number], Answers, Never),
    Form("selectunset", &[Held, Number], Answers, Never),
    Form("last", &[Held], Answers, Never),
    Form("bits", &[Held], Answers, Asks),
    Form("places", &[Held], Answers, Asks),
    Form("runs", &[Held], Answers, Asks),
    Form("show", &[Frozen], Answers, Asks),
    Form("eq", &[Held, Held], Answers, Never),
];

/// The lists of the slots that the first three words name, or no bits.
#[derive(Clone, Copy)]
pub(crate) struct Named<'a> {
    pub(crate) first: &'a [bool],
    pub(crate) second: &'a [bool],
    pub(crate) third: &'a [bool],
}

/// Applies the command to `bits`: the list of the first slot that the line names, or no bits.
pub(crate) fn change(call: Call<'_>, named: Named<'_>, bits: &mut Vec<bool>) -> Result<(), Stop> {
    let (a, b, c) = (call.number(2), call.number(3), call.number(4));
    let items = call.items();
    match call.name {
        "import" => window(bits, a, b, items),
        "full" | "appendn" => lengthen(bits, a == 1, b),
        "append" => lengthen(bits, a == 1, 1),
        "appendset" => Ok(bits.extend_from_slice(named.second)?),
        "indices" => name_places(bits, a, items),
        "set" => fill(bits, a, a.saturating_add(1), b == 1),
        "fill" => fill(bits, a, b, c == 1),
        "slice" => cut(bits, a, b),
        "truncate" => cut(bits, 0, a.min(bits.len())),
        "clear" => cut(bits, 0, 0),
        "and" | "or" | "xor" | "andnot" => combine(bits, call.name, named.third),
        "take" => {
            let counts = (call.word(3) != "-").then_some(named.third);
            take(bits, named.first, counts, items)
        }
        "flip" | "not" => {
            for bit in bits.iter_mut() {
                *bit = !*bit;
            }
            Ok(())
        }
        // All other commands leave the list unchanged.
        _ => Ok(()),
    }
}

/// Adds the answer of a question to an empty text. Only `eq` reads the other list.
pub(crate) fn answer(
    text: &mut Text,
    call: Call<'_>,
    bits: &[bool],
    other: &[bool],
) -> Result<(), Stop> {
    let (a, b) = (call.number(2), call.number(3));
    match call.name {
        "len" => text.add_number(bits.len()),
        "count" => text.add_number(count(bits)),
        "countrange" => text.add_number(count(part(bits, a, b)?)),
        "get" => add_bits(text, part(bits, a, a.saturating_add(1))?),
        "eq" => add_bits(text, &[bits == other]),
        "select" => add_place(text, nth_place(bits, true, a)),
        "selectunset" => add_place(text, nth_place(bits, false, a)),
        "last" => add_place(text, nth_place(bits, true, count(bits).wrapping_sub(1))),
        "bits" => add_bits(text, bits),
        "places" => add_places(text, bits),
        "runs" => add_runs(text, bits),
        _ => add_shown(text, bits),
    }
    // A list of nothing is a dash.
    if text.len() == 0 {
        text.add("-");
    }
    Ok(())
}
