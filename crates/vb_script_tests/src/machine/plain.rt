//! The commands on plain lists of truth values, one list a slot, which share nothing.
use crate::machine::commands::{Named, answer, change};
use crate::machine::form::{Kind, Memory, Then};
use crate::machine::line::Call;
use crate::machine::stop::{BAD_SLOT, OUT_OF_MEMORY, Stop};
use crate::machine::text::Text;
use std::alloc::{AllocError, Global};
use std::mem;

/// What a slot holds.
#[derive(Clone, Copy)]
enum Holds {
    Nothing,
    Open,
    Frozen,
}

/// A slot. Its bits have a meaning only if it holds a list.
#[derive(Drop)]
struct Slot {
    holds: Holds,
    bits: Vec<bool>,
}

/// Whether a word of this kind may name a slot that holds this; `holds` is None if there is no such
/// slot.
fn may_name(kind: Kind, holds: Option<Holds>) -> bool {
    match kind {
        Kind::Open => matches!(holds, Some(Holds::Open)),
        Kind::Frozen | Kind::Validity => matches!(holds, Some(Holds::Frozen)),
        Kind::Held => matches!(holds, Some(Holds::Open | Holds::Frozen)),
        Kind::Vacant => matches!(holds, Some(Holds::Nothing)),
        _ => true,
    }
}

/// Sixteen slots for plain lists of truth values.
#[derive(Drop)]
pub struct Plain {
    slots: Vec<Slot>,
    /// The list of the line at hand.
    list: Vec<bool>,
    /// Its answer.
    text: Text,
    /// Whether a request for memory was refused that no answer has reported yet.
    pub may_refuse: bool,
}

impl Plain {
    /// All slots are empty.
    pub fn new(alloc: Global, may_refuse: bool) -> Result<Plain, AllocError> {
        let mut slots = Vec::with_capacity(alloc, 16)?;
        for _ in 0..16 {
            let (holds, bits) = (Holds::Nothing, Vec::new(alloc));
            drop(slots.push(Slot { holds, bits }));
        }
        Ok(Plain {
            slots,
            list: Vec::new(alloc),
            text: Text::new(alloc),
            may_refuse,
        })
    }

    /// Carries out a command and returns its answer; None if the plain machine has no memory for
    /// it. Refuses the command's memory if the pool's answer `told` says so, the command can
    /// request memory, and `may_refuse` is set.
    pub fn serve(&mut self, call: Call<'_>, told: &str) -> Option<&str> {
        let is_told = told == "refused OutOfMemory";
        let asks = matches!(call.form.3, Memory::Asks);
        self.text.clear();
        match self.carry_out(call, is_told && asks && self.may_refuse) {
            Ok(()) => {}
            Err(Stop::TooLong) if is_told => self.text.add(told),
            Err(stop) => add_refused(&mut self.text, stop),
        }
        self.text.whole()
    }

    fn carry_out(&mut self, call: Call<'_>, is_refused: bool) -> Result<(), Stop> {
        self.check_slots(call)?;
        let is_mode = matches!(call.form.1, [Kind::Mode, ..]);
        let first = bits_of(&self.slots, call, if is_mode { 2 } else { 1 });
        self.list.clear();
        self.list.extend_from_slice(first)?;
        self.make(call, is_refused)?;
        if matches!(call.form.2, Then::Answers) {
            let other = bits_of(&self.slots, call, 2);
            return answer(&mut self.text, call, &self.list, other);
        }
        self.put(call);
        self.text.add("ok");
        Ok(())
    }

    /// Applies the command to the list, unless memory is refused.
    fn make(&mut self, call: Call<'_>, is_refused: bool) -> Result<(), Stop> {
        let named = Named {
            first: bits_of(&self.slots, call, 1),
            second: bits_of(&self.slots, call, 2),
            third: bits_of(&self.slots, call, 3),
        };
        let changed = change(call, named, &mut self.list);
        // A `take` tests its indexes after it has allocated. All other tests come before.
        if let Err(Stop::Refused(_) | Stop::TooLong) = changed {
            return changed;
        }
        if is_refused {
            self.may_refuse = false;
            self.give_away(call);
            return Err(OUT_OF_MEMORY);
        }
        changed
    }

    /// Checks that each slot that a line names holds what the kind of the word requires.
    fn check_slots(&self, call: Call<'_>) -> Result<(), Stop> {
        for (kind, place) in call.form.1.iter().zip(1..) {
            let is_left_out = matches!(kind, Kind::Validity) && call.word(place) == "-";
            if !is_left_out && !may_name(*kind, self.holds(call, place)) {
                return Err(BAD_SLOT);
            }
        }
        Ok(())
    }

    /// What the slot that a word names holds. If another word gives away the list of that slot, it
    /// counts as empty.
    fn holds(&self, call: Call<'_>, place: usize) -> Option<Holds> {
        let named = call.number(place);
        let given = call.given().unwrap_or(place);
        if given != place && call.number(given) == named {
            return Some(Holds::Nothing);
        }
        Some(self.slots.get(named)?.holds)
    }

    /// Puts the list of a line where it belongs.
    fn put(&mut self, call: Call<'_>) {
        let first = self.holds(call, 1);
        self.give_away(call);
        let holds = match (call.form.2, first) {
            (Then::Empties, _) => Holds::Nothing,
            (Then::Opens, _) | (Then::Keeps, Some(Holds::Open)) => Holds::Open,
            _ => Holds::Frozen,
        };
        if let Some(slot) = self.slots.get_mut(call.target()) {
            slot.holds = holds;
            mem::swap(&mut slot.bits, &mut self.list);
        }
    }

    /// Empties the slot that gives its list away.
    fn give_away(&mut self, call: Call<'_>) {
        if let Some(place) = call.given()
            && let Some(slot) = self.slots.get_mut(call.number(place))
        {
            slot.holds = Holds::Nothing;
        }
    }
}

/// Adds why a line isn't carried out.
fn add_refused(text: &mut Text, stop: Stop) {
    text.add("refused ");
    match stop {
        Stop::Refused(why) => text.add(why),
        Stop::TooLong => text.add("TooManyBits"),
        Stop::Position(position) => {
            text.add("TakeOutOfRange ");
            text.add_number(position);
        }
        Stop::Memory => text.add("for want of memory here"),
    }
}

/// The list of the slot that a word names, or no bits.
fn bits_of<'a>(slots: &'a [Slot], call: Call<'_>, place: usize) -> &'a [bool] {
    match slots.get(call.number(place)) {
        Some(slot) if !matches!(slot.holds, Holds::Nothing) => &slot.bits,
        _ => &[],
    }
}
