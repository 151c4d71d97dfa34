//! The content of a slot.
ghost use Rattle.std.specs.Prelude.{◌≡◌, MatchOption};
ghost use Rattle.std.specs.Borrow.{LendsIf, sem};
ghost use Rattle.std.specs.Option.{option_copied_mut, option_map};
ghost use Rattle.vb_command.specs.Machine.{open_list, frozen_list};
ghost use Rattle.vb_pool.specs.contracts.open_bits.OpenBits.{the_row as open_row};
ghost use Rattle.vb_pool.specs.contracts.slot.Slot.{the_row};
ghost use Rattle.vb_set.specs.Makes.{Makes};

use crate::open_bits::OpenBits;
use std::alloc::Allocator;
use std::mem;
use vb_set::{BitBuffer, Result};

/// A slot of the pool.
#[derive(Drop)]
pub enum Slot<A: Allocator + Clone> {
    /// No set.
    Empty,
    /// A set that commands may edit.
    Open(OpenBits<A>),
    /// A set whose storage may be shared.
    Frozen(BitBuffer<A>),
}

impl<A: Allocator + Clone> Slot<A> {
    ghost use Rattle.vb_pool.specs.Slot.{content};
    ghost use Rattle.vb_pool.specs.declared.slot.Slot.TheVariants.{Empty, Open};

    /// Returns a copy of the slot. Copies the bits of an open set; a frozen set shares its storage.
    /// Returns `OutOfMemory` if memory runs out.
    pub fn clone(&self) -> Result<Self>
        ensures { Makes (λ slot. content slot ≡ content self.now) result }
    {
        Ok(match self {
            Slot::Empty => Slot::Empty,
            Slot::Open(set) => Slot::Open(set.clone()?),
            Slot::Frozen(set) => Slot::Frozen(set.clone()?),
        })
    }

    /// Lends the open set for edits, if there is one.
    pub fn open_mut(&mut self) -> Option<&mut OpenBits<A>>
        ensures* writes_back { sem 𝓛 (LendsIf
            (the_row A.row A.Allocator A.Clone) (open_row A.row A.Allocator A.Clone)
            self.entry result Open self.old) }
        ensures value { option_copied_mut result ≡ open_list (content self.old) }
    {
        match self {
            Slot::Open(set) => Some(set),
            _ => None,
        }
    }

    /// Takes the open set and leaves the slot empty. If there is no open set, nothing changes.
    pub fn take_open(&mut self) -> Option<OpenBits<A>>
        ensures taken { result ≡ open_list (content self.old) }
        ensures left { MatchOption result (self.new ≡ self.old) (λ _. self.new ≡ Empty) }
    {
        match mem::replace(self, Slot::Empty) {
            Slot::Open(set) => Some(set),
            other => {
                *self = other;
                None
            }
        }
    }

    /// Takes the frozen set and leaves the slot empty. If there is no frozen set, nothing changes.
    pub fn take_frozen(&mut self) -> Option<BitBuffer<A>>
        ensures taken { option_map (λ set. set.bits) result ≡ frozen_list (content self.old) }
        ensures left { MatchOption result (self.new ≡ self.old) (λ _. self.new ≡ Empty) }
    {
        match mem::replace(self, Slot::Empty) {
            Slot::Frozen(set) => Some(set),
            other => {
                *self = other;
                None
            }
        }
    }
}
