//! A count that contracts can name and that doesn't exist at run time.
//!
//! A type that must account for how often it did something, such as a source of bytes that counts
//! its reads, keeps a [`GhostCount`] and calls [`GhostCount::add_one`] each time. Its contracts
//! then state the exact number, at no cost at run time. Nothing ties the number to real events: it
//! restricts only code that is generic over a trait whose contracts state how each call changes the
//! count.
ghost use Rattle.std.specs.Prelude.{◌≡◌, ℕ, ◌+◌};
ghost use Rattle.std.specs.Borrow.{ftrue};

use std::marker::Model;

/// A number that only contracts see. It has no bytes, and its calls compile to no instruction.
#[derive(Drop)]
pub struct GhostCount {
    pub ghost count: { ℕ },
}

impl Model for GhostCount {
    // The count isn't in memory, so the value owns none.
    ghost also_owns = { λ _. ftrue };
}

impl GhostCount {
    /// Returns a count of 0.
    pub fn zero() -> GhostCount
        ensures { result.count ≡ 0 }
    {
        GhostCount {}
    }

    /// Raises the count by 1.
    pub fn add_one(&mut self)
        ensures { self.new.count ≡ self.old.count + 1 }
    {}
}
