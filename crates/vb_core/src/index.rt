// Written in part by tools/write-lists from tools/families/elements.txt.
//! Whole numbers as indices of bits.
ghost use Rattle.std.specs.Prelude.{◌≡◌, ℤ, pos};
ghost use Rattle.vb_core.specs.Indices.{place_of};

/// A whole number that can serve as an index. The twelve whole-number types implement it.
pub trait BitIndex: Copy {
    // The value as an integer.
    ghost number: { Self → ℤ };

    /// Returns the index as a `usize`, or `None` exactly if the number is below 0 or above
    /// `usize::MAX`.
    fn place(self) -> Option<usize>
        ensures { result ≡ place_of (number self) };
}

impl BitIndex for u8 {
    ghost number = { pos };

    fn place(self) -> Option<usize> {
        usize::from(self).place()
    }
}

impl BitIndex for u16 {
    ghost number = { pos };

    fn place(self) -> Option<usize> {
        usize::from(self).place()
    }
}

impl BitIndex for u32 {
    ghost number = { pos };

    fn place(self) -> Option<usize> {
        u64::from(self).place()
    }
}

impl BitIndex for u64 {
    ghost number = { pos };

    fn place(self) -> Option<usize> {
        (self as usize).place()
    }
}

impl BitIndex for u128 {
    ghost number = { pos };

    fn place(self) -> Option<usize> {
        u64::try_from(self).ok()?.place()
    }
}

impl BitIndex for usize {
    ghost number = { pos };

    fn place(self) -> Option<usize> {
        Some(self)
    }
}

impl BitIndex for i8 {
    ghost number = { λ index. index };

    fn place(self) -> Option<usize> {
        i64::from(self).place()
    }
}

impl BitIndex for i16 {
    ghost number = { λ index. index };

    fn place(self) -> Option<usize> {
        i64::from(self).place()
    }
}

impl BitIndex for i32 {
    ghost number = { λ index. index };

    fn place(self) -> Option<usize> {
        i64::from(self).place()
    }
}

impl BitIndex for i64 {
    ghost number = { λ index. index };

    fn place(self) -> Option<usize> {
        usize::try_from(self).ok()
    }
}

impl BitIndex for i128 {
    ghost number = { λ index. index };

    fn place(self) -> Option<usize> {
        u128::try_from(self).ok()?.place()
    }
}

impl BitIndex for isize {
    ghost number = { λ index. index };

    fn place(self) -> Option<usize> {
        (self as i64).place()
    }
}
