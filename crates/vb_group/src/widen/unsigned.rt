// Written in part by tools/write-lists from tools/families/groups.txt.
//! The unsigned whole numbers of at most 64 bits as terms of sums of 64 bits.
use crate::widen::Widen;

impl Widen for u8 {
    type Wide = u64;

    #[inline(always)]
    fn widened(self) -> u64 {
        self.into()
    }
}

impl Widen for u16 {
    type Wide = u64;

    #[inline(always)]
    fn widened(self) -> u64 {
        self.into()
    }
}

impl Widen for u32 {
    type Wide = u64;

    #[inline(always)]
    fn widened(self) -> u64 {
        self.into()
    }
}

impl Widen for u64 {
    type Wide = u64;

    #[inline(always)]
    fn widened(self) -> u64 {
        self
    }
}

impl Widen for usize {
    type Wide = u64;

    #[inline(always)]
    fn widened(self) -> u64 {
        self as u64
    }
}
