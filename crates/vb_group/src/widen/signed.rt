// Written in part by tools/write-lists from tools/families/groups.txt.
//! The signed whole numbers of at most 64 bits as terms of sums of 64 bits.
use crate::widen::Widen;

impl Widen for i8 {
    type Wide = i64;

    #[inline(always)]
    fn widened(self) -> i64 {
        self.into()
    }
}

impl Widen for i16 {
    type Wide = i64;

    #[inline(always)]
    fn widened(self) -> i64 {
        self.into()
    }
}

impl Widen for i32 {
    type Wide = i64;

    #[inline(always)]
    fn widened(self) -> i64 {
        self.into()
    }
}

impl Widen for i64 {
    type Wide = i64;

    #[inline(always)]
    fn widened(self) -> i64 {
        self
    }
}

impl Widen for isize {
    type Wide = i64;

    #[inline(always)]
    fn widened(self) -> i64 {
        self as i64
    }
}
