//! The calls, as data, each with what it makes of two bits, or of one.
use std::alloc::Allocator;
use vb_bit_buffer::BitBuffer;
use vb_core::Result;

/// What a call makes of two bits.
#[derive(Clone, Copy)]
pub(crate) enum Operator {
    And,
    Or,
    Xor,
    AndNot,
}

impl Operator {
    fn of_owned<A: Allocator + Clone>(
        self,
        left: BitBuffer<A>,
        right: &BitBuffer<A>,
    ) -> Result<BitBuffer<A>> {
        match self {
            Operator::And => left & right,
            Operator::Or => left | right,
            Operator::Xor => left ^ right,
            Operator::AndNot => left.into_bitand_not(right),
        }
    }

    pub(crate) fn of_lent<A: Allocator + Clone>(
        self,
        left: &BitBuffer<A>,
        right: &BitBuffer<A>,
    ) -> Result<BitBuffer<A>> {
        match self {
            Operator::And => left & right,
            Operator::Or => left | right,
            Operator::Xor => left ^ right,
            Operator::AndNot => left.bitand_not(right),
        }
    }

    fn bit(self, left: bool, right: bool) -> bool {
        match self {
            Operator::And => left & right,
            Operator::Or => left | right,
            Operator::Xor => left ^ right,
            Operator::AndNot => left & !right,
        }
    }
}

/// A call that combines two sets. The right value is lent where the name doesn't say that it is
/// owned.
#[derive(Clone, Copy)]
pub(crate) enum Two {
    Owned(Operator),
    Lent(Operator),
    AndBothOwned,
    OrBothOwned,
    AndLentOwned,
}

/// The calls whose left value is lent.
pub(crate) const LENT: &[Two] = &[
    Two::Lent(Operator::And),
    Two::Lent(Operator::Or),
    Two::Lent(Operator::Xor),
    Two::Lent(Operator::AndNot),
    Two::AndLentOwned,
];

/// The calls whose left value is owned.
pub(crate) const OWNED: &[Two] = &[
    Two::Owned(Operator::And),
    Two::Owned(Operator::Or),
    Two::Owned(Operator::Xor),
    Two::Owned(Operator::AndNot),
    Two::AndBothOwned,
    Two::OrBothOwned,
];

impl Two {
    pub(crate) fn make<A: Allocator + Clone>(
        self,
        left: BitBuffer<A>,
        right: BitBuffer<A>,
    ) -> Result<BitBuffer<A>> {
        match self {
            Two::Owned(operator) => {
                let made = operator.of_owned(left, &right);
                drop(right);
                made
            }
            Two::Lent(operator) => {
                let made = operator.of_lent(&left, &right);
                drop((left, right));
                made
            }
            Two::AndLentOwned => {
                let made = &left & right;
                drop(left);
                made
            }
            Two::AndBothOwned => left & right,
            Two::OrBothOwned => left | right,
        }
    }

    /// Combines sets that were made. Returns an error of one of them.
    pub(crate) fn of_made<A: Allocator + Clone>(
        self,
        left: Result<BitBuffer<A>>,
        right: Result<BitBuffer<A>>,
    ) -> Result<BitBuffer<A>> {
        let left = match left {
            Ok(left) => left,
            Err(error) => {
                drop(right);
                return Err(error);
            }
        };
        let right = match right {
            Ok(right) => right,
            Err(error) => {
                drop(left);
                return Err(error);
            }
        };
        self.make(left, right)
    }

    /// What it makes of two bits.
    pub(crate) fn bit(self, left: bool, right: bool) -> bool {
        let operator = match self {
            Two::Owned(operator) | Two::Lent(operator) => operator,
            Two::AndBothOwned | Two::AndLentOwned => Operator::And,
            Two::OrBothOwned => Operator::Or,
        };
        operator.bit(left, right)
    }
}

/// A call that makes a set of one.
#[derive(Clone, Copy)]
pub(crate) enum One {
    Not,
    NotLent,
    Sliced,
    ShrinkOffset,
}

pub(crate) const ONE: &[One] = &[One::Not, One::NotLent, One::Sliced, One::ShrinkOffset];

impl One {
    /// Makes a set of one that was made. Returns an error of that one.
    pub(crate) fn make<A: Allocator + Clone>(
        self,
        set: Result<BitBuffer<A>>,
    ) -> Result<BitBuffer<A>> {
        let set = set?;
        let made = match self {
            One::Not => return !set,
            One::ShrinkOffset => return Ok(set.shrink_offset()),
            One::NotLent => !&set,
            One::Sliced => set.sliced(),
        };
        drop(set);
        made
    }

    /// What it makes of a bit.
    pub(crate) fn bit(self, bit: bool) -> bool {
        match self {
            One::Not | One::NotLent => !bit,
            One::Sliced | One::ShrinkOffset => bit,
        }
    }
}
