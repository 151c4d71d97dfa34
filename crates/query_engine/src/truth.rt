//! Truth values of rows, which may be null.
use crate::failures::made;
use query_csv::{Failure, Result};
use std::alloc::Global;
use std::cmp::Ordering;
use vortex_buffer::{BitBuffer, Comparison, try_and_kleene, try_or_kleene};

/// A truth value per row, by SQL's three-valued logic.
#[derive(Drop)]
pub struct Truth {
    /// Which rows are true. The bits of null rows are arbitrary.
    pub trues: BitBuffer,
    /// Which rows aren't null.
    pub valid: BitBuffer,
}

/// How two truth values are joined.
#[derive(Clone, Copy, PartialEq, Eq)]
pub enum Joint {
    /// Both of them.
    And,
    /// One of them, or both.
    Or,
}

impl Truth {
    /// Returns the rows that are true.
    pub fn kept(self, alloc: Global) -> Result<BitBuffer> {
        let Truth { trues, valid } = self;
        let kept = trues & &valid;
        drop(valid);
        made(alloc, kept)
    }

    /// Returns `not self`.
    pub fn not(self, alloc: Global) -> Result<Truth> {
        let Truth { trues, valid } = self;
        let Ok(falses) = !trues else {
            drop(valid);
            return Err(Failure::Memory);
        };
        Ok(Truth {
            trues: falses,
            valid,
        })
    }

    /// Returns both joined: `self and other`, or `self or other`.
    pub fn joined(self, alloc: Global, joint: Joint, other: Truth) -> Result<Truth> {
        let (left, left_valid) = (self.trues.as_view(), Some(self.valid.as_view()));
        let (right, right_valid) = (other.trues.as_view(), Some(other.valid.as_view()));
        let joined = match joint {
            Joint::And => try_and_kleene(alloc, left, left_valid, right, right_valid),
            Joint::Or => try_or_kleene(alloc, left, left_valid, right, right_valid),
        };
        drop((self, other));
        let (trues, valid) = made(alloc, joined)?;
        Ok(Truth { trues, valid })
    }
}

/// Returns whether a comparison holds between values in this order.
pub fn holds(comparison: Comparison, order: Ordering) -> bool {
    match comparison {
        Comparison::Equal => order == Ordering::Equal,
        Comparison::NotEqual => order != Ordering::Equal,
        Comparison::Less => order == Ordering::Less,
        Comparison::LessOrEqual => order != Ordering::Greater,
        Comparison::Greater => order == Ordering::Greater,
        Comparison::GreaterOrEqual => order != Ordering::Less,
    }
}

/// Returns the comparison with its sides swapped.
pub fn swapped(comparison: Comparison) -> Comparison {
    match comparison {
        Comparison::Equal | Comparison::NotEqual => comparison,
        Comparison::Less => Comparison::Greater,
        Comparison::LessOrEqual => Comparison::GreaterOrEqual,
        Comparison::Greater => Comparison::Less,
        Comparison::GreaterOrEqual => Comparison::LessOrEqual,
    }
}
