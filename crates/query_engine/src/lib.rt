//! The second pass over a file: the rows of a batch that a condition selects, and their aggregates.
//!
//! A [`Batch`] holds the columns that are used. A [`RowFilter`] returns a bitmap of its rows: each
//! comparison is a bitmap, and `and`, `or` and `not` join bitmaps by SQL's three-valued logic. A
//! [`Summary`] takes the batch and the bitmap.
#![tactic(auto)]

mod batch;
mod column;
mod failures;
mod filter;
mod near;
mod resolve;
mod summary;
mod total;
mod truth;

pub use batch::Batch;
pub use column::Column;
pub use failures::made;
pub use filter::RowFilter;
pub use summary::Summary;
