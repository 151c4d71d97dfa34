//! Drawings of the kept rows: a [`Strip`] of them, the [`Histogram`] of a column, the [`Report`]
//! that has both as text, and a [`Picture`] of both as SVG.
#![tactic(auto)]

mod edges;
mod histogram;
mod picture;
mod report;
mod strip;
mod texts;

pub use histogram::Histogram;
pub use picture::Picture;
pub use report::{Report, Row};
pub use strip::Strip;
