//! Tests of the crate that users depend on: worked rows, and calls whose requests for memory are
//! refused. Besides `vb_testing`, they name no other crate of the library.
#![tactic(auto)]

#[cfg(test)]
mod compared;
#[cfg(test)]
mod compares;
pub mod counted;
pub mod feeds;
#[cfg(test)]
mod heaps;
#[cfg(test)]
mod made;
pub mod reached;
#[cfg(test)]
mod readme;
#[cfg(test)]
mod rows;
