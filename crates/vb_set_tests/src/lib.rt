//! Tests of sets of bits that are made, shared, edited and queried: worked rows, results compared
//! with those of the kernels, edits and appended bits compared with those of plain lists; truth
//! values that are packed, and closures that are called; what calls allocate, and by which of two
//! allocators; what a refused request for memory leaves; and how far calls poll an iterator, or
//! call a closure, if memory is refused or there is an error: they lose no later item. `buffer` has
//! the tests of shared sets.
#![tactic(auto)]

pub mod alternate;
#[cfg(test)]
mod appended;
#[cfg(test)]
mod appender;
#[cfg(test)]
mod buffer;
#[cfg(test)]
mod called;
#[cfg(test)]
mod callers;
#[cfg(test)]
mod changes;
#[cfg(test)]
mod collected;
#[cfg(test)]
mod compared;
#[cfg(test)]
mod costs;
#[cfg(test)]
mod edit_rows;
#[cfg(test)]
mod edits;
#[cfg(test)]
mod heaps;
#[cfg(test)]
mod made;
#[cfg(test)]
mod makers;
#[cfg(test)]
mod pack_kernels;
#[cfg(test)]
mod pack_memory;
#[cfg(test)]
mod pack_sets;
#[cfg(test)]
mod patterns;
#[cfg(test)]
mod polled_buffers;
#[cfg(test)]
mod polled_sets;
#[cfg(test)]
mod relation;
#[cfg(test)]
mod room;
#[cfg(test)]
mod rows;
#[cfg(test)]
mod tallies;
pub mod watched;
