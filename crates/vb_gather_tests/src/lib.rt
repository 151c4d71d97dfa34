//! Tests of values and bits filtered by masks and of bits deposited by them, compared with a plain
//! loop for each kind of mask and for lengths that differ; of values and bits taken at indices, of
//! sets made from indices and of sets added to sets, of comparisons, and of three-valued logic;
//! with each request for memory refused, and with the number of requests and their bytes. Also
//! tests of elements so large that 64 of them don't fit on a stack.
#![tactic(auto)]

#[cfg(test)]
mod appended;
#[cfg(test)]
mod bits;
#[cfg(test)]
mod blocks;
#[cfg(test)]
mod buffers;
#[cfg(test)]
mod compared;
#[cfg(test)]
mod comparisons;
#[cfg(test)]
mod deposits;
#[cfg(test)]
mod filters;
#[cfg(test)]
mod frames;
#[cfg(test)]
mod given;
#[cfg(test)]
mod kleene;
#[cfg(test)]
mod kleene_costs;
#[cfg(test)]
mod kleene_windows;
#[cfg(test)]
mod lengths;
#[cfg(test)]
mod made;
#[cfg(test)]
mod makers;
#[cfg(test)]
mod masks;
#[cfg(test)]
mod memory;
#[cfg(test)]
mod orders;
#[cfg(test)]
mod places;
#[cfg(test)]
mod rows;
#[cfg(test)]
mod sets;
#[cfg(test)]
mod taken_blocks;
#[cfg(test)]
mod takes;
#[cfg(test)]
mod values;
pub mod wide;
#[cfg(test)]
mod windows;
