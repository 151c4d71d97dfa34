//! Tests of list buffers: how they are made, grow and share their storage; what is read of them, by
//! iterators, comparisons and bytes; their offsets and alignments; each request for memory refused
//! in turn, what a refused one leaves, what calls allocate, and from which of two allocators.
#![tactic(auto)]

#[cfg(test)]
mod asked;
#[cfg(test)]
mod byte_form;
#[cfg(test)]
mod callers;
#[cfg(test)]
mod changes;
#[cfg(test)]
mod compared;
#[cfg(test)]
mod costs;
#[cfg(test)]
mod declared;
#[cfg(test)]
mod growth;
#[cfg(test)]
mod items;
#[cfg(test)]
mod iterators;
#[cfg(test)]
mod makers;
#[cfg(test)]
mod places;
#[cfg(test)]
mod refused;
#[cfg(test)]
mod sharing;
