//! Tests of shared sets of bits: calls whose requests for memory are refused, what calls allocate,
//! and from which of two allocators; walks over sets, their equality, copies and text; operators,
//! as worked rows and each call compared with a plain loop over its bits.

mod calls;
mod compared;
mod costs;
mod heaps;
mod made;
mod makers;
mod operator_costs;
mod plain;
mod printed;
mod refused;
mod relation;
mod rows;
mod walks;
