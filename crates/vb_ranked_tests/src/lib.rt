//! Tests of directories of counts: worked rows, the probes and looks of queries, edits and appends
//! compared with a directory made anew, copies, shared sets compared with their views, calls with
//! many ranks compared with single calls, and calls whose requests for memory are refused.
#![tactic(auto)]

#[cfg(test)]
mod appended;
#[cfg(test)]
mod compared;
#[cfg(test)]
mod copied;
#[cfg(test)]
mod costs;
#[cfg(test)]
mod edits;
#[cfg(test)]
mod made;
#[cfg(test)]
mod many;
#[cfg(test)]
mod memory;
#[cfg(test)]
mod refused;
#[cfg(test)]
mod rows;
#[cfg(test)]
mod shared;
