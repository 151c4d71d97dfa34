//! Tests of the kernels, compared with plain loops over single bits and values, at many offsets and
//! lengths: counts, selects, searches, copies and combinations; walks and views; comparisons of
//! whole numbers and of floats; sums and extremes under a mask, counts and sums by group; unpacked
//! bits and scattered values. Also tests of what all crates share: errors, alignments, elements,
//! indices and iterators of known length.
#![tactic(auto)]

#[cfg(test)]
mod aggregates;
#[cfg(test)]
mod alignments;
#[cfg(test)]
mod bits;
#[cfg(test)]
mod clones;
#[cfg(test)]
mod combined;
#[cfg(test)]
mod compared;
#[cfg(test)]
mod counts;
#[cfg(test)]
mod edits;
#[cfg(test)]
mod elements;
#[cfg(test)]
mod ends;
#[cfg(test)]
mod errors;
#[cfg(test)]
mod expanded;
#[cfg(test)]
mod float_sums;
#[cfg(test)]
mod float_values;
#[cfg(test)]
mod floats;
#[cfg(test)]
mod ghost_counts;
#[cfg(test)]
mod groups;
#[cfg(test)]
mod indices;
#[cfg(test)]
mod kept_loop;
#[cfg(test)]
mod looks;
#[cfg(test)]
mod nearest;
#[cfg(test)]
mod plain;
#[cfg(test)]
mod plain_loop;
#[cfg(test)]
mod relation;
#[cfg(test)]
mod sample;
#[cfg(test)]
mod selects;
#[cfg(test)]
mod stops;
#[cfg(test)]
mod terms;
#[cfg(test)]
mod trusted_lengths;
#[cfg(test)]
mod values;
#[cfg(test)]
mod views;
#[cfg(test)]
mod walks;
#[cfg(test)]
mod windows;
#[cfg(test)]
mod words;
#[cfg(test)]
mod written;
