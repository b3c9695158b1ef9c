//! Tests of keys, records, the kernel, tables, trees and walks, by what these crates offer to all.
#![tactic(auto)]

#[cfg(test)]
mod cells_double;
#[cfg(test)]
mod engines;
#[cfg(test)]
mod kernel;
#[cfg(test)]
mod keys;
#[cfg(test)]
mod lists;
#[cfg(test)]
mod near;
#[cfg(test)]
mod records;
#[cfg(test)]
mod samples;
#[cfg(test)]
mod tables;
#[cfg(test)]
mod top_samples;
#[cfg(test)]
mod tops;
#[cfg(test)]
mod trees;
#[cfg(test)]
mod visit_double;
#[cfg(test)]
mod walks;
#[cfg(test)]
mod wells;
