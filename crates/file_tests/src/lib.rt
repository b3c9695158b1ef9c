//! Tests of the crates that read words and files, hold and cut bodies, and write what is told.
#![tactic(auto)]

#[cfg(test)]
mod bodies;
#[cfg(test)]
mod energies;
#[cfg(test)]
mod files;
#[cfg(test)]
mod forces;
#[cfg(test)]
mod headers;
#[cfg(test)]
mod layouts;
#[cfg(test)]
mod lists;
#[cfg(test)]
mod made;
#[cfg(test)]
mod neighbours;
#[cfg(test)]
mod plain;
#[cfg(test)]
mod reports;
#[cfg(test)]
mod rows;
#[cfg(test)]
mod samples;
#[cfg(test)]
mod splits;
#[cfg(test)]
mod states;
#[cfg(test)]
mod steps;
#[cfg(test)]
mod tables;
#[cfg(test)]
mod words;
#[cfg(test)]
mod worlds;
