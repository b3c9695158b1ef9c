//! The definitions and lemmas of ranks: what each has, needs and owes of one tree over all bodies.
#![tactic(auto)]

mod part;

pub use part::Part;
