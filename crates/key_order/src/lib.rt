//! Bodies in key order (Morton order, after Warren and Salmon, 1993), with the idents and the work
//! weights of their rows.
#![tactic(auto)]

mod ordered;

pub use ordered::{Ordered, in_key_order};
