//! Morton keys: the key of a place, the cells that keys name, and the laws of keys that a hashed
//! oct-tree rests on (Warren and Salmon, "A Parallel Hashed Oct-Tree N-Body Algorithm", 1993).
//! Nothing here takes memory.
#![tactic(auto)]

mod boxes;
mod family;
mod key;
mod laws;
mod range;

pub use boxes::corner;
pub use family::{child, parent};
pub use hot_units::{Spread, covers, level};
pub use key::{is_cell, key_of};
pub use laws::{
    bodies_stand_together, body_keys_are_of_places, box_of_a_cell, children_part_a_cell,
    children_share_sums, one_level_each, range_of_a_cell,
};
pub use range::{first_key, last_key};
