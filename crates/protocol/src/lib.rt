//! The exchange of letters between ranks, as a machine over plain data.
#![tactic(auto)]

mod laws;

pub use laws::{
    asks_exactly, asks_first, branches_first, few_letters_of, few_needs, few_rounds_of, one_state,
    own_fresh, post_deep, post_keeps, quiet_ends, round_deep, round_keeps, rounds_left, same_notes,
    start_holds, step_deepens, step_keeps, take_deep, take_keeps, taken_once, turn_deep,
    turn_keeps,
};
