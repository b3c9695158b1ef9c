ghost use Rattle.std.specs.Prelude.{◌≡◌, ◌∷◌, [], length, flat_map, All, MatchOption, IfNone};
ghost use Rattle.std.specs.Prelude.{IsTrue, Some, slice_get};
ghost use Rattle.leap_frog.specs.States.{vector_of};
ghost use Rattle.state_file.specs.Texts.{IsWritable};
ghost use Rattle.state_file.specs.Commands.{is_signed, past_63};

use hot_units::{Axis, Body};
use leap_frog::State;

/// A velocity in a file has so many bits beside its sign.
const FILE_BITS: u32 = 63;

/// Whether a number fits 8 signed bytes.
fn fits(n: i128) -> bool
    ensures { result ≡ is_signed n }
{
    let edge = 1 << FILE_BITS;
    -edge <= n && n < edge
}

/// The first axis on which the velocity of a body is past 63 bits.
fn past_axis(body: &Body, v: &[i128; 3]) -> Option<Axis>
    ensures first { MatchOption result
        (past_63 (record { body = body.now; velocity = vector_of v.now }) ≡ [])
        (λ axis. slice_get (past_63 (record { body = body.now; velocity = vector_of v.now })) 0
        ≡ Some (record { row = body.now.row; axis = axis })) }
{
    if !fits(v[0]) {
        return Some(Axis::X);
    }
    if !fits(v[1]) {
        return Some(Axis::Y);
    }
    if !fits(v[2]) {
        return Some(Axis::Z);
    }
    None
}

/// The row of the first body whose velocity has a component outside -2^63 to 2^63 - 1, and the
/// first such axis; None exactly where every velocity can be written. It takes no memory.
pub fn past_range(state: &State) -> Option<(u32, Axis)>
    ensures first { MatchOption result
        (flat_map past_63 state.now ≡ [])
        (λ p. slice_get (flat_map past_63 state.now) 0 ≡ Some (record { row = p.0; axis = p.1 })) }
    ensures writable { IfNone result (All IsWritable state.now) }
{
    for i in 0..state.len() {
        let body = state.body(i).unwrap();
        let v = state.velocity(i).unwrap();
        match past_axis(body, &v) {
            Some(axis) => return Some((body.row, axis)),
            None => {}
        }
    }
    None
}
