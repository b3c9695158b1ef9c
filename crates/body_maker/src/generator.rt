// The places that the generator gives.
ghost use Rattle.std.specs.Prelude.{◌≡◌, ◌<◌, ◌^◌};
ghost use Rattle.body_maker.specs.Generator as generator;

use hot_units::{drawn, next_state};

/// The place of a body, in units of a cube of 21 bits.
#[derive(Clone, Copy)]
pub struct Place {
    pub x: u32,
    pub y: u32,
    pub z: u32,
}

/// The place that three draws from a state give, and the state behind these draws.
pub fn draw_place(state: u64) -> (Place, u64)
    ensures place { result.0 ≡ generator.place_from state }
    ensures state { result.1 ≡ generator.state_past state }
    ensures x { result.0.x < 2 ^ 21 }
    ensures y { result.0.y < 2 ^ 21 }
    ensures z { result.0.z < 2 ^ 21 }
{
    let second = next_state(state);
    let third = next_state(second);
    let place = Place {
        x: drawn(state),
        y: drawn(second),
        z: drawn(third),
    };
    (place, next_state(third))
}
