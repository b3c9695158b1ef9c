// The generator of draws: a linear congruence modulo 2^64, after Knuth (MMIX).
ghost use Rattle.std.specs.Prelude.{◌≡◌, ◌<◌, ◌^◌};
ghost use Rattle.hot_units.specs.Draws as draws;

const FACTOR: u64 = 6_364_136_223_846_793_005;

const STEP: u64 = 1_442_695_040_888_963_407;

/// The state after one draw: one step of the linear congruential generator of Knuth's MMIX, modulo
/// 2^64.
pub fn next_state(state: u64) -> u64
    ensures state { result ≡ draws.next_state state }
{
    state.wrapping_mul(FACTOR).wrapping_add(STEP)
}

/// The number that a draw from this state gives: the top 21 bits of the state after it. So it is
/// below 2^21.
pub fn drawn(state: u64) -> u32
    ensures value { result ≡ draws.drawn state }
    ensures small { result < 2 ^ 21 }
{
    (next_state(state) >> 43) as u32
}
