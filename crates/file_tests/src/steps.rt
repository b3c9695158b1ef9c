// Steps of the leapfrog by the plain engine.
ghost use Rattle.std.specs.Prelude.{◌≡◌, ◌≤◌, ◌*◌, ◌^◌, length, All, IsTrue, ◌+◌};
ghost use Rattle.hot_units.specs.Limits.{max_body_mass};
ghost use Rattle.hot_units.specs.Bodies.{mass_of};
ghost use Rattle.leap_frog.specs.Leap as leap;
ghost use Rattle.leap_frog.specs.States.{IsWithin, max_speed, vector_of};

use hot_units::{Axis, body_of};
use leap_frog::{State, StepRefused, StepsRefused, steps_undo};
use plain_engine::PlainEngine;
use std::alloc::Global;
use std::process::Abort;

/// One body in a test: x, y, z, mass in fine units, and its velocity.
pub type Row = ([u32; 4], [i128; 3]);

/// Whether a velocity is far within the limit.
fn is_slow(v: &[i128; 3]) -> bool
    ensures { IsTrue result → IsWithin max_speed (vector_of v.now) }
{
    let most = 1 << 80;
    -most < v[0] && v[0] < most && -most < v[1] && v[1] < most && -most < v[2] && v[2] < most
}

fn push(rt: &impl Abort, state: &mut State, row: &Row)
    requires few { length state.old ≤ 10 }
    requires light { mass_of (leap.bodies_of state.old) ≤ length state.old * max_body_mass }
    ensures len { length state.new ≡ length state.old + 1 }
    ensures light { mass_of (leap.bodies_of state.new) ≤ length state.new * max_body_mass }
{
    let (place, v) = row;
    let at = state.len() as u32;
    let body = body_of(place[0], place[1], place[2], place[3], at).expect(rt, "a body");
    assert!(rt; is_slow(v));
    state.push(body, *v).expect(rt, "memory");
}

pub fn state_of(rt: &impl Abort, alloc: Global, rows: &[Row]) -> State
    requires few { length rows.now ≤ 10 }
{
    let mut state = State::new(alloc);
    for row in rows {
        push(rt, &mut state, row);
    }
    state
}

fn engine(rt: &impl Abort) -> PlainEngine {
    PlainEngine::new(0, 1, 1, 8).expect(rt, "the numbers are in range")
}

/// The state has these rows.
fn are(rt: &impl Abort, state: &State, rows: &[Row]) {
    assert_eq!(rt; state.len(), rows.len());
    for (i, (place, v)) in rows.iter().enumerate() {
        let body = state.body(i).expect(rt, "a row");
        assert!(rt; [body.x, body.y, body.z, body.mass] == *place);
        assert!(rt; body.row as usize == i);
        assert!(rt; state.velocity(i) == Some(*v));
    }
    assert!(rt; state.body(rows.len()).is_none());
}

/// Makes a step by the plain engine, of which this comes.
fn step(rt: &impl Abort, alloc: Global, state: &mut State, want: Result<(), StepRefused>) {
    let mut engine = engine(rt);
    assert_eq!(rt; state.step(alloc, &mut engine, &mut ()), want);
}

/// Makes at most ten steps, of which this comes.
fn make_steps(
    rt: &impl Abort,
    alloc: Global,
    state: &mut State,
    count: u32,
    want: Result<(), StepsRefused>,
) {
    assert!(rt; count <= 10);
    let mut engine = engine(rt);
    assert_eq!(rt; state.steps(alloc, &mut engine, &mut (), count), want);
}

/// A step leads from these rows to the others, and back.
fn leads(rt: &impl Abort, alloc: Global, rows: &[Row], moved: &[Row])
    requires few { length rows.now ≤ 10 }
{
    let mut state = state_of(rt, alloc, rows);
    step(rt, alloc, &mut state, Ok(()));
    are(rt, &state, moved);
    state.turn();
    step(rt, alloc, &mut state, Ok(()));
    state.turn();
    are(rt, &state, rows);
}

/// A step of these rows is not made, since this body leaves on this axis.
fn leaves(rt: &impl Abort, alloc: Global, rows: &[Row], row: u32, axis: Axis)
    requires few { length rows.now ≤ 10 }
{
    let mut state = state_of(rt, alloc, rows);
    step(
        rt,
        alloc,
        &mut state,
        Err(StepRefused::Leaves { row, axis }),
    );
    are(rt, &state, rows);
}

/// Two bodies 1024 apart, of mass 1 and 3: the first kick is 3145725 and -1048575, the second, 1022
/// apart, 3158049 and -1052683.
#[test]
fn two_bodies_step_and_back(rt: HostRuntime) {
    let start = [([0, 0, 0, 1], [0; 3]), ([1024, 0, 0, 3], [0; 3])];
    let moved = [
        ([2, 0, 0, 1], [6_303_774, 0, 0]),
        ([1024, 0, 0, 3], [-2_101_258, 0, 0]),
    ];
    leads(&rt, rt.alloc(), &start, &moved);
}

/// At the edges of the cube less than one unit a step stays, and one unit leaves.
#[test]
fn who_leaves(rt: HostRuntime) {
    let alloc = rt.alloc();
    let slow = [([0, 0, 0, 1], [-1_048_575, 0, 0])];
    leads(&rt, alloc, &slow, &slow);
    let fast = [
        ([268_435_456, 7, 7, 1], [0; 3]),
        ([0, 0, 0, 1], [0, -1_048_576, -1_048_576]),
    ];
    leaves(&rt, alloc, &fast, 1, Axis::Y);
    let slow = [([7, 7, 536_870_911, 1], [0, 0, 1_048_575])];
    leads(&rt, alloc, &slow, &slow);
    let fast = [([7, 7, 536_870_911, 1], [0, 0, 1_048_576])];
    leaves(&rt, alloc, &fast, 0, Axis::Z);
}

/// Bodies without a neighbour go on as they are: 3 and -2 fine units a step.
#[test]
fn some_steps_and_back(rt: HostRuntime) {
    let alloc = rt.alloc();
    let start = [([100, 200, 0, 1], [3_145_728, -2_097_152, 0])];
    let moved = [([106, 196, 0, 1], [3_145_728, -2_097_152, 0])];
    let mut state = state_of(&rt, alloc, &start);
    make_steps(&rt, alloc, &mut state, 0, Ok(()));
    are(&rt, &state, &start);
    make_steps(&rt, alloc, &mut state, 2, Ok(()));
    are(&rt, &state, &moved);
    state.turn();
    make_steps(&rt, alloc, &mut state, 2, Ok(()));
    state.turn();
    are(&rt, &state, &start);
    steps_undo();
}

/// Four fine units a step from ten below the edge: the third step is not made.
#[test]
fn the_third_step_leaves(rt: HostRuntime) {
    let start = [([536_870_902, 7, 7, 1], [4_194_304, 0, 0])];
    let last = [([536_870_910, 7, 7, 1], [4_194_304, 0, 0])];
    let third = StepsRefused::Leaves {
        number: 3,
        row: 0,
        axis: Axis::X,
    };
    let mut state = state_of(&rt, rt.alloc(), &start);
    make_steps(&rt, rt.alloc(), &mut state, 5, Err(third));
    are(&rt, &state, &last);
}
