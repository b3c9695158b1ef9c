ghost use Rattle.std.specs.Prelude.{◌≡◌, ◌<◌, ◌≤◌, ◌+◌, ◌∷◌, ◌++◌, [], length, map, MatchResult};
ghost use Rattle.std.specs.Prelude.{MatchOption, Option, slice_get, All};
ghost use Rattle.std.specs.Option.{option_copied};
ghost use Rattle.hot_units.specs.Limits.{max_bodies, max_all_mass};
ghost use Rattle.hot_units.specs.Values.{components};
ghost use Rattle.hot_units.specs.Bodies.{mass_of, IsBody};
ghost use Rattle.leap_frog.specs.Leap as leap;
ghost use Rattle.leap_frog.specs.States.{IsState, IsWithin, max_speed, vector_of, moving};

use crate::velocity::Velocity;
use hot_units::Body;
use std::alloc::{AllocError, Global};
use std::marker::Model;

/// Bodies on their way, in the order of their rows: at most 1,048,576, of a mass of at most
/// 2^40 together. Velocities are in units of 2^-20 of fine length a step, each component at most
/// 2^81 in size. Clauses see the list of bodies with their velocities.
#[derive(Drop)]
pub struct State {
    pub(crate) bodies: Vec<Body>,
    pub(crate) velocities: Vec<Velocity>,
}

impl Model for State {
    ghost use Rattle.std.specs.Prelude.{List};
    ghost use Rattle.leap_frog.specs.Leap.{Moving};
    ghost use Rattle.leap_frog.specs.States.{IsState, moving};

    ghost Value = { List Moving };

    ghost view = { λ s. moving s.bodies.items s.velocities.items };

    ghost invariant = { λ s. IsState s.bodies.items s.velocities.items };
}

impl State {
    /// The state without bodies. It takes no memory.
    #[tactic(auto, using(crate::proofs::States::on_states))]
    pub fn new(alloc: Global) -> State
        ensures empty { result ≡ [] }
    {
        State {
            bodies: Vec::new(alloc),
            velocities: Vec::new(alloc),
        }
    }

    /// Adds a body at the end, with the components x, y, z of its velocity in units of 2^-20 of
    /// fine length a step, each at most 2^81 in size. Its row is the length so far, which is below
    /// 1,048,576; the mass of all bodies stays at most 2^40. A refusal is want of memory and leaves
    /// the state unchanged.
    #[tactic(auto, using(crate::proofs::States::on_states))]
    pub fn push(&mut self, body: Body, v: [i128; 3]) -> Result<(), AllocError>
        requires row { body.row ≡ length self.old }
        requires few { length self.old < max_bodies }
        requires light { mass_of (leap.bodies_of self.old) + body.mass ≤ max_all_mass }
        requires slow { IsWithin max_speed (vector_of v) }
        ensures pushed { MatchResult result
            (λ _. self.new ≡ self.old ++ record { body = body; velocity = vector_of v } ∷ [])
            (λ _. self.new ≡ self.old) }
    {
        facts(&body);
        append(
            &mut self.bodies,
            &mut self.velocities,
            body,
            Velocity::of(v),
        )
    }

    /// How many bodies there are. It takes no memory.
    #[tactic(auto, using(crate::proofs::States::on_states))]
    pub fn len(&self) -> usize
        ensures value { result ≡ length self.now }
        ensures few { result ≤ max_bodies }
    {
        self.bodies.len()
    }

    /// The body of a row; None exactly past the last. It takes no memory.
    #[tactic(auto, using(crate::proofs::States::on_states))]
    pub fn body(&self, i: usize) -> Option<&Body>
        ensures value { option_copied result ≡ slice_get (leap.bodies_of self.now) i }
    {
        body_at(&self.bodies, i)
    }

    /// The components x, y, z of the velocity of a row, in units of 2^-20 of fine length a step;
    /// None exactly past the last. It takes no memory.
    #[tactic(auto, using(crate::proofs::States::on_states))]
    pub fn velocity(&self, i: usize) -> Option<[i128; 3]>
        ensures value { result ≡ slice_get (map (λ m. components m.velocity) self.now) i }
    {
        velocity_at(&self.velocities, i)
    }

    /// The bodies of every state are in the cube.
    pub(crate) fn facts(&self)
        ensures placed { All leap.IsPlaced self.now }
    {
        let _few = self.bodies.len();
    }

    /// Negates all velocities, so that steps lead back. It takes no memory.
    #[tactic(auto, using(crate::proofs::States::on_states))]
    pub fn turn(&mut self)
        ensures value { self.new ≡ leap.turned self.old }
    {
        turn_all(&mut self.velocities);
    }
}

/// What every body keeps.
fn facts(body: &Body)
    ensures { IsBody body.now }
{
    let _x = body.x;
}

/// Adds one element to each of two lists, or to none.
fn append(
    bodies: &mut Vec<Body>,
    velocities: &mut Vec<Velocity>,
    body: Body,
    velocity: Velocity,
) -> Result<(), AllocError>
    ensures bodies { MatchResult result (λ _. bodies.new.items ≡ bodies.old.items ++ body ∷ [])
        (λ _. bodies.new.items ≡ bodies.old.items) }
    ensures velocities { MatchResult result
        (λ _. velocities.new.items ≡ velocities.old.items ++ velocity ∷ [])
        (λ _. velocities.new.items ≡ velocities.old.items) }
{
    bodies.reserve(1)?;
    velocities.reserve(1)?;
    bodies.push(body).unwrap();
    velocities.push(velocity).unwrap();
    Ok(())
}

/// The body at a place.
fn body_at(bodies: &Vec<Body>, i: usize) -> Option<&Body>
    ensures { option_copied result ≡ slice_get bodies.now.items i }
{
    bodies.get(i)
}

/// The components of the velocity at a place.
fn velocity_at(velocities: &Vec<Velocity>, i: usize) -> Option<[i128; 3]>
    ensures { result ≡ slice_get (map components velocities.now.items) i }
{
    if i < velocities.len() {
        Some(velocities[i].components())
    } else {
        None
    }
}

/// Negates all velocities of a list.
fn turn_all(velocities: &mut [Velocity])
    requires { All (IsWithin max_speed) velocities.old }
    ensures value { velocities.new ≡ map leap.opposite velocities.old }
{
    for v in velocities.iter_mut() {
        *v = v.opposite();
    }
}
