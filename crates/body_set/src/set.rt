ghost use Rattle.std.specs.Prelude.{◌≡◌, ◌≤◌, ◌<◌, ◌∷◌, ◌++◌, [], length, map, IsOkAnd, IsOkUnless};
ghost use Rattle.std.specs.Prelude.{OnOk, OnErr, MatchOption, MatchResult, slice_get};
ghost use Rattle.hot_units.specs.Limits.{max_bodies};
ghost use Rattle.hot_units.specs.Values.{components};
ghost use Rattle.body_set.specs.Rows.{first_fault};
ghost use Rattle.body_set.specs.Sets as sets;

use crate::PushError;
use crate::row::read_row;
use crate::velocities::Velocities;
use crate::velocity::Velocity;
use hot_units::{Body, Cube, RawRow};
use key_order::{Ordered, in_key_order};
use std::alloc::{AllocError, Global};
use std::marker::Model;
use std::mem;

/// The bodies of body files in file order, with the ident, the work weight and the velocity of each
/// row: 52 bytes a body, and 48 more for each up to the last whose velocity is not 0. So velocities
/// that are all 0 take no memory. Clauses see the cube and four lists.
#[derive(Drop)]
pub struct BodySet {
    cube: Cube,
    bodies: Vec<Body>,
    idents: Vec<i128>,
    weights: Vec<u32>,
    velocities: Velocities,
    mass: u64,
}

impl Model for BodySet {
    ghost use Rattle.std.specs.Prelude.{◌≡◌, length};
    ghost use Rattle.hot_units.specs.Bodies.{mass_of};
    ghost use Rattle.body_set.specs.Sets.{SetValue};
    ghost use Rattle.key_order.specs.Ordered.{IsSet};

    ghost Value = { SetValue };

    ghost view = { λ s. record {
      cube = s.cube;
      bodies = s.bodies.items;
      idents = s.idents.items;
      weights = s.weights.items;
      velocities = s.velocities;
    } };

    ghost invariant = { λ s. (IsSet s.bodies.items s.idents.items s.weights.items)
        × (s.mass ≡ mass_of s.bodies.items)
        × (length s.velocities ≡ length s.bodies.items) };
}

// a body with its ident and weight is within 64 bytes
const _: () = prove!(size_of::<Body>() + size_of::<i128>() + size_of::<u32>() <= 64);

/// What a row adds to the lists.
#[derive(Clone, Copy)]
struct Entry {
    body: Body,
    ident: i128,
    weight: u32,
    velocity: Velocity,
}

/// Adds one element to each of four lists, or to none.
fn append(
    bodies: &mut Vec<Body>,
    idents: &mut Vec<i128>,
    weights: &mut Vec<u32>,
    velocities: &mut Velocities,
    entry: Entry,
) -> Result<(), AllocError>
    requires few { length velocities.old < max_bodies }
    ensures bodies { MatchResult result
        (λ _. bodies.new.items ≡ bodies.old.items ++ entry.body ∷ [])
        (λ _. bodies.new.items ≡ bodies.old.items) }
    ensures idents { MatchResult result
        (λ _. idents.new.items ≡ idents.old.items ++ entry.ident ∷ [])
        (λ _. idents.new.items ≡ idents.old.items) }
    ensures weights { MatchResult result
        (λ _. weights.new.items ≡ weights.old.items ++ entry.weight ∷ [])
        (λ _. weights.new.items ≡ weights.old.items) }
    ensures velocities { MatchResult result
        (λ _. velocities.new ≡ velocities.old ++ entry.velocity ∷ [])
        (λ _. velocities.new ≡ velocities.old) }
{
    bodies.reserve(1)?;
    idents.reserve(1)?;
    weights.reserve(1)?;
    velocities.push(entry.velocity)?;
    bodies.push(entry.body).unwrap();
    idents.push(entry.ident).unwrap();
    weights.push(entry.weight).unwrap();
    Ok(())
}

impl BodySet {
    /// The set of a cube without a row. It takes no memory.
    pub fn new(alloc: Global, cube: Cube) -> BodySet
        ensures empty { result ≡ sets.empty_set cube }
    {
        BodySet {
            cube,
            bodies: Vec::new(alloc),
            idents: Vec::new(alloc),
            weights: Vec::new(alloc),
            velocities: Velocities::at_rest(alloc, 0),
            mass: 0,
        }
    }

    /// Adds a row as the next one. It is refused for the first that is wrong with it, in this
    /// order: the set has 1,048,576 rows; the place is outside the cube on x, on y, on z; the mass
    /// is not 1 to 4,294,967,295; the work is not 0 to 2^32 - 1; the mass with that of all rows
    /// before is above 2^40. A velocity is never a reason, and is 0 on an axis without a column.
    /// Memory may run out for a row that is good. A refusal leaves the set unchanged.
    pub fn push(&mut self, raw: &RawRow) -> Result<(), PushError>
        ensures first_fault { MatchOption
            (first_fault self.old.cube self.old.bodies raw.now)
            (IsOkUnless result PushError.Memory) (λ fault. result ≡ Err fault) }
        ensures pushed { OnOk result (self.new ≡ sets.with_row self.old raw.now) }
        ensures unchanged { OnErr result (self.new ≡ self.old) }
    {
        let row = self.bodies.len() as u32;
        let (body, weight) = read_row(self.cube, row, self.mass, raw)?;
        let entry = Entry {
            body,
            ident: raw.ident,
            weight,
            velocity: Velocity::of_row(raw),
        };
        append(
            &mut self.bodies,
            &mut self.idents,
            &mut self.weights,
            &mut self.velocities,
            entry,
        )?;
        self.mass += u64::from(body.mass);
        Ok(())
    }

    /// The cube of the set. It takes no memory.
    pub fn cube(&self) -> Cube
        ensures value { result ≡ self.now.cube }
    {
        self.cube
    }

    /// How many rows the set has, at most 1,048,576. It takes no memory.
    pub fn len(&self) -> usize
        ensures value { result ≡ length self.now.bodies }
        ensures few { result ≤ max_bodies }
        ensures velocities_too { result ≡ length self.now.velocities }
    {
        self.bodies.len()
    }

    /// The body of a row; None exactly past the last. It takes no memory.
    pub fn body(&self, i: usize) -> Option<Body>
        ensures value { result ≡ slice_get self.now.bodies i }
    {
        self.bodies.get(i).copied()
    }

    /// The components of the velocity of a row on x, y and z, in the units of its file, each 0
    /// where that has no column; None exactly past the last. It takes no memory.
    pub fn velocity(&self, i: usize) -> Option<[i128; 3]>
        ensures value { result ≡ slice_get (map components self.now.velocities) i }
    {
        if i < self.bodies.len() {
            Some(self.velocities.get(i))
        } else {
            None
        }
    }

    /// The velocities of the rows, which are all 0 in the set from then on. So they stay while
    /// `order` uses up the set. It takes no memory.
    pub fn take_velocities(&mut self, alloc: Global) -> Velocities
        ensures value { result ≡ self.old.velocities }
        ensures left { self.new ≡ sets.at_rest self.old }
    {
        let still = Velocities::at_rest(alloc, self.bodies.len());
        mem::replace(&mut self.velocities, still)
    }

    /// The bodies by ascending key and then row, without velocities, whose memory is given back. The
    /// sort works in place, so memory is never refused here.
    pub fn order(self, _alloc: Global) -> Result<Ordered, AllocError>
        ensures ordered { IsOkAnd result (λ o. o ≡ sets.in_key_order self) }
    {
        let BodySet {
            cube: _,
            bodies,
            idents,
            weights,
            velocities: _,
            mass: _,
        } = self;
        Ok(in_key_order(bodies, idents, weights))
    }
}
