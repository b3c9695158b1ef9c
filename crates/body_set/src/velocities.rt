ghost use Rattle.std.specs.Prelude.{◌≡◌, ◌<◌, ◌≤◌, ◌+◌, ◌∷◌, ◌++◌, [], length, get_or, replicate};
ghost use Rattle.std.specs.Prelude.{MatchResult, IsOk};
ghost use Rattle.hot_units.specs.Limits.{max_bodies};
ghost use Rattle.hot_units.specs.Values.{components};
ghost use Rattle.body_set.specs.Velocities.{no_velocity, padded};

use crate::velocity::Velocity;
use std::alloc::{AllocError, Global};
use std::marker::Model;

/// The velocities of the rows of a set, in file order: 48 bytes a row up to the last whose velocity
/// is not 0, and no memory where there is none. Clauses see one velocity a row.
#[derive(Drop)]
pub struct Velocities {
    count: usize,
    listed: Vec<Velocity>,
}

impl Model for Velocities {
    ghost use Rattle.std.specs.Prelude.{List, length, ◌≤◌};
    ghost use Rattle.hot_units.specs.Values.{Vector};
    ghost use Rattle.body_set.specs.Velocities.{padded};

    ghost Value = { List Vector };

    ghost view = { λ v. padded v.count v.listed.items };

    ghost invariant = { λ v. length v.listed.items ≤ v.count };
}

// a velocity takes 48 bytes
const _: () = prove!(size_of::<Velocity>() == 48);

/// Lists a velocity behind those of so many rows, unless it is 0.
fn list(listed: &mut Vec<Velocity>, count: usize, v: Velocity) -> Result<(), AllocError>
    requires within { length listed.old.items ≤ count }
    requires few { count < max_bodies }
    ensures value { MatchResult result
        (λ _. padded (count + 1) listed.new.items ≡ padded count listed.old.items ++ v ∷ [])
        (λ _. padded count listed.new.items ≡ padded count listed.old.items) }
    ensures within { MatchResult result (λ _. length listed.new.items ≤ count + 1)
        (λ _. length listed.new.items ≤ count) }
    ensures free { v ≡ no_velocity → IsOk result }
{
    if v.is_none() {
        return Ok(());
    }
    listed.resize(count, Velocity::none())?;
    listed.push(v)?;
    Ok(())
}

impl Velocities {
    /// The velocities of so many rows, all 0. They take no memory.
    pub(crate) fn at_rest(alloc: Global, count: usize) -> Velocities
        ensures { result ≡ replicate count no_velocity }
    {
        Velocities {
            count,
            listed: Vec::new(alloc),
        }
    }

    /// Adds the velocity of the next row. A refusal leaves them unchanged, and a velocity of 0 is
    /// never refused.
    pub(crate) fn push(&mut self, v: Velocity) -> Result<(), AllocError>
        requires few { length self.old < max_bodies }
        ensures pushed { MatchResult result (λ _. self.new ≡ self.old ++ v ∷ [])
            (λ _. self.new ≡ self.old) }
        ensures free { v ≡ no_velocity → IsOk result }
    {
        list(&mut self.listed, self.count, v)?;
        self.count += 1;
        Ok(())
    }

    /// The components of the velocity of a row on x, y and z; 0 past the last row. It takes no
    /// memory.
    pub fn get(&self, row: usize) -> [i128; 3]
        ensures value { result ≡ components (get_or self.now row no_velocity) }
    {
        match self.listed.get(row) {
            Some(v) => v.components(),
            None => [0; 3],
        }
    }
}
