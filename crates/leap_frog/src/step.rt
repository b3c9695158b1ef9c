ghost use Rattle.std.specs.Prelude.{ℕ, ◌≡◌, ◌≤◌, ◌+◌, ◌^◌, ◌∷◌, ◌++◌, [], length, map, All};
ghost use Rattle.std.specs.Prelude.{MatchResult, OnOk};
ghost use Rattle.leap_frog.specs.Leap as leap;
ghost use Rattle.leap_frog.specs.States.{IsState, IsWithin, IsDrifted, IsHalfway, StopsAt};
ghost use Rattle.leap_frog.specs.States.{max_speed, force_in, moving, sums, StepAnswers, max_force};
ghost use Rattle.leap_frog.specs.States.{max_kicked};
ghost use Rattle.leap_frog.specs.Calls.{StepLeaves, asked_for};
ghost use Rattle.hot_model.specs.Trees.{force};

use crate::velocity::{Velocity, drifted};
use crate::{State, StepRefused};
use hot_model::ForceEngine;
use hot_units::{Acc3, Axis, Body, body_of};
use std::alloc::{AllocError, Global};

/// Adds to each velocity the force on its body.
fn kick(velocities: &mut [Velocity], forces: &[Acc3])
    requires forces_too { length forces.now ≡ length velocities.old }
    requires slow { All (IsWithin max_speed) velocities.old }
    ensures value { velocities.new ≡ sums velocities.old (map force_in forces.now) }
    ensures grown { (most : ℕ) → All (IsWithin most) velocities.old
        → All (IsWithin (most + max_force)) velocities.new }
{
    for i in 0..velocities.len() {
        velocities[i] = velocities[i].kicked(&forces[i]);
    }
}

/// The same of a list that owns its velocities.
fn kick_all(velocities: &mut Vec<Velocity>, forces: &[Acc3])
    requires forces_too { length forces.now ≡ length velocities.old.items }
    requires slow { All (IsWithin max_speed) velocities.old.items }
    ensures value { velocities.new.items ≡ sums velocities.old.items (map force_in forces.now) }
    ensures long { length velocities.new.items ≡ length velocities.old.items }
    ensures grown { (most : ℕ) → All (IsWithin most) velocities.old.items
        → All (IsWithin (most + max_force)) velocities.new.items }
{
    kick(velocities, forces);
}

/// The body behind a drift with this velocity, or the first axis on which it leaves the cube.
fn drift_body(body: &Body, v: Velocity) -> Result<Body, StepRefused>
    requires slow { IsWithin max_kicked v }
    ensures value { MatchResult result
        (λ b. (leap.leaving (record { body = body.now; velocity = v }) ≡ [])
        × (b
        ≡ (leap.put (leap.place_after (record { body = body.now; velocity = v }))
        (record { body = body.now; velocity = v })).body))
        (λ e. StopsAt (leap.leaving (record { body = body.now; velocity = v })) e) }
{
    let row = body.row;
    let Some(x) = drifted(body.x, v.x) else {
        return Err(StepRefused::Leaves { row, axis: Axis::X });
    };
    let Some(y) = drifted(body.y, v.y) else {
        return Err(StepRefused::Leaves { row, axis: Axis::Y });
    };
    let Some(z) = drifted(body.z, v.z) else {
        return Err(StepRefused::Leaves { row, axis: Axis::Z });
    };
    Ok(body_of(x, y, z, body.mass, row).unwrap())
}

/// Adds a body at the end.
fn keep(after: &mut Vec<Body>, body: Body) -> Result<(), AllocError>
    ensures { OnOk result (after.new.items ≡ after.old.items ++ body ∷ []) }
{
    after.push(body)?;
    Ok(())
}

/// The bodies behind a drift, or the first that leaves the cube.
fn drift(alloc: Global, bodies: &[Body], velocities: &[Velocity]) -> Result<Vec<Body>, StepRefused>
    requires velocities_too { length velocities.now ≡ length bodies.now }
    requires slow { All (IsWithin max_kicked) velocities.now }
    ensures value { MatchResult result (λ v. IsDrifted (moving bodies.now velocities.now) v.items)
        (λ e. StopsAt (leap.leavers (moving bodies.now velocities.now)) e) }
{
    let mut after = Vec::new(alloc);
    for i in 0..bodies.len() {
        match drift_body(&bodies[i], velocities[i]) {
            Ok(moved) => keep(&mut after, moved)?,
            Err(refused) => return Err(refused),
        }
    }
    Ok(after)
}

/// The bodies behind a kick and a drift, and their velocities between the two kicks; or the first
/// that leaves the cube.
fn halfway(
    alloc: Global,
    bodies: &[Body],
    velocities: &[Velocity],
    forces: &[Acc3],
) -> Result<(Vec<Body>, Vec<Velocity>), StepRefused>
    requires state { IsState bodies.now velocities.now }
    requires forces_too { length forces.now ≡ length bodies.now }
    ensures value { MatchResult result
        (λ r. (r.1.items ≡ sums velocities.now (map force_in forces.now))
        × IsHalfway bodies.now r.0.items r.1.items)
        (λ e. StopsAt
        (leap.leavers (moving bodies.now (sums velocities.now (map force_in forces.now)))) e) }
{
    let mut kicked = Vec::from_slice(alloc, velocities)?;
    kick_all(&mut kicked, forces);
    match drift(alloc, bodies, &kicked) {
        Ok(after) => Ok((after, kicked)),
        Err(refused) => Err(refused),
    }
}

impl State {
    /// Makes one step of the kick-drift-kick leapfrog (velocity Verlet): each velocity gains the
    /// force at the present places, each coordinate the velocity over 2^20, rounded toward zero,
    /// and each velocity the force at the new places. Forces are in units of 2^-40 of mass over
    /// squared fine distance, velocities in 2^-20 of fine length a step; a kick adds the one to the
    /// other as it stands. The engine is asked twice, and its numbers stay. A step from the new
    /// state with all velocities negated leads back.
    ///
    /// `Leaves` comes where a body would leave the cube (a coordinate below 0 or of 2^29 or more),
    /// with the first row and its first axis; then the engine was asked once. `Memory` is want of
    /// memory, of this call or of the engine. Either leaves the state unchanged.
    pub fn step<E: ForceEngine>(
        &mut self,
        alloc: Global,
        engine: &mut E,
        link: &mut E::Link,
    ) -> Result<(), StepRefused>
        requires link_ready { E.is_ready engine.old link.old }
        ensures settings_kept { E.settings engine.new ≡ E.settings engine.old }
        ensures step { StepAnswers (force (E.settings engine.old)) self.old self.new result }
        ensures undone { OnOk result
            (leap.step (force (E.settings engine.old)) (leap.turned self.new)
            ≡ Ok (leap.turned self.old)) }
        ensures calls { StepLeaves
            (record { is_ready = E.is_ready; answers = E.answers; refuses = E.refuses })
            (asked_for (force (E.settings engine.old)) self.old)
            result engine.old link.old engine.new link.new }
    {
        let first = match engine.forces(alloc, link, &self.bodies) {
            Ok(forces) => forces,
            Err(_) => return Err(StepRefused::Memory),
        };
        let (bodies, mut velocities) = match halfway(
            alloc,
            &self.bodies,
            &self.velocities,
            &first,
        ) {
            Ok(lists) => lists,
            Err(refused) => return Err(refused),
        };
        let second = match engine.forces(alloc, link, &bodies) {
            Ok(forces) => forces,
            Err(_) => return Err(StepRefused::Memory),
        };
        kick_all(&mut velocities, &second);
        self.bodies = bodies;
        self.velocities = velocities;
        Ok(())
    }
}
