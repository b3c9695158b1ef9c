ghost use Rattle.std.specs.Prelude.{◌≡◌, ◌<◌, ◌^◌, ◌-◌, Ok, OnOk};
ghost use Rattle.hot_model.specs.Trees.{force};
ghost use Rattle.leap_frog.specs.Leap.{steps_back};
ghost use Rattle.leap_frog.specs.Calls as calls;
ghost use Rattle.leap_frog.specs.Calls.{StepsAnswer, StepsLeave};

use crate::{State, StepRefused, StepsRefused};
use hot_model::ForceEngine;
use std::alloc::Global;

impl State {
    /// Makes `count` steps of the kick-drift-kick leapfrog, each as `step` makes one. The same
    /// steps back, with all velocities negated before and behind them, give the first state to the
    /// last bit.
    ///
    /// `Leaves` comes at the first step, counted from 1, that would take a body out of the cube;
    /// `Memory` is want of memory. Either leaves the state of the steps before. With 0 steps
    /// nothing is asked of the engine.
    pub fn steps<E: ForceEngine>(
        &mut self,
        alloc: Global,
        engine: &mut E,
        link: &mut E::Link,
        count: u32,
    ) -> Result<(), StepsRefused>
        requires link_ready { E.is_ready engine.old link.old }
        requires few { count < 2 ^ 32 - 1 }
        ensures settings_kept { E.settings engine.new ≡ E.settings engine.old }
        ensures steps { StepsAnswer
            (record {
              law = force (E.settings engine.old);
              count = count;
              first = self.old;
              last = self.new;
            }) result }
        ensures undone { OnOk result
            (steps_back (force (E.settings engine.old)) count self.new ≡ Ok self.old) }
        ensures calls { StepsLeave
            (record { is_ready = E.is_ready; answers = E.answers; refuses = E.refuses })
            (record {
              law = force (E.settings engine.old);
              count = count;
              first = self.old;
              last = self.new;
            }) result engine.old link.old engine.new link.new }
    {
        self.facts();
        for done in 0..count {
            match self.step(alloc, engine, link) {
                Ok(()) => {}
                Err(refused) => return Err(at_step(done + 1, refused)),
            }
        }
        Ok(())
    }
}

/// The refusal of the step of this number.
fn at_step(number: u32, refused: StepRefused) -> StepsRefused
    ensures { result ≡ calls.at_step number refused }
{
    match refused {
        StepRefused::Leaves { row, axis } => StepsRefused::Leaves { number, row, axis },
        StepRefused::Memory => StepsRefused::Memory,
    }
}
