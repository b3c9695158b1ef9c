ghost use Rattle.std.specs.Prelude.{◌≡◌, ◌<◌, ◌≤◌, ◌+◌, ◌*◌, ◌^◌, ◌+ℤ◌, nat_abs, length};
ghost use Rattle.hot_units.specs.Limits.{max_bodies};
ghost use Rattle.run_report.specs.Report as reports;

use crate::RunReport;
use hot_units::Acc3;
use std::marker::Model;

/// The sum of forces, by its components.
#[derive(Clone, Copy)]
pub struct ForceSum {
    pub x: i128,
    pub y: i128,
    pub z: i128,
}

/// What is shown of a run on generated bodies: their number and seed, what the run shows, and the
/// sum of the forces.
#[derive(Drop)]
pub struct Sample {
    pub bodies: u32,
    pub seed: u64,
    pub report: RunReport,
    pub sum: ForceSum,
}

impl Model for Sample {
    ghost use Rattle.run_report.specs.Report.{SampleValue};

    ghost Value = { SampleValue };

    ghost view = { λ s. record {
      bodies = s.bodies;
      seed = s.seed;
      report = s.report;
      sum = s.sum;
    } };
}

/// A sum of so many numbers and one more.
fn added(sum: i128, more: i128, count: usize) -> i128
    requires few { count < max_bodies }
    requires sum { nat_abs sum ≤ count * 2 ^ 80 }
    requires more { nat_abs more ≤ 2 ^ 80 }
    ensures value { result ≡ sum +ℤ more }
    ensures small { nat_abs result ≤ (count + 1) * 2 ^ 80 }
{
    sum + more
}

/// The sum of so many forces and one more.
fn added_force(sum: ForceSum, force: Acc3, count: usize) -> ForceSum
    requires few { count < max_bodies }
    requires small { reports.IsSumOf count sum }
    ensures value { result ≡ reports.one_more sum force }
    ensures small { reports.IsSumOf (count + 1) result }
{
    ForceSum {
        x: added(sum.x, force.ax, count),
        y: added(sum.y, force.ay, count),
        z: added(sum.z, force.az, count),
    }
}

/// The sum of the forces.
fn sum_forces(forces: &[Acc3]) -> ForceSum
    requires few { length forces.now ≤ max_bodies }
    ensures value { result ≡ reports.sum_of forces.now }
{
    let mut sum = ForceSum { x: 0, y: 0, z: 0 };
    for (i, force) in forces.iter().enumerate() {
        sum = added_force(sum, *force, i);
    }
    sum
}

impl Sample {
    /// What is shown of a run, with the forces that it found. It takes no memory.
    pub fn of(bodies: u32, seed: u64, report: RunReport, forces: &[Acc3]) -> Sample
        requires few { length forces.now ≤ max_bodies }
        ensures value { result ≡ record {
          bodies = bodies;
          seed = seed;
          report = report;
          sum = reports.sum_of forces.now;
        } }
    {
        Sample {
            bodies,
            seed,
            report,
            sum: sum_forces(forces),
        }
    }
}
