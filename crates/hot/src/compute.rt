// Runs over ranks, and what is printed of them.
ghost use Rattle.std.specs.Prelude.{◌≡◌, ◌≤◌, ◌==◌, ℕ, List, [], map, Some, All, IfOk};
ghost use Rattle.hot_units.specs.Limits.{max_generated};
ghost use Rattle.hot_units.specs.Bodies.{RowsCount};
ghost use Rattle.near_walk.specs.Limits.{max_radius};
ghost use Rattle.sdf_rows.specs.Columns.{Is64Bits};
ghost use Rattle.body_file.specs.Files.{HasBodies};
ghost use Rattle.body_maker.specs.Made.{made_set};
ghost use Rattle.hot_words.specs.Commands.{job_value};
ghost use Rattle.hot.specs.Runs.{WireUse, Wired, log_of, gravity_run, near_run};
ghost use Rattle.hot.specs.Texts.{sample_of};
ghost use Rattle.hot.specs.Prepared.{gravity_of, IsWalkOf, WalkLeaves, walk_report, IsRunOf};
ghost use Rattle.hot.specs.Prepared.{AreForcesOf, near_of, AreNeighboursOf, ComputeLeaves};

use crate::answer::{Forces, Neighbours};
use body_maker::sample_bodies;
use body_set::BodySet;
use fixed_kernel::ForceVisit;
use hot_units::Acc3;
use hot_words::Job;
use key_order::Ordered;
use near_walk::{NearAcc, NearVisit};
use rank_walk::{Found, Sharing, place_by_row, walk_over_ranks};
use run_report::{RunReport, Sample};
use std::alloc::{AllocError, Global};
use std::thread::Threads;
use wire::{Gate, Wire};

/// What a run gives: the bodies in key order, the forces on them in the order of their rows, and
/// the report, where it is asked for.
#[derive(Drop)]
struct Ran {
    ordered: Ordered,
    forces: Vec<Acc3>,
    report: Option<RunReport>,
}

/// How the walk of a run is shared out.
fn sharing_of(job: &Job) -> Sharing
    ensures ranks { result.ranks ≡ job.now.ranks }
    ensures leaf { result.leaf ≡ job.now.leaf }
    ensures mail { result.mail ≡ job.now.mail }
{
    Sharing {
        ranks: job.ranks,
        leaf: job.leaf,
        mail: job.mail,
    }
}

/// The visit of a run.
fn visit_of(job: &Job) -> ForceVisit
    ensures value { result
        ≡ record { ratio = job.now.ratio; eps = job.now.eps; second = job.now.moments == 2 } }
{
    if job.moments != 2 {
        return ForceVisit::new(job.ratio, job.eps);
    }
    match ForceVisit::with_second(job.ratio, job.eps) {
        Some(visit) => visit,
        None => unreachable!(),
    }
}

/// The walk of all bodies by gravity, shared out over ranks.
fn walk_job<R: Threads + Sync, M: Wire, G: Gate>(
    rt: &R,
    alloc: Global,
    job: &Job,
    ordered: &Ordered,
    wire: &mut M,
    gate: &G,
) -> Result<Found<Acc3>, AllocError>
    requires quiet { (M.desk wire.old).pending ≡ [] }
    ensures walked { (wu : WireUse) × Wired M.desk wire.old wire.new wu
        × WalkLeaves (gravity_run (job_value job.now)) ordered.now wu result
        × IfOk result (λ f. IsWalkOf (gravity_of (job_value job.now))
        (gravity_run (job_value job.now)) ordered.now (log_of wu)
        f.accs.items f.efforts.items f.opened.items f.rounds) }
{
    let visit = visit_of(job);
    walk_over_ranks(rt, alloc, ordered, sharing_of(job), visit, wire, gate)
}

/// The report of a walk, where it is asked for.
fn report_if<M: Wire>(
    alloc: Global,
    job: &Job,
    ordered: &Ordered,
    found: &Found<Acc3>,
    wire: &M,
    shows: bool,
) -> Result<Option<RunReport>, AllocError>
    requires walked { IsWalkOf (gravity_of (job_value job.now)) (gravity_run (job_value job.now))
        ordered.now (M.desk wire.now).log
        found.now.accs.items found.now.efforts.items found.now.opened.items found.now.rounds }
    ensures report { IfOk result (λ r. r
        ≡ walk_report shows (gravity_run (job_value job.now)) ordered.now (M.desk wire.now).log) }
{
    if !shows {
        return Ok(None);
    }
    let report = RunReport::of(alloc, ordered, sharing_of(job), found, wire.letters())?;
    Ok(Some(report))
}

/// A run on the bodies of a set.
fn compute_run<R: Threads + Sync, M: Wire, G: Gate>(
    rt: &R,
    alloc: Global,
    job: &Job,
    set: BodySet,
    shows: bool,
    wire: &mut M,
    gate: &G,
) -> Result<Ran, AllocError>
    requires rows { RowsCount set.bodies }
    requires quiet { (M.desk wire.old).pending ≡ [] }
    ensures ran { (wu : WireUse) × Wired M.desk wire.old wire.new wu
        × ComputeLeaves (Some (gravity_run (job_value job.now))) set wu result
        × IfOk result (λ r. IsRunOf (job_value job.now) set shows (log_of wu)
        r.ordered r.forces.items r.report) }
{
    let ordered = set.order(alloc)?;
    let found = walk_job(rt, alloc, job, &ordered, wire, gate)?;
    let report = report_if(alloc, job, &ordered, &found, wire, shows)?;
    let forces = place_by_row(alloc, ordered.bodies(), found.accs)?;
    Ok(Ran {
        ordered,
        forces,
        report,
    })
}

/// The forces on the bodies of files, by a run over ranks. They are put into the order of the
/// files.
pub fn compute_forces<R: Threads + Sync, M: Wire, G: Gate>(
    rt: &R,
    alloc: Global,
    job: &Job,
    set: BodySet,
    wire: &mut M,
    gate: &G,
) -> Result<Forces, AllocError>
    requires named { All Is64Bits set.idents }
    requires of_files { (files : List (List ℕ)) × HasBodies files set }
    requires quiet { (M.desk wire.old).pending ≡ [] }
    ensures computed { (wu : WireUse) × Wired M.desk wire.old wire.new wu
        × ComputeLeaves (Some (gravity_run (job_value job.now))) set wu result
        × IfOk result (AreForcesOf (job_value job.now) set (log_of wu)) }
{
    let ran = compute_run(rt, alloc, job, set, job.report, wire, gate)?;
    Ok(Forces {
        ordered: ran.ordered,
        forces: ran.forces,
        report: ran.report,
        sdf: job.sdf,
    })
}

/// What is shown of a run on generated bodies.
pub fn compute_sample<R: Threads + Sync, M: Wire, G: Gate>(
    rt: &R,
    alloc: Global,
    bodies: u32,
    seed: u64,
    job: &Job,
    wire: &mut M,
    gate: &G,
) -> Result<Sample, AllocError>
    requires few { bodies ≤ max_generated }
    requires quiet { (M.desk wire.old).pending ≡ [] }
    ensures computed { (wu : WireUse) × Wired M.desk wire.old wire.new wu
        × ComputeLeaves (Some (gravity_run (job_value job.now))) (made_set bodies seed) wu result
        × IfOk result (λ s.
        s ≡ sample_of bodies seed (job_value job.now) (made_set bodies seed) (log_of wu)) }
{
    let set = sample_bodies(alloc, bodies, seed)?;
    let ran = compute_run(rt, alloc, job, set, true, wire, gate)?;
    let Ran {
        ordered: _ordered,
        forces,
        report,
    } = ran;
    let Some(report) = report else {
        return Err(AllocError);
    };
    Ok(Sample::of(bodies, seed, report, &forces))
}

/// The visit of neighbours within a radius.
fn near_visit(radius: u32) -> NearVisit
    requires within { radius ≤ max_radius }
    ensures value { result ≡ radius }
{
    match NearVisit::new(radius) {
        Some(visit) => visit,
        None => unreachable!(),
    }
}

/// The walk of all bodies for their neighbours within a radius, shared out over ranks.
fn walk_near<R: Threads + Sync, M: Wire, G: Gate>(
    rt: &R,
    alloc: Global,
    radius: u32,
    job: &Job,
    ordered: &Ordered,
    wire: &mut M,
    gate: &G,
) -> Result<Found<NearAcc>, AllocError>
    requires within { radius ≤ max_radius }
    requires quiet { (M.desk wire.old).pending ≡ [] }
    ensures walked { (wu : WireUse) × Wired M.desk wire.old wire.new wu
        × WalkLeaves (near_run radius (job_value job.now)) ordered.now wu result
        × IfOk result (λ f. IsWalkOf (near_of radius)
        (near_run radius (job_value job.now)) ordered.now (log_of wu)
        f.accs.items f.efforts.items f.opened.items f.rounds) }
{
    let visit = near_visit(radius);
    walk_over_ranks(rt, alloc, ordered, sharing_of(job), visit, wire, gate)
}

/// The rows that were gathered for each body, ascending, in the order of the bodies.
fn lists_of(alloc: Global, accs: Vec<NearAcc>) -> Result<Vec<Vec<u32>>, AllocError>
    ensures lists { IfOk result (λ lists.
        map (λ rows. rows.items) lists.items ≡ map (λ a. a.rows) accs.items) }
{
    let mut lists = Vec::with_capacity(alloc, accs.len())?;
    'accs: for acc in accs {
        lists.push(acc.into_rows())?;
    }
    Ok(lists)
}

/// The rows of the bodies of files within a radius of each, by a run over ranks. They are put into
/// the order of the files.
pub fn compute_near<R: Threads + Sync, M: Wire, G: Gate>(
    rt: &R,
    alloc: Global,
    radius: u32,
    job: &Job,
    set: BodySet,
    wire: &mut M,
    gate: &G,
) -> Result<Neighbours, AllocError>
    requires within { radius ≤ max_radius }
    requires of_files { (files : List (List ℕ)) × HasBodies files set }
    requires quiet { (M.desk wire.old).pending ≡ [] }
    ensures computed { (wu : WireUse) × Wired M.desk wire.old wire.new wu
        × ComputeLeaves (Some (near_run radius (job_value job.now))) set wu result
        × IfOk result (AreNeighboursOf radius set) }
{
    let ordered = set.order(alloc)?;
    let found = walk_near(rt, alloc, radius, job, &ordered, wire, gate)?;
    let placed = place_by_row(alloc, ordered.bodies(), found.accs)?;
    let lists = lists_of(alloc, placed)?;
    Ok(Neighbours { ordered, lists })
}
