ghost use Rattle.std.specs.Prelude.{◌≡◌, ◌<◌, ◌≤◌, ◌+◌, ◌^◌, IfOk, length, map};
ghost use Rattle.hot_units.specs.Limits.{max_all_mass};
ghost use Rattle.hot_units.specs.Keys.{IsCell};
ghost use Rattle.hot_units.specs.Bodies.{mass_of};
ghost use Rattle.hot_model.specs.Trees.{added, terms_of, fold_of as fold_over, cell_record, Near};
ghost use Rattle.hot_model.specs.Trees.{inside as bodies_in};

use crate::cells::inside;
use hot_model::{CellRec, Seen, Visit};
use hot_units::limits::MAX_LEVEL;
use hot_units::{Body, level};
use moments::of_inside;
use std::alloc::{AllocError, Global};

/// Adds each of the bodies.
#[tactic(auto, using(crate::proofs::Hints::on_listed))]
fn add_listed<V: Visit>(
    visit: &V,
    b: &Body,
    listed: &[Body],
    acc: &mut V::Acc,
) -> Result<(), AllocError>
    requires room { V.Acc.seen_of acc.old + mass_of listed.now ≤ max_all_mass }
    ensures value { IfOk result
        (λ _. acc.new ≡ added (V.adds visit.now b.now) acc.old (map Near listed.now)) }
    ensures seen { IfOk result
        (λ _. V.Acc.seen_of acc.new ≡ V.Acc.seen_of acc.old + mass_of listed.now) }
{
    for o in listed {
        visit.near(acc, b, o)?;
    }
    Ok(())
}

/// The bodies of a cell, and its record.
#[tactic(auto, using(crate::proofs::Hints::on_known))]
fn known(alloc: Global, bodies: &[Body], cell: u64) -> Result<(Vec<Body>, CellRec), AllocError>
    requires cell { IsCell cell }
    requires few { length bodies.now < 2 ^ 32 }
    requires light { mass_of (bodies_in bodies.now cell) ≤ max_all_mass }
    ensures bodies { IfOk result (λ r. r.0.items ≡ bodies_in bodies.now cell) }
    ensures sums { IfOk result (λ r. r.1 ≡ cell_record bodies.now cell) }
{
    let kept = inside(alloc, bodies, cell)?;
    let rec = of_inside(cell, bodies);
    Ok((kept, rec))
}

/// Adds the terms of a cell, out of a list that has all its bodies. Each cell hands its own bodies
/// on to its children.
#[tactic(auto, using(crate::proofs::Hints::on_walk))]
fn walk<V: Visit>(
    visit: &V,
    alloc: Global,
    around: &[Body],
    leaf: u32,
    b: &Body,
    cell: u64,
    acc: &mut V::Acc,
) -> Result<(), AllocError>
    requires cell { IsCell cell }
    requires few { length around.now < 2 ^ 32 }
    requires room { V.Acc.seen_of acc.old + mass_of (bodies_in around.now cell) ≤ max_all_mass }
    ensures value { IfOk result
        (λ _. acc.new
        ≡ added (V.adds visit.now b.now) acc.old
        (terms_of (V.opens_by visit.now b.now) leaf around.now cell)) }
    ensures seen { IfOk result
        (λ _. V.Acc.seen_of acc.new ≡ V.Acc.seen_of acc.old + mass_of (bodies_in around.now cell)) }
{
    let (kept, rec) = known(alloc, around, cell)?;
    if kept.is_empty() {
        return Ok(());
    }
    if !visit.opens(b, &rec) {
        visit.far(acc, b, &rec)?;
        return Ok(());
    }
    if level(cell) == MAX_LEVEL {
        add_listed(visit, b, &kept, acc)?;
        return Ok(());
    }
    if kept.len() <= leaf as usize {
        add_listed(visit, b, &kept, acc)?;
        return Ok(());
    }
    for d in 0..8u64 {
        walk(visit, alloc, &kept, leaf, b, 8 * cell + d, acc)?;
    }
    Ok(())
}

/// What a visit has added up for body `b` after the recursive walk of the tree over `bodies` from
/// the root, with the leaf limit `leaf` (Barnes and Hut, 1986). A refusal is want of memory.
pub fn fold_of<V: Visit>(
    visit: &V,
    alloc: Global,
    bodies: &[Body],
    leaf: u32,
    b: &Body,
) -> Result<V::Acc, AllocError>
    requires few { length bodies.now < 2 ^ 32 }
    requires light { mass_of bodies.now ≤ max_all_mass }
    ensures fold { IfOk result
        (λ a. a
        ≡ fold_over (V.adds visit.now b.now) (V.zero_of visit.now) (V.opens_by visit.now b.now)
        leaf bodies.now) }
{
    let mut acc = visit.zero(alloc);
    walk(visit, alloc, bodies, leaf, b, 1, &mut acc)?;
    Ok(acc)
}
