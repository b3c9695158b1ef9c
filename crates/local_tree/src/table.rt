ghost use Rattle.std.specs.Prelude.{◌≡◌, ◌<◌, ◌≤◌, ◌^◌, length, All, IfOk};
ghost use Rattle.hot_units.specs.Limits.{max_level, max_all_mass};
ghost use Rattle.hot_units.specs.Keys as keys;
ghost use Rattle.hot_units.specs.Order.{IsInOrder};
ghost use Rattle.hot_units.specs.Bodies.{mass_of};
ghost use Rattle.hot_model.specs.Trees as trees;
ghost use Rattle.local_tree.specs.Pieces.{IsFalling, AreKnown};
ghost use Rattle.local_tree.specs.Spans.{IsSpan};

use crate::places::child_of;
use crate::record::is_smaller;
use crate::spans::{Span, is_parted, spans_of, summed};
use hot_model::CellRec;
use hot_units::Body;
use moments::{add, empty};
use std::alloc::{AllocError, Global};

/// At most so many records stand in the table for ten bodies.
const RECORDS: usize = 19;

// ten bodies, their records, and the places from which these are made
const _: () = prove!(
    10 * size_of::<Body>() + RECORDS * (size_of::<CellRec>() + size_of::<Span>()) <= 10 * 400
);

/// The records of the cells of more bodies than the leaf limit and of their children, by descending
/// key: level by level from the deepest, so that children stand before their parents. A leaf is
/// added up from its bodies, any other cell from its children.
pub fn table_of(alloc: Global, bodies: &[Body], leaf: u32) -> Result<Vec<CellRec>, AllocError>
    requires order { IsInOrder bodies.now }
    requires few { length bodies.now < 2 ^ 32 }
    requires light { mass_of bodies.now ≤ max_all_mass }
    ensures falling { IfOk result (λ v. IsFalling v.items) }
    ensures known { IfOk result (λ v. AreKnown bodies.now v.items) }
{
    let spans = spans_of(alloc, bodies, leaf, RECORDS * bodies.len() / 10)?;
    records_of(alloc, bodies, &spans, leaf)
}

/// The records of these cells, from the last to the first.
fn records_of(
    alloc: Global,
    bodies: &[Body],
    spans: &[Span],
    leaf: u32,
) -> Result<Vec<CellRec>, AllocError>
    requires order { IsInOrder bodies.now }
    requires few { length bodies.now < 2 ^ 32 }
    requires light { mass_of bodies.now ≤ max_all_mass }
    requires spans { All (IsSpan bodies.now) spans.now }
    ensures falling { IfOk result (λ v. IsFalling v.items) }
    ensures known { IfOk result (λ v. AreKnown bodies.now v.items) }
{
    let mut recs = Vec::with_capacity(alloc, spans.len())?;
    let mut done = 0;
    for back in 0..spans.len() {
        let span = &spans[spans.len() - 1 - back];
        done = push_record(bodies, *span, leaf, &mut recs, done)?;
    }
    Ok(recs)
}

/// Adds the record of a cell behind those of greater keys. The records before the place `done` are
/// of children that were added up already; the result is this place behind the cell's own children.
fn push_record(
    bodies: &[Body],
    span: Span,
    leaf: u32,
    recs: &mut Vec<CellRec>,
    done: usize,
) -> Result<usize, AllocError>
    requires order { IsInOrder bodies.now }
    requires few { length bodies.now < 2 ^ 32 }
    requires light { mass_of bodies.now ≤ max_all_mass }
    requires span { IsSpan bodies.now span }
    requires falling { IsFalling recs.old.items }
    requires known { AreKnown bodies.now recs.old.items }
    requires within { done ≤ length recs.old.items }
    ensures falling { IfOk result (λ _. IsFalling recs.new.items) }
    ensures known { IfOk result (λ _. AreKnown bodies.now recs.new.items) }
    ensures within { IfOk result (λ n. n ≤ length recs.new.items) }
{
    if !is_smaller(recs, span.key) {
        return Ok(done);
    }
    let (rec, taken) = record_of(bodies, span, leaf, recs, done);
    recs.push(rec)?;
    Ok(taken)
}

/// The record of a cell, and the place behind the records of its children.
fn record_of(
    bodies: &[Body],
    span: Span,
    leaf: u32,
    recs: &[CellRec],
    done: usize,
) -> (CellRec, usize)
    requires order { IsInOrder bodies.now }
    requires few { length bodies.now < 2 ^ 32 }
    requires light { mass_of bodies.now ≤ max_all_mass }
    requires span { IsSpan bodies.now span }
    requires known { AreKnown bodies.now recs.now }
    requires within { done ≤ length recs.now }
    ensures value { result.0 ≡ trees.cell_record bodies.now span.key }
    ensures within { result.1 ≤ length recs.now }
{
    if is_parted(span, leaf) {
        joined(bodies, span, recs, done)
    } else {
        (summed(bodies, span), done)
    }
}

/// The record of a parted cell, added up from those of its children: these stand from the place
/// `done` on, from the last child to the first. If not all of them stand there, which their count
/// tells, it is added up from the bodies.
fn joined(bodies: &[Body], span: Span, recs: &[CellRec], done: usize) -> (CellRec, usize)
    requires order { IsInOrder bodies.now }
    requires few { length bodies.now < 2 ^ 32 }
    requires light { mass_of bodies.now ≤ max_all_mass }
    requires span { IsSpan bodies.now span }
    requires upper { keys.level span.key < max_level }
    requires known { AreKnown bodies.now recs.now }
    requires within { done ≤ length recs.now }
    ensures value { result.0 ≡ trees.cell_record bodies.now span.key }
    ensures within { result.1 ≤ length recs.now }
{
    let mut sum = empty(span.key);
    let mut taken = done;
    for back in 0..8u64 {
        let child = child_of(span.key, 7 - back);
        if taken < recs.len() {
            let rec = &recs[taken];
            if rec.key == child {
                add(&mut sum, rec);
                taken += 1;
            }
        }
    }
    if sum.count == span.to - span.from {
        return (sum, taken);
    }
    (summed(bodies, span), taken)
}
