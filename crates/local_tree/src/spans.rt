ghost use Rattle.std.specs.Prelude.{◌≡◌, ◌<◌, ◌≤◌, ◌^◌, true, List, length, All, IsTrue, IfOk};
ghost use Rattle.std.specs.Prelude.{MatchOption};
ghost use Rattle.hot_units.specs.Limits.{max_level, max_all_mass};
ghost use Rattle.hot_units.specs.Values.{BodyValue};
ghost use Rattle.hot_units.specs.Keys.{IsCell};
ghost use Rattle.hot_units.specs.Keys as keys;
ghost use Rattle.hot_units.specs.Order.{IsInOrder};
ghost use Rattle.hot_units.specs.Bodies.{mass_of};
ghost use Rattle.hot_model.specs.Trees as trees;
ghost use Rattle.local_tree.specs.Spans.{IsSpan};

use crate::places::{child_of, count_within, places};
use hot_model::CellRec;
use hot_units::limits::MAX_LEVEL;
use hot_units::{Body, level};
use moments::of_inside;
use morton_key::last_key;
use std::alloc::{AllocError, Global};

/// Where the bodies of a cell stand in a list in key order: from, and to (exclusive).
#[derive(Clone, Copy)]
pub struct Span {
    pub key: u64,
    pub from: u32,
    pub to: u32,
}

/// Where the bodies of a cell stand, if it has any.
pub fn span_of(bodies: &[Body], key: u64) -> Option<Span>
    requires order { IsInOrder bodies.now }
    requires few { length bodies.now < 2 ^ 32 }
    requires cell { IsCell key }
    ensures span { MatchOption result (trees.is_empty (trees.inside bodies.now key) ≡ true)
        (λ s. (s.key ≡ key) × IsSpan bodies.now s) }
{
    let (from, to) = places(bodies, key);
    if from == to {
        return None;
    }
    Some(Span {
        key,
        from: from as u32,
        to: to as u32,
    })
}

/// The record of a cell, added up from its bodies.
pub fn summed(bodies: &[Body], span: Span) -> CellRec
    requires order { IsInOrder bodies.now }
    requires few { length bodies.now < 2 ^ 32 }
    requires light { mass_of bodies.now ≤ max_all_mass }
    requires span { IsSpan bodies.now span }
    ensures value { result ≡ trees.cell_record bodies.now span.key }
{
    of_inside(span.key, &bodies[span.from as usize..span.to as usize])
}

/// The record of a cell, added up from its bodies; None exactly where there are none.
pub fn record_in(bodies: &[Body], key: u64) -> Option<CellRec>
    requires order { IsInOrder bodies.now }
    requires few { length bodies.now < 2 ^ 32 }
    requires light { mass_of bodies.now ≤ max_all_mass }
    requires cell { IsCell key }
    ensures value { result ≡ trees.record_at bodies.now key }
{
    match span_of(bodies, key) {
        Some(span) => Some(summed(bodies, span)),
        None => None,
    }
}

/// Whether a cell has more bodies than the leaf limit, and children.
pub fn is_parted(span: Span, leaf: u32) -> bool
    requires cell { IsCell span.key }
    requires ascending { span.from ≤ span.to }
    ensures upper { IsTrue result → keys.level span.key < max_level }
{
    span.to - span.from > leaf && level(span.key) < MAX_LEVEL
}

/// The cells of more bodies than the leaf limit and their children, level by level and each level
/// by ascending key, up to so many.
pub fn spans_of(
    alloc: Global,
    bodies: &[Body],
    leaf: u32,
    room: usize,
) -> Result<Vec<Span>, AllocError>
    requires order { IsInOrder bodies.now }
    requires few { length bodies.now < 2 ^ 32 }
    ensures spans { IfOk result (λ v. All (IsSpan bodies.now) v.items) }
{
    let mut spans = Vec::with_capacity(alloc, room)?;
    if let Some(root) = span_of(bodies, 1) {
        spans.push(root)?;
    }
    for k in 0..room {
        if k >= spans.len() {
            return Ok(spans);
        }
        let span = spans[k];
        push_children(bodies, &mut spans, span, leaf, room)?;
    }
    Ok(spans)
}

/// Adds the children of a parted cell that have bodies, by ascending key, while there is room.
/// Where a child's bodies end, the next one's begin: a binary search for each child, among the
/// bodies of the cell.
fn push_children(
    bodies: &[Body],
    spans: &mut Vec<Span>,
    span: Span,
    leaf: u32,
    room: usize,
) -> Result<(), AllocError>
    requires order { IsInOrder bodies.now }
    requires few { length bodies.now < 2 ^ 32 }
    requires span { IsSpan bodies.now span }
    requires spans { All (IsSpan bodies.now) spans.old.items }
    ensures spans { IfOk result (λ _. All (IsSpan bodies.now) spans.new.items) }
{
    if !is_parted(span, leaf) {
        return Ok(());
    }
    let mut from = span.from;
    for digit in 0..8u64 {
        let key = child_of(span.key, digit);
        let to = count_within(bodies, last_key(key), from as usize, span.to as usize) as u32;
        push_some(spans, Span { key, from, to }, room)?;
        from = to;
    }
    Ok(())
}

/// Adds where a cell's bodies stand, if there are any, while there is room.
fn push_some(spans: &mut Vec<Span>, span: Span, room: usize) -> Result<(), AllocError>
    ensures spans { IfOk result (λ _. (bodies : List BodyValue)
        → All (IsSpan bodies) spans.old.items
        → (span.from < span.to → IsSpan bodies span) → All (IsSpan bodies) spans.new.items) }
{
    if span.from >= span.to {
        return Ok(());
    }
    if spans.len() >= room {
        return Ok(());
    }
    spans.push(span)?;
    Ok(())
}
