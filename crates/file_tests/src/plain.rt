// What the ranks of a walk do, by filters over the list of all bodies and the list of all cells.
ghost use Rattle.std.specs.Prelude.{◌≡◌};
ghost use Rattle.hot_units.specs.Keys as keys;

use fixed_kernel::ForceVisit;
use hot_model::{CellRec, Visit};
use hot_units::{Body, covers};
use key_order::Ordered;
use moments::{add, empty, of_body};
use morton_key::is_cell;
use rank_walk::Sharing;
use std::alloc::Global;
use std::process::Abort;

/// A cell with bodies: its record, whether it is a leaf, and the rank of its bodies where they have
/// but one.
#[derive(Clone, Copy)]
struct Cell {
    rec: CellRec,
    leaf: bool,
    owner: Option<usize>,
}

/// A body: its rank, and the keys of the cells that it opens.
#[derive(Drop)]
struct Walked {
    rank: usize,
    opened: Vec<u64>,
}

/// A world that was walked through.
#[derive(Drop)]
pub struct Plain {
    cells: Vec<Cell>,
    walked: Vec<Walked>,
    opened: Vec<u64>,
}

/// Whether a cell contains the key of a cell or body.
fn contains(rt: &impl Abort, cell: u64, key: u64) -> bool {
    assert!(rt; is_cell(cell) && is_cell(key));
    covers(cell, key)
}

/// Whether a cell contains a body.
fn is_inside(cell: u64, b: &Body) -> bool
    requires cell { keys.IsCell cell }
    ensures value { result ≡ keys.contains cell b.now }
{
    covers(cell, b.key)
}

/// The record of a cell: the sums over the bodies that it contains.
fn record_of(rt: &impl Abort, cell: u64, bodies: &[Body]) -> CellRec {
    assert!(rt; is_cell(cell));
    let mut rec = empty(cell);
    for b in bodies {
        if is_inside(cell, b) {
            let one = of_body(cell, b);
            assert!(rt; rec.count < 1000 && one.count < 1000);
            assert!(rt; rec.mass < 1 << 39 && one.mass < 1 << 39);
            assert!(rt; covers(rec.key, one.key));
            add(&mut rec, &one);
        }
    }
    rec
}

/// The work weight of a body: where all are 0 each counts as 1.
fn weight_of(set: &Ordered, b: &Body) -> u64 {
    if set.weights().iter().all(|w| *w == 0) {
        return 1;
    }
    let weight = set.weights().get(b.row as usize).copied();
    u64::from(weight.unwrap_or(0))
}

/// The rank of a body by the split rule: the weight below its key, times the ranks, over all
/// weight.
fn rank_of(set: &Ordered, ranks: u32, body: &Body) -> usize {
    let mut below: u64 = 0;
    let mut all: u64 = 0;
    for b in set.bodies() {
        all = all.saturating_add(weight_of(set, b));
        if b.key < body.key {
            below = below.saturating_add(weight_of(set, b));
        }
    }
    let share = below.saturating_mul(u64::from(ranks)).checked_div(all);
    share.unwrap_or(0).min(u64::from(ranks.saturating_sub(1))) as usize
}

/// The rank of all bodies of a cell, where they have but one.
fn owner_of(rt: &impl Abort, cell: u64, bodies: &[Body], ranks: &[usize]) -> Option<usize> {
    let mut owner = None;
    for (b, rank) in bodies.iter().zip(ranks.iter()) {
        if contains(rt, cell, b.key) {
            match owner {
                None => owner = Some(*rank),
                Some(other) if other == *rank => {}
                Some(_) => return None,
            }
        }
    }
    owner
}

/// The keys of all cells that contain a body.
fn keys_of(rt: &impl Abort, alloc: Global, bodies: &[Body]) -> Vec<u64> {
    let mut keys = Vec::new(alloc);
    for b in bodies {
        let mut key = b.key;
        for _level in 0..22 {
            if !keys.contains(&key) {
                keys.push(key).expect(rt, "memory");
            }
            key >>= 3;
        }
    }
    keys
}

/// Whether the body opens the cell and each cell above it, none of which is a leaf.
fn visits_and_opens(rt: &impl Abort, cell: &Cell, tests: &[(Cell, bool)]) -> bool {
    for (above, open) in tests {
        if contains(rt, above.rec.key, cell.rec.key) {
            if !*open || (above.leaf && above.rec.key != cell.rec.key) {
                return false;
            }
        }
    }
    true
}

/// The keys of the cells that a body opens.
fn opened_by(
    rt: &impl Abort,
    alloc: Global,
    visit: ForceVisit,
    b: &Body,
    cells: &[Cell],
) -> Vec<u64> {
    let mut tests = Vec::new(alloc);
    for cell in cells {
        assert!(rt; cell.rec.count > 0);
        tests
            .push((*cell, visit.opens(b, &cell.rec)))
            .expect(rt, "memory");
    }
    let mut opened = Vec::new(alloc);
    for cell in cells {
        if visits_and_opens(rt, cell, &tests) {
            opened.push(cell.rec.key).expect(rt, "memory");
        }
    }
    opened
}

/// The world of a set that is shared out.
pub fn plain_of(
    rt: &impl Abort,
    alloc: Global,
    set: &Ordered,
    sharing: Sharing,
    visit: ForceVisit,
) -> Plain {
    let bodies = set.bodies();
    let mut ranks = Vec::new(alloc);
    for b in bodies {
        ranks
            .push(rank_of(set, sharing.ranks, b))
            .expect(rt, "memory");
    }
    let mut cells = Vec::new(alloc);
    for key in keys_of(rt, alloc, bodies) {
        let rec = record_of(rt, key, bodies);
        let leaf = rec.count <= sharing.leaf || key >= 1 << 63;
        let owner = owner_of(rt, key, bodies, &ranks);
        cells.push(Cell { rec, leaf, owner }).expect(rt, "memory");
    }
    let mut walked = Vec::new(alloc);
    let mut all = Vec::new(alloc);
    for (b, rank) in bodies.iter().zip(ranks.iter()) {
        let opened = opened_by(rt, alloc, visit, b, &cells);
        for key in &opened {
            if !all.contains(key) {
                all.push(*key).expect(rt, "memory");
            }
        }
        walked
            .push(Walked {
                rank: *rank,
                opened,
            })
            .expect(rt, "memory");
    }
    Plain {
        cells,
        walked,
        opened: all,
    }
}

impl Plain {
    /// How many bodies a rank has.
    pub fn bodies_of(&self, rank: usize) -> usize {
        self.walked.iter().filter(|w| w.rank == rank).count()
    }

    /// How many cells the bodies of a rank open, each body for itself.
    pub fn opened_by_rank(&self, rank: usize) -> u64 {
        let mut sum: u64 = 0;
        for walked in &self.walked {
            if walked.rank == rank {
                sum = sum.saturating_add(walked.opened.len() as u64);
            }
        }
        sum
    }

    /// Whether some body opens the cell.
    pub fn opens(&self, key: u64) -> bool {
        self.opened.contains(&key)
    }

    /// The keys of the cells that some body opens.
    pub fn opened_keys(&self) -> &[u64] {
        &self.opened
    }

    /// Whether the cell is all of one rank, and the root or in a cell that is not.
    fn is_branch(&self, cell: &Cell) -> bool {
        let above = cell.rec.key >> 3;
        cell.owner.is_some()
            && !self
                .cells
                .iter()
                .any(|c| c.rec.key == above && c.owner.is_some())
    }

    /// Whether one of the keys is that of a leaf that properly contains the cell.
    fn is_in_leaf(&self, rt: &impl Abort, cell: &Cell, keys: &[u64]) -> bool {
        for leaf in &self.cells {
            if leaf.leaf
                && keys.contains(&leaf.rec.key)
                && leaf.rec.key != cell.rec.key
                && contains(rt, leaf.rec.key, cell.rec.key)
            {
                return true;
            }
        }
        false
    }

    /// Whether a rank needs the cell: it is of another rank, and some body of the rank opens it, or
    /// it is a branch in a leaf that such a body opens.
    fn is_needed(&self, rt: &impl Abort, cell: &Cell, rank: usize) -> bool {
        if cell.owner.is_none() || cell.owner == Some(rank) {
            return false;
        }
        for walked in &self.walked {
            if walked.rank == rank {
                if walked.opened.contains(&cell.rec.key)
                    || (self.is_branch(cell) && self.is_in_leaf(rt, cell, &walked.opened))
                {
                    return true;
                }
            }
        }
        false
    }

    /// How many cells a rank needs.
    pub fn needed_by_rank(&self, rt: &impl Abort, rank: usize) -> u64 {
        let mut sum: u64 = 0;
        for cell in &self.cells {
            if self.is_needed(rt, cell, rank) {
                sum = sum.saturating_add(1);
            }
        }
        sum
    }

    /// How many cells some body opens, or are branches.
    pub fn met(&self) -> u64 {
        let mut met: u64 = 0;
        for cell in &self.cells {
            if self.opens(cell.rec.key) || self.is_branch(cell) {
                met = met.saturating_add(1);
            }
        }
        met
    }

    /// How many rounds there are at most.
    pub fn bound(&self, ranks: u32) -> u64 {
        let ranks = u64::from(ranks);
        let in_all = ranks.saturating_add(self.met().saturating_mul(2));
        ranks
            .saturating_sub(1)
            .saturating_mul(in_all)
            .saturating_add(1)
    }
}
