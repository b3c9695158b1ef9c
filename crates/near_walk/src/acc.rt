ghost use Rattle.std.specs.Prelude.{◌≡◌, ◌+◌, ◌<◌, ◌≤◌, [], length, leb, count_by, MatchResult};
ghost use Rattle.std.specs.Prelude.{Some};
ghost use Rattle.std.specs.List.{slice_get};
ghost use Rattle.hot_units.specs.Limits.{max_all_mass};
ghost use Rattle.near_walk.specs.Ascending.{ascending, inserted};
ghost use Rattle.near_walk.specs.Near.{near_nothing, near_value};

use hot_model::Seen;
use std::alloc::{AllocError, Global};
use std::marker::Model;

/// The accumulator of neighbours: the mass that a body has seen (at most 2^40 in every walk), and
/// the rows of its neighbours, ascending.
///
/// Clauses see the rows in their order. They are kept as they come, in a vector that doubles (about
/// 8 bytes a row at most), and `into_rows` sorts them once: to put each row into its place would
/// cost the square of their number.
#[derive(Drop)]
pub struct NearAcc {
    seen: u64,
    rows: Vec<u32>,
}

impl Model for NearAcc {
    ghost use Rattle.near_walk.specs.Ascending.{ascending};
    ghost use Rattle.near_walk.specs.Near.{NearValue};

    ghost Value = { NearValue };

    ghost view = { λ a. record { seen = a.seen; rows = ascending a.rows.items } };
}

/// How many of the rows are at most `row`.
fn rank(rows: &[u32], row: u32) -> usize
    ensures value { result ≡ count_by (λ r. leb r row) rows.now }
{
    rows.iter().filter(|r| **r <= row).count()
}

/// The row at a place of the ascending list, by halving the numbers that it may be.
fn pick(rows: &[u32], i: usize) -> u32
    requires within { i < length rows.now }
    ensures value { slice_get (ascending rows.now) i ≡ Some result }
{
    let mut low = 0;
    let mut high = u32::MAX;
    while low < high {
        let middle = low + (high - low) / 2;
        if rank(rows, middle) > i {
            high = middle;
        } else {
            low = middle + 1;
        }
    }
    low
}

impl NearAcc {
    /// Nothing was seen yet. It takes no memory.
    pub(crate) fn new(alloc: Global) -> Self
        ensures value { result ≡ near_nothing }
    {
        NearAcc {
            seen: 0,
            rows: Vec::new(alloc),
        }
    }

    /// Adds mass to what was seen. It takes no memory.
    pub(crate) fn see(&mut self, mass: u64)
        requires room { self.old.seen + mass ≤ max_all_mass }
        ensures value { self.new ≡ near_value (self.old.seen + mass) self.old.rows }
    {
        self.seen += mass;
    }

    /// Adds a row. Where memory runs out the accumulator is unchanged.
    pub(crate) fn insert(&mut self, row: u32) -> Result<(), AllocError>
        ensures inserted_or_unchanged { MatchResult result
            (λ _. self.new ≡ near_value self.old.seen (inserted row self.old.rows))
            (λ _. self.new ≡ self.old) }
    {
        self.rows.push(row)?;
        Ok(())
    }

    /// How many neighbours there are. It takes no memory.
    pub fn len(&self) -> usize
        ensures value { result ≡ length self.now.rows }
    {
        self.rows.len()
    }

    /// The row at a place of the ascending list, counted from 0; None exactly past the last. It
    /// takes no memory.
    ///
    /// It goes over all rows 32 times, since they are not kept in order: to read many, take them by
    /// `into_rows`.
    pub fn row(&self, i: usize) -> Option<u32>
        ensures value { result ≡ slice_get self.now.rows i }
    {
        if i < self.rows.len() {
            Some(pick(&self.rows, i))
        } else {
            None
        }
    }

    /// All rows, ascending. It sorts them in place, once, and takes no memory.
    pub fn into_rows(self) -> Vec<u32>
        ensures value { result.items ≡ self.rows }
    {
        let mut rows = self.rows;
        rows.sort_unstable();
        rows
    }
}

impl Seen for NearAcc {
    ghost seen_of = { λ a. a.seen };

    fn seen(&self) -> u64 {
        self.seen
    }
}
