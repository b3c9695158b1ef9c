ghost use Rattle.std.specs.Prelude.{◌≡◌, ◌≤◌, ◌++◌, ◌∷◌, [], IfOk, OnOk, OnErr, IsOk, IfErr, IsErr};
ghost use Rattle.std.specs.Prelude.{IsSome};
ghost use Rattle.std.specs.FinMap as map;
ghost use Rattle.std.specs.Option.{option_copied, option_copied_mut};
ghost use Rattle.std.specs.Borrow.{sem};
ghost use Rattle.cell_hash.specs.Limits.{min_bits, max_bits};
ghost use Rattle.cell_hash.specs.Entries.{IsAbsentFrom};

use crate::chains::Chains;
use std::alloc::{AllocError, Global};
use std::marker::Model;
use std::mem;

/// A key and a value that found no memory, handed back.
#[derive(Drop)]
pub struct InsertRefused<T> {
    pub key: u64,
    pub value: T,
}

/// A finite map from keys to values, by hashing with a digital search tree in each bucket (Knuth,
/// volume 3): the low bits of a key choose its bucket, and the bits above them, one a step, the way
/// down its chain. So the time of a look-up is bounded by the bits of a key, also where many keys
/// have equal low bits.
#[derive(Drop)]
pub struct CellTable<T> {
    chains: Chains,
    values: Vec<T>,
}

impl<T> Model for CellTable<T> {
    ghost use Rattle.std.specs.Prelude.{◌≡◌, length};
    ghost use Rattle.std.specs.Ordering.{nat_cmp};
    ghost use Rattle.std.specs.FinMap as map;
    ghost use Rattle.std.specs.Coded.{coded_ℕ};
    ghost use Rattle.cell_hash.specs.Entries.{pairs_of, AreApart};

    ghost Value = { map.FinMap nat_cmp T };

    ghost coded = { map.code coded_ℕ T.code };

    ghost view = { λ t. map.from_entries (pairs_of t.chains t.values.items) };

    ghost invariant = { λ t. (length t.values.items ≡ length t.chains) × AreApart t.chains };
}

/// Adds a key and its value behind the others. Where memory runs out nothing is added, and both are
/// handed back.
fn add<T: Drop>(
    chains: &mut Chains,
    values: &mut Vec<T>,
    key: u64,
    value: T,
) -> Result<(), InsertRefused<T>>
    requires absent { IsAbsentFrom chains.old 0 key }
    ensures key { OnOk result (chains.new ≡ chains.old ++ key ∷ []) }
    ensures value { OnOk result (values.new.items ≡ values.old.items ++ value ∷ []) }
    ensures refused { IfErr result (λ r. (r.key ≡ key) × (r.value ≡ value)) }
    ensures same_keys { OnErr result (chains.new ≡ chains.old) }
    ensures same_values { OnErr result (values.new.items ≡ values.old.items) }
{
    if values.reserve(1).is_err() || chains.push(key).is_err() {
        return Err(InsertRefused { key, value });
    }
    let _ = values.push(value);
    Ok(())
}

impl<T: Drop> CellTable<T> {
    ghost use Rattle.cell_hash.specs.Lends.{LendsValue};

    /// An empty table, with 2 to the power of `bits` buckets.
    pub fn new(alloc: Global, bits: u32) -> Result<CellTable<T>, AllocError>
        requires bits { (min_bits ≤ bits) × (bits ≤ max_bits) }
        ensures value { IfOk result (λ table. table ≡ map.empty) }
    {
        Ok(CellTable {
            chains: Chains::new(alloc, bits)?,
            values: Vec::new(alloc),
        })
    }

    /// Sets the value of a key, and answers the one that it had; None exactly where it was absent.
    /// To replace a value takes no memory. Where memory runs out the table is as it was.
    pub fn insert(&mut self, key: u64, value: T) -> Result<Option<T>, InsertRefused<T>>
        ensures was { IfOk result (λ was. was ≡ map.get self.old key) }
        ensures ok { OnOk result (self.new ≡ map.insert self.old key value) }
        ensures refused { IfErr result (λ r. (r.key ≡ key) × (r.value ≡ value)) }
        ensures unchanged { IsErr result → self.new ≡ self.old }
        ensures replaces { IsSome (map.get self.old key) → IsOk result }
    {
        match self.chains.find(key) {
            Some(place) => Ok(Some(mem::replace(&mut self.values[place], value))),
            None => {
                add(&mut self.chains, &mut self.values, key, value)?;
                Ok(None)
            }
        }
    }

    /// The value of a key; None exactly where it is absent. It takes no memory.
    pub fn get(&self, key: u64) -> Option<&T>
        ensures value { option_copied result ≡ map.get self.now key }
    {
        match self.chains.find(key) {
            None => None,
            Some(place) => Some(&self.values[place]),
        }
    }

    /// The value of a key, to be written; None exactly where it is absent. It takes no memory.
    pub fn get_mut(&mut self, key: u64) -> Option<&mut T>
        ensures* writes_back { sem 𝓛 (LendsValue T.row self.entry key result) }
        ensures value { option_copied_mut result ≡ map.get self.old key }
    {
        match self.chains.find(key) {
            None => None,
            Some(place) => Some(&mut self.values[place]),
        }
    }

    /// How many keys there are. It takes no memory.
    pub fn len(&self) -> usize
        ensures value { result ≡ map.len self.now }
    {
        self.chains.len()
    }
}
