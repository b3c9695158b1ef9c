ghost use Rattle.std.specs.Prelude.{◌≡◌, ◌≤◌, ◌<◌, ◌++◌, ◌∷◌, [], IfOk, OnOk, OnErr, IfSome, IsNone};
ghost use Rattle.std.specs.Prelude.{ℕ, suc, length, get_or};
ghost use Rattle.cell_hash.specs.Limits.{min_bits, max_bits};
ghost use Rattle.cell_hash.specs.Chains.{AreChains, IsOnWay};
ghost use Rattle.cell_hash.specs.Entries.{StandsAt, IsAbsentFrom};

use std::alloc::{AllocError, Global};
use std::marker::Model;

/// Keys in the order in which they came, in buckets by their low bits. A slot holds the place
/// behind a key, or 0: each bucket has one for its first key, and behind them each key has two, for
/// the next key of its bucket whose next bit is 0, and is 1. Clauses see the list of keys.
#[derive(Drop)]
pub struct Chains {
    mask: u64,
    bits: u32,
    keys: Vec<u64>,
    slots: Vec<u32>,
}

impl Model for Chains {
    ghost use Rattle.std.specs.Prelude.{List, ℕ};
    ghost use Rattle.cell_hash.specs.Chains.{AreChains};

    ghost Value = { List ℕ };

    ghost view = { λ c. c.keys.items };

    ghost invariant = { λ c. AreChains c.mask c.bits c.keys.items c.slots.items };
}

/// The slot where the search for a key ends: an empty one, or the one that names its place.
fn slot_of(mask: u64, bits: u32, keys: &[u64], slots: &[u32], key: u64) -> usize
    requires chains { AreChains mask bits keys.now slots.now }
    ensures within { result < length slots.now }
    ensures way { IsOnWay mask bits slots.now key result }
    ensures found { (place : ℕ) → get_or slots.now result 0 ≡ suc place → StandsAt keys.now place key }
    ensures absent { get_or slots.now result 0 ≡ 0 → IsAbsentFrom keys.now 0 key }
{
    let first_behind = mask as usize + 1;
    let mut rest = key >> bits;
    let mut slot = (key & mask) as usize;
    loop {
        let behind = slots[slot] as usize;
        if behind == 0 || keys[behind - 1] == key {
            return slot;
        }
        slot = first_behind + 2 * (behind - 1) + (rest % 2) as usize;
        rest /= 2;
    }
}

impl Chains {
    /// No keys, in 2 to the power of `bits` buckets.
    pub fn new(alloc: Global, bits: u32) -> Result<Chains, AllocError>
        requires bits { (min_bits ≤ bits) × (bits ≤ max_bits) }
        ensures value { IfOk result (λ chains. chains ≡ []) }
    {
        let buckets: usize = 1 << bits;
        Ok(Chains {
            mask: (buckets - 1) as u64,
            bits,
            keys: Vec::new(alloc),
            slots: Vec::from_elem(alloc, 0, buckets)?,
        })
    }

    /// How many keys there are.
    pub fn len(&self) -> usize
        ensures value { result ≡ length self.now }
    {
        self.keys.len()
    }

    /// A place of a key, by the chain of its bucket; None exactly where it is absent.
    pub fn find(&self, key: u64) -> Option<usize>
        ensures found { IfSome result (λ place. StandsAt self.now place key) }
        ensures none { IsNone result → IsAbsentFrom self.now 0 key }
    {
        let slot = slot_of(self.mask, self.bits, &self.keys, &self.slots, key);
        match self.slots[slot] {
            0 => None,
            behind => Some((behind - 1) as usize),
        }
    }

    /// Adds a key that is absent behind the others. Where memory runs out nothing is added.
    pub fn push(&mut self, key: u64) -> Result<(), AllocError>
        requires absent { IsAbsentFrom self.old 0 key }
        ensures ok { OnOk result (self.new ≡ self.old ++ key ∷ []) }
        ensures err { OnErr result (self.new ≡ self.old) }
    {
        let Ok(behind) = u32::try_from(self.keys.len() + 1) else {
            return Err(AllocError);
        };
        let slot = slot_of(self.mask, self.bits, &self.keys, &self.slots, key);
        self.keys.reserve(1)?;
        self.slots.extend_from_slice(&[0, 0])?;
        self.keys.push_reserved(key);
        self.slots[slot] = behind;
        Ok(())
    }
}
