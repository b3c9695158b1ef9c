ghost use Rattle.std.specs.Prelude.{◌≡◌, ◌++◌, ◌∷◌, [], length, IfOk, MatchResult, MatchOption};
ghost use Rattle.std.specs.List.{slice_get};
ghost use Rattle.std.specs.Option.{option_copied};

use crate::Body;
use std::alloc::{AllocError, Global};
use std::marker::Model;

/// A list that grows at its end. Clauses see it as the list of its items.
#[derive(Drop)]
pub struct Items<T> {
    items: Vec<T>,
}

impl<T> Model for Items<T> {
    ghost use Rattle.std.specs.Prelude.{List};

    ghost Value = { List T };

    ghost view = { λ l. l.items.items };
}

/// Bodies.
pub type BodyList = Items<Body>;

/// Keys of cells.
pub type KeyList = Items<u64>;

impl<T> Items<T> {
    /// The empty list. It takes no memory.
    pub fn new(alloc: Global) -> Self
        ensures empty { result ≡ [] }
    {
        Items {
            items: Vec::new(alloc),
        }
    }

    /// The empty list, with room for exactly so many items.
    pub fn with_capacity(alloc: Global, capacity: usize) -> Result<Self, AllocError>
        ensures empty { IfOk result (λ l. l ≡ []) }
    {
        Ok(Items {
            items: Vec::with_capacity(alloc, capacity)?,
        })
    }

    /// Adds an item at the end. Where memory runs out the list is unchanged and the item is
    /// dropped.
    pub fn push(&mut self, item: T) -> Result<(), AllocError>
    where
        T: Drop,
        ensures appended_or_unchanged { MatchResult result (λ _. self.new ≡ self.old ++ item ∷ [])
            (λ _. self.new ≡ self.old) }
    {
        match self.items.push(item) {
            Ok(()) => Ok(()),
            Err(_) => Err(AllocError),
        }
    }

    /// Takes off the last item; None exactly where the list is empty. It takes no memory.
    pub fn pop(&mut self) -> Option<T>
        ensures last { MatchOption result ((self.old ≡ []) × (self.new ≡ []))
            (λ x. self.old ≡ self.new ++ x ∷ []) }
    {
        self.items.pop()
    }

    /// How many items there are.
    pub fn len(&self) -> usize
        ensures length { result ≡ length self.now }
    {
        self.items.len()
    }

    /// The item at a place, counted from 0; None exactly past the last.
    pub fn get(&self, i: usize) -> Option<&T>
        ensures item { option_copied result ≡ slice_get self.now i }
    {
        self.items.get(i)
    }

    /// The items, where they lie.
    pub fn as_slice(&self) -> &[T]
        ensures items { result.now ≡ self.now }
    {
        self.items.as_slice()
    }
}
