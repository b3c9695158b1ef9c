// The words after the program's name.
ghost use Rattle.std.specs.Prelude.{◌≡◌, ◌≤◌, [], ◌∷◌, ◌++◌, length, OnOk, OnErr, MatchOption};
ghost use Rattle.std.specs.Prelude.{Some, slice_get};

use std::alloc::{AllocError, Global};
use std::marker::Model;

/// A list of words. Clauses see it as the list of their texts.
#[derive(Drop)]
pub struct WordList {
    alloc: Global,
    words: Vec<String>,
}

impl Model for WordList {
    ghost use Rattle.std.specs.Prelude.{List, ℕ, map, string_bytes};

    ghost Value = { List (List ℕ) };

    ghost view = { λ w. map string_bytes w.words.items };
}

impl WordList {
    /// The empty list. It takes no memory.
    pub fn new(alloc: Global) -> WordList
        ensures empty { result ≡ [] }
    {
        WordList {
            alloc,
            words: Vec::new(alloc),
        }
    }

    /// Adds a copy of a word at the end. Where memory runs out the list is unchanged.
    pub fn push(&mut self, word: &str) -> Result<(), AllocError>
        ensures appended { OnOk result (self.new ≡ self.old ++ word.now ∷ []) }
        ensures unchanged { OnErr result (self.new ≡ self.old) }
    {
        let word = String::from_str(self.alloc, word)?;
        self.words.push(word)?;
        Ok(())
    }

    /// How many words there are. It takes no memory.
    pub fn len(&self) -> usize
        ensures length { result ≡ length self.now }
    {
        self.words.len()
    }

    /// The word at a place, counted from 0; None exactly past the last. It takes no memory.
    pub fn get(&self, i: usize) -> Option<&str>
        ensures word { MatchOption result (length self.now ≤ i)
            (λ word. slice_get self.now i ≡ Some word.now) }
    {
        match self.words.get(i) {
            Some(word) => Some(word.as_str()),
            None => None,
        }
    }
}
