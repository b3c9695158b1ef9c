ghost use Rattle.std.specs.Prelude.{◌≡◌, ℕ, map, IfOk};
ghost use Rattle.cell_mail.specs.Grammar.{ascend};

use hot_model::{Answered, CellRec};
use hot_units::KeyList;
use std::alloc::{AllocError, Global};

/// What has the key of a cell.
pub(crate) trait Keyed {
    /// The key.
    ghost key_of: { Self → ℕ };

    /// The key.
    fn key(&self) -> u64
        ensures { result ≡ key_of self.now };
}

impl Keyed for u64 {
    ghost key_of = { λ k. k };

    fn key(&self) -> u64 {
        *self
    }
}

impl Keyed for CellRec {
    ghost key_of = { λ c. c.key };

    fn key(&self) -> u64 {
        self.key
    }
}

impl Keyed for Answered {
    ghost key_of = { λ a. a.key };

    fn key(&self) -> u64 {
        self.key
    }
}

/// Whether the keys ascend strictly, from above 0.
pub(crate) fn rise<T: Keyed>(items: &[T]) -> bool
    ensures { result ≡ ascend (map T.key_of items.now) }
{
    let mut last = 0;
    for item in items {
        let key = item.key();
        if key <= last {
            return false;
        }
        last = key;
    }
    true
}

/// The keys, in their order.
pub(crate) fn keys_of<T: Keyed>(alloc: Global, items: &[T]) -> Result<KeyList, AllocError>
    ensures { IfOk result (λ v. v ≡ map T.key_of items.now) }
{
    let mut keys = KeyList::with_capacity(alloc, items.len())?;
    for item in items {
        keys.push(item.key())?;
    }
    Ok(keys)
}
