ghost use Rattle.std.specs.Prelude.{◌≡◌, ℕ, Bool, List, Option, None};
ghost use Rattle.hot_units.specs.Keys as keys;
ghost use Rattle.cell_mail.specs.Reading.{Gives, many, counted_at};
ghost use Rattle.cell_mail.specs.Skimming.{row_past};

use crate::LetterError;
use crate::entry::Entry;
use crate::limits::KEY_SIZE;
use crate::number::u32_at;
use hot_units::KeyList;
use std::alloc::Global;

/// What is tested where it lies, for its key alone.
pub(crate) trait Skim: Sized {
    /// The key at the front of bytes, and the bytes after its item.
    ghost key_at: { List ℕ → Option (ℕ × List ℕ) };

    /// The key of the item at the front of bytes, and the bytes after the item.
    fn skim(alloc: Global, bytes: &[u8]) -> Result<(u64, &[u8]), LetterError>
        ensures { Gives (λ x. (x.0, x.1.now)) result (key_at bytes.now) };
}

/// The keys of so many items at the front. The list has room for as many as there is place for in
/// the bytes, since an item takes its key at least: it is no larger than the bytes, whatever a
/// count claims, and never grows.
fn keys_of_many<T: Skim>(
    alloc: Global,
    count: u32,
    bytes: &[u8],
) -> Result<(KeyList, &[u8]), LetterError>
    ensures { Gives (λ x. (x.0, x.1.now)) result (many T.key_at count bytes.now) }
{
    let room = (count as usize).min(bytes.len() / KEY_SIZE);
    let mut keys = KeyList::with_capacity(alloc, room)?;
    let mut rest = bytes;
    for _ in 0..count {
        let (key, after) = T::skim(alloc, rest)?;
        keys.push(key)?;
        rest = after;
    }
    Ok((keys, rest))
}

/// A number, and the keys of so many items.
#[tactic(auto, unfolding(crate::specs::Reading::counted_at))]
pub(crate) fn counted_keys<T: Skim>(
    alloc: Global,
    bytes: &[u8],
) -> Result<(KeyList, &[u8]), LetterError>
    ensures { Gives (λ x. (x.0, x.1.now)) result (counted_at T.key_at bytes.now) }
{
    let (count, rest) = u32_at(bytes)?;
    keys_of_many::<T>(alloc, count, rest)
}

/// What stands in the answer for a cell, one behind the other.
pub(crate) trait Row: Entry {
    /// Whether a value may stand in the answer for a cell behind the one before it, if there is
    /// one.
    ghost stands: { ℕ → Option Self → Self → Bool };

    /// Whether the value may stand in the answer for a cell behind the one before it, if there is
    /// one.
    fn stands(&self, cell: u64, last: &Option<Self>) -> bool
        requires { keys.IsCell cell }
        ensures { result ≡ stands cell last.now self.now };
}

/// The bytes behind so many values of the answer for a cell.
pub(crate) fn behind_row<T: Row>(
    alloc: Global,
    cell: u64,
    count: u32,
    bytes: &[u8],
) -> Result<&[u8], LetterError>
    requires { keys.IsCell cell }
    ensures { Gives (λ x. x.now) result (row_past (T.stands cell) T.at count None bytes.now) }
{
    let mut last: Option<T> = None;
    let mut rest = bytes;
    for _ in 0..count {
        let (item, after) = T::read(alloc, rest)?;
        if !item.stands(cell, &last) {
            return Err(LetterError::NotALetter);
        }
        last = Some(item);
        rest = after;
    }
    Ok(rest)
}
