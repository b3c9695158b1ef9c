ghost use Rattle.std.specs.Prelude.{◌≡◌, ◌++◌, ℕ, List, Option, OnOk};
ghost use Rattle.std.specs.List.{flat_map};
ghost use Rattle.cell_mail.specs.Spelling.{counted};
ghost use Rattle.cell_mail.specs.Reading.{Gives, many, counted_at};

use crate::LetterError;
use crate::number::{put_count, u32_at};
use hot_units::Items;
use std::alloc::{AllocError, Global};

/// What stands in a letter, one behind the other.
pub(crate) trait Entry: Drop + Sized {
    /// The value at the front of bytes, and the bytes after it.
    ghost at: { List ℕ → Option (Self × List ℕ) };

    /// The bytes of a value.
    ghost spelled: { Self → List ℕ };

    /// Reads the value at the front of bytes.
    fn read(alloc: Global, bytes: &[u8]) -> Result<(Self, &[u8]), LetterError>
        ensures { Gives (λ x. (x.0, x.1.now)) result (at bytes.now) };

    /// Writes the bytes of the value at the end.
    fn write(&self, out: &mut Vec<u8>) -> Result<(), AllocError>
        ensures { OnOk result (out.new.items ≡ out.old.items ++ spelled self.now) };
}

/// So many entries at the front. The loop ends at the first that is not there, so a count that
/// claims more than there is costs nothing.
fn many_of<T: Entry>(
    alloc: Global,
    count: u32,
    bytes: &[u8],
) -> Result<(Items<T>, &[u8]), LetterError>
    ensures { Gives (λ x. (x.0, x.1.now)) result (many T.at count bytes.now) }
{
    let mut items: Items<T> = Items::new(alloc);
    let mut rest = bytes;
    for _ in 0..count {
        let (item, after) = T::read(alloc, rest)?;
        items.push(item)?;
        rest = after;
    }
    Ok((items, rest))
}

/// A number, and so many entries.
#[tactic(auto, unfolding(crate::specs::Reading::counted_at))]
pub(crate) fn counted_of<T: Entry>(
    alloc: Global,
    bytes: &[u8],
) -> Result<(Items<T>, &[u8]), LetterError>
    ensures { Gives (λ x. (x.0, x.1.now)) result (counted_at T.at bytes.now) }
{
    let (count, rest) = u32_at(bytes)?;
    many_of(alloc, count, rest)
}

/// Writes the number of entries, and the entries.
pub(crate) fn put_counted<T: Entry>(out: &mut Vec<u8>, items: &[T]) -> Result<(), AllocError>
    ensures { OnOk result (out.new.items ≡ out.old.items ++ counted T.spelled items.now) }
{
    put_count(out, items.len())?;
    for item in items {
        item.write(out)?;
    }
    Ok(())
}
