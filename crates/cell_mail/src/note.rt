// What is kept of a letter that was taken.
ghost use Rattle.std.specs.Prelude.{◌≡◌, IfOk};
ghost use Rattle.cell_mail.specs.Notes.{note_of};

use crate::{Kind, Letter};
use hot_units::KeyList;
use std::alloc::{AllocError, Global};

/// What the log of a wire keeps of a letter that was taken: its sender, its receiver, its kind and
/// the keys of its items, in their order.
#[derive(Drop)]
pub struct Note {
    pub from: u32,
    pub to: u32,
    pub kind: Kind,
    pub keys: KeyList,
}

impl Note {
    /// The note of a letter. The error is want of memory.
    pub fn of(alloc: Global, letter: &Letter) -> Result<Note, AllocError>
        ensures note { IfOk result (λ n. n ≡ note_of letter.now) }
    {
        let mut keys = KeyList::new(alloc);
        for i in 0..letter.count() {
            let Some(key) = letter.key(i) else {
                unreachable!()
            };
            keys.push(key)?;
        }
        Ok(Note {
            from: letter.from(),
            to: letter.to(),
            kind: letter.kind(),
            keys,
        })
    }
}
