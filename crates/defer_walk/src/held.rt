ghost use Rattle.std.specs.Prelude.{◌≡◌, ◌≤◌, ◌++◌, IfOk};
ghost use Rattle.defer_walk.specs.Grouping.{places_to};

use smallvec::SmallVec;
use std::alloc::{AllocError, Global};

/// Bodies, by their places in the piece, that waited for a cell, by its key: each is to be tested,
/// or each is to be added whole.
#[derive(Drop)]
pub struct Held {
    pub key: u64,
    pub whole: bool,
    pub bodies: SmallVec<u32, 4>,
}

/// The places from one up to another, which is not among them.
pub fn list_places(alloc: Global, from: u32, to: u32) -> Result<Vec<u32>, AllocError>
    requires order { from ≤ to }
    ensures value { IfOk result (λ places. places_to from ++ places.items ≡ places_to to) }
{
    let mut places = Vec::with_capacity(alloc, (to - from) as usize)?;
    for body in from..to {
        places.push(body)?;
    }
    Ok(places)
}
