// What the ranks found, together.
ghost use Rattle.std.specs.Prelude.{◌≡◌, IfOk, OnOk};
ghost use Rattle.rank_core.specs.Seats.{IsFinished};
ghost use Rattle.protocol.specs.Joint.{AllFinished};
ghost use Rattle.protocol.specs.Ranks.{seats, ArePlaced};
ghost use Rattle.rank_set.specs.Standing.{FitAWorld, AreFoundTogether, AddsRank};

use hot_model::Visit;
use rank_core::Rank;
use std::alloc::{AllocError, Global};

/// What one rank did in a walk.
///
/// `rank` is its number, from 0, and `bodies` how many bodies its piece has. `opened` counts the
/// pairs of one of these bodies and a cell that the body opens, from the root down: an opened leaf
/// counts once, and no cell below it counts. `asks` is how many cells of other ranks it asked for,
/// each of them once.
#[derive(Clone, Copy)]
pub struct Effort {
    pub rank: u32,
    pub bodies: usize,
    pub opened: u64,
    pub asks: u64,
}

/// What a walk over ranks found.
///
/// `accs` has the accumulator of each body, in key order, and `efforts` what each rank did, by
/// ascending rank. `opened` has the key of each cell that some body opens, once or more often, and
/// no other. `rounds` is how many rounds the run took, the last one with it.
#[derive(Drop)]
pub struct Found<A> {
    pub accs: Vec<A>,
    pub efforts: Vec<Effort>,
    pub opened: Vec<u64>,
    pub rounds: u64,
}

/// Adds what one rank found to what those before it found.
fn add_rank<V: Visit>(found: &mut Found<V::Acc>, rank: Rank<V>) -> Result<(), AllocError>
    requires finished { IsFinished rank }
    ensures added { OnOk result (AddsRank V.Visit V.Acc.Seen rank found.old found.new) }
    ensures rounds { found.new.rounds ≡ found.old.rounds }
{
    let me = rank.me();
    let mut result = rank.into_results()?;
    found.efforts.push(Effort {
        rank: me,
        bodies: result.accs.len(),
        opened: result.opened,
        asks: result.asks,
    })?;
    found.accs.append(&mut result.accs)?;
    found.opened.extend_from_slice(result.cells.as_slice())?;
    Ok(())
}

/// What all ranks found, by ascending rank, once they are finished. `rounds`, how many rounds the
/// run took, is told beside it.
///
/// In each world for which the ranks stand together these are the folds of its bodies, in key
/// order, what each rank did, and the cells that some body opens. The error is want of memory.
pub fn gather<V: Visit>(
    alloc: Global,
    ranks: Vec<Rank<V>>,
    rounds: u64,
) -> Result<Found<V::Acc>, AllocError>
    requires together { FitAWorld V.Visit V.Acc.Seen ranks.items }
    requires finished { AllFinished (seats ranks.items) }
    requires placed { ArePlaced ranks.items }
    ensures finds { IfOk result (AreFoundTogether V.Visit V.Acc.Seen ranks.items) }
    ensures rounds { IfOk result (λ f. f.rounds ≡ rounds) }
{
    let mut found = Found {
        accs: Vec::new(alloc),
        efforts: Vec::new(alloc),
        opened: Vec::new(alloc),
        rounds,
    };
    for rank in ranks {
        add_rank(&mut found, rank)?;
    }
    Ok(found)
}
