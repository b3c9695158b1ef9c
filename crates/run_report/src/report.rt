ghost use Rattle.std.specs.Prelude.{◌≡◌, ◌≤◌, List, length, IfOk};
ghost use Rattle.hot_units.specs.Limits.{max_ranks};
ghost use Rattle.wire.specs.declared.entry.Entry.{Entry};
ghost use Rattle.wire.specs.Desk.{letters_in, rounds_in};
ghost use Rattle.defer_walk.specs.Standing.{VisitOf};
ghost use Rattle.rank_set.specs.Sharings.{shared};
ghost use Rattle.rank_set.specs.Efforts.{AreFindsIn};
ghost use Rattle.run_report.specs.Report as reports;

use crate::cells::cells_in_play;
use branch_merge::Listed;
use key_order::Ordered;
use rank_set::{Effort, Found, Sharing};
use split_table::branches_of_ranks;
use std::alloc::{AllocError, Global};
use std::marker::Model;

/// What a run over ranks shows: what each rank did; the branches by ascending key, each with its
/// rank; how many letters and rounds there were; how many cells are in play, opened or branches;
/// and the bound on rounds.
#[derive(Drop)]
pub struct RunReport {
    efforts: Vec<Effort>,
    branches: Vec<Listed>,
    letters: u64,
    rounds: u64,
    cells: u64,
    bound: u128,
}

impl Model for RunReport {
    ghost use Rattle.std.specs.Prelude.{◌≤◌, length};
    ghost use Rattle.hot_units.specs.Limits.{max_ranks};
    ghost use Rattle.run_report.specs.Report.{ReportValue};

    ghost Value = { ReportValue };

    ghost view = { λ r. record {
      efforts = r.efforts.items;
      branches = r.branches.items;
      letters = r.letters;
      rounds = r.rounds;
      cells = r.cells;
      bound = r.bound;
    } };

    ghost invariant = { λ r. length r.efforts.items ≤ max_ranks };
}

/// The bound on rounds, for so many ranks and cells in play.
fn bound_of(ranks: u32, cells: u64) -> u128
    requires one { 1 ≤ ranks }
    requires many { ranks ≤ max_ranks }
    ensures value { result ≡ reports.most_rounds ranks cells }
{
    let ranks = u128::from(ranks);
    (ranks - 1) * (ranks + 2 * u128::from(cells)) + 1
}

impl RunReport {
    /// What a run on a set shows, by what its ranks found and how many letters were posted. What
    /// was opened and asked for, the cells in play and the bound are those of the definitions,
    /// letters and rounds those of the log. A refusal is want of memory.
    pub fn of<A>(
        alloc: Global,
        set: &Ordered,
        sharing: Sharing,
        found: &Found<A>,
        letters: u64,
    ) -> Result<RunReport, AllocError>
        requires found { (v : VisitOf A) × AreFindsIn v (shared set.now sharing)
            found.now.accs.items found.now.efforts.items found.now.opened.items }
        ensures value { IfOk result (λ r. (v : VisitOf A) (log : List Entry)
            → AreFindsIn v (shared set.now sharing)
            found.now.accs.items found.now.efforts.items found.now.opened.items
            → letters ≡ letters_in log → found.now.rounds ≡ rounds_in log
            → r ≡ reports.report_of v.opens (shared set.now sharing) log) }
    {
        let _in_order = set.bodies();
        let branches = branches_of_ranks(alloc, set, sharing.ranks)?;
        let cells = cells_in_play(alloc, &found.opened, &branches)?;
        let efforts = Vec::from_slice(alloc, &found.efforts)?;
        Ok(RunReport {
            efforts,
            branches,
            letters,
            rounds: found.rounds,
            cells,
            bound: bound_of(sharing.ranks, cells),
        })
    }

    /// What each rank did, by ascending rank.
    pub fn efforts(&self) -> &[Effort]
        ensures value { result.now ≡ self.now.efforts }
        ensures few { length result.now ≤ max_ranks }
    {
        self.efforts.as_slice()
    }

    /// The branches of all ranks, by ascending key.
    pub fn branches(&self) -> &[Listed]
        ensures value { result.now ≡ self.now.branches }
    {
        self.branches.as_slice()
    }

    /// How many letters were posted.
    pub fn letters(&self) -> u64
        ensures value { result ≡ self.now.letters }
    {
        self.letters
    }

    /// How many rounds there were.
    pub fn rounds(&self) -> u64
        ensures value { result ≡ self.now.rounds }
    {
        self.rounds
    }

    /// How many cells are in play.
    pub fn cells(&self) -> u64
        ensures value { result ≡ self.now.cells }
    {
        self.cells
    }

    /// The bound on rounds.
    pub fn bound(&self) -> u128
        ensures value { result ≡ self.now.bound }
    {
        self.bound
    }
}
