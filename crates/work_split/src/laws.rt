ghost use Rattle.work_split.specs.Laws as laws;

/// The ranges of the ranks join to the whole list: the first begins at 0, each begins where the one
/// before it ends, and the last ends with the list.
#[tactic(auto, using(crate::proofs::Cuts::pieces_join))]
pub fn pieces_join()
    ensures law { laws.PiecesJoin }
{}

/// A set that is split is a good world: its ranks are below their number, and never fall along the
/// keys.
#[tactic(auto, using(crate::proofs::Cuts::pieces_make_a_world))]
pub fn pieces_make_a_world()
    ensures law { laws.PiecesMakeAWorld }
{}
