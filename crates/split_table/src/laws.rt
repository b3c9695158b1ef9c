ghost use Rattle.split_table.specs.Laws as laws;

/// The lists of a table are what they are called: the listed branches are exactly the branch cells
/// of all ranks, each with its rank, and the listed top cells exactly the cells with bodies of two
/// or more ranks, each once, by strictly ascending key.
pub fn cells_are_shown()
    ensures law { laws.CellsAreShown }
{}
