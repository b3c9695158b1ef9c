ghost use Rattle.local_tree.specs.Laws as laws;

/// A piece knows its own cells by its two neighbouring keys: a cell is its own exactly where it has
/// bodies and all of them, among all bodies, are in the piece.
pub fn homes_are_own()
    ensures law { laws.HomesAreOwn }
{}

/// A cell that has bodies is a piece's own exactly where all its body keys are between the two
/// neighbouring keys.
pub fn own_cells_are_between()
    ensures law { laws.OwnCellsAreBetween }
{}

/// Of a cell whose bodies are all in one piece, the piece gives the bodies, the record and the
/// answer that the tree over all bodies gives.
pub fn own_cells_are_whole()
    ensures law { laws.OwnCellsAreWhole }
{}

/// The outermost own cells of a piece are the branch cells of its rank (Warren and Salmon, 1993),
/// each with its record over all bodies.
pub fn homes_give_branches()
    ensures law { laws.HomesGiveBranches }
{}

/// The list of the cells that have bodies, level by level, has each of them once, by strictly
/// ascending key, and at most 22 for each body.
pub fn cells_are_listed()
    ensures law { laws.CellsAreListed }
{}

/// The list of the branches of a rank has each of its branch cells once, by strictly ascending key:
/// each cell with bodies, all of the rank, that is the root or whose parent has a body of another
/// rank.
pub fn branches_are_listed()
    ensures law { laws.BranchesAreListed }
{}
