ghost use Rattle.branch_merge.specs.Laws as laws;

/// The branch lists of the ranks of a good world of at most 64 ranks can be merged.
pub fn true_lists_merge()
    ensures law { laws.TrueListsMerge }
{}

/// What is merged from the branch lists of all ranks of a good world is the top of the tree over
/// all bodies: the top cells are those of bodies of two or more ranks, each with its record over
/// all bodies and its children that have bodies, and the owner of a cell is the rank of the branch
/// that it is or lies in (Warren and Salmon, 1993).
pub fn merged_is_true()
    ensures law { laws.MergedIsTrue }
{}

/// The branch cells of all ranks part the bodies: each body lies in exactly one, which is one of
/// its rank.
pub fn bodies_have_one_branch()
    ensures law { laws.BodiesHaveOneBranch }
{}
