ghost use Rattle.near_walk.specs.Laws as laws;

/// A cell that is not opened has no body within the radius: each of its bodies lies in its box, and
/// is no nearer than that.
pub fn none_unopened()
    ensures law { laws.NoneUnopened }
{}

/// The law of the visit of neighbours: whatever the radius, the leaf limit and the bodies, which lie
/// in the cube, the recursive walk of their tree (Barnes and Hut, 1986) ends for a body with the
/// rows that a filter over the whole list gives, ascending, and has then seen the mass of all
/// bodies. No two rows need differ for it, and no mass is too large.
pub fn neighbours_by_filter()
    ensures law { laws.NeighboursByFilter }
{}

/// What the filter gives: where no two bodies have the same row, each row is below the next, and the
/// rows are exactly those of the bodies of another row within the radius.
pub fn rows_of_neighbours()
    ensures law { laws.RowsOfNeighbours }
{}
