ghost use Rattle.pull_bound.specs.Brackets.{BracketsAreNarrow};
ghost use Rattle.pull_bound.specs.Laws.{
  CellsAreNear,
  ForcesAreNear,
  PullsAreNear,
  PullsPoint,
  PullsVanish,
  SharesAreSmall,
};

/// How near a component of a pull is to Newton's, softened after Plummer. With E for the exact
/// size in printed units, P for the printed size and s for the integer root of 2^20 times the
/// softened squared distance, `E < P + 1` and `P <= E * (s + 1) / s`: less than one unit too small,
/// or too large by at most one part in s, about 1,024 times the softened distance. It points
/// to the mass, and is 0 exactly where the floor is.
///
/// E is no whole number, so what is said of it is said by squares. The body does nothing: the
/// contract is the law.
pub fn pulls_are_near()
    ensures size { PullsAreNear }
    ensures toward { PullsPoint }
    ensures nowhere { PullsVanish }
{}

/// How near the force on a body is to the exact sum over all bodies, at ratio 0, where each pulls
/// by itself. Whatever the exact terms lie between, the printed number lies between the sums of
/// these: each term is less than one unit nearer to 0, or farther off by the share of a pull. All
/// shares together are at most the sum of sizes over 1,024 times the softening. There are such bounds
/// of the exact terms as narrow as is wanted: whole numbers of 1/q of a unit, one apart.
pub fn forces_are_near()
    ensures sums { ForcesAreNear }
    ensures shares { SharesAreSmall }
    ensures brackets { BracketsAreNarrow }
{}

/// How near the centre of a cell that is taken whole is to its bodies: less than the diagonal of
/// the cell, which is less than the ratio, times the root of 3, of the distance at which it is
/// taken. What its truncated field is off by follows from no law here.
pub fn cells_are_near()
    ensures law { CellsAreNear }
{}
