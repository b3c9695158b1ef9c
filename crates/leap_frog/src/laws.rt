//! Steps can be taken back.

ghost use Rattle.leap_frog.specs.Laws.{StepsUndo};

/// Steps that keep all bodies in the cube, and then the same steps back, give the first state, to
/// the last bit, whatever law of places and masses gives the forces: a drift is odd in the
/// velocity, and a kick depends on places and masses alone. So the leapfrog is reversible in time
/// without any error of rounding.
///
/// The body does nothing: the contract is the law.
pub fn steps_undo()
    ensures law { StepsUndo }
{}
