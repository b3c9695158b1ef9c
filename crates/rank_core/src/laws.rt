ghost use Rattle.rank_core.specs.Laws as laws;

use hot_model::Visit;

/// After any list of steps, letters taken and letters given out, in any order, a rank stands for
/// each world for which it stood and of which the letters that it took are true. Each letter that
/// came out is a true one of the rank, and its number, the number of ranks and its visit stay.
pub fn rank_stays_true<V: Visit>()
    ensures law { laws.StaysTrue V.Visit V.Acc.Seen }
{}

/// What a finished rank gives rests on its piece and the letters that it took alone: it is the same
/// in all worlds for which the rank stood at first and of which these letters are true.
pub fn results_rest_on_letters<V: Visit>()
    ensures law { laws.RestsOnLetters V.Visit V.Acc.Seen }
{}

/// A rank that stands for a world is finished exactly where its seat is: all branches were heard,
/// the walk is done, and both boxes are empty.
pub fn seat_tells_finished<V: Visit>()
    ensures law { laws.SeatsTell V.Visit V.Acc.Seen }
{}
