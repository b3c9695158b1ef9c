ghost use Rattle.moments.specs.Sums.{RecordsJoin};

/// Records add up as the lists of their bodies do: the sums of two lists are those of both lists
/// together.
#[tactic(auto, using(crate::proofs::Joins::records_join))]
pub fn sums_join()
    ensures law { RecordsJoin }
{}
