ghost use Rattle.body_set.specs.Laws as laws;

/// A set to which rows are added one by one holds what the list of these rows gives, in order; so
/// rows of one list and then of another give what both lists give as one.
#[tactic(auto, using(crate::proofs::Adding::rows_add_up))]
pub fn rows_add_up()
    ensures law { laws.RowsAddUp }
{}
