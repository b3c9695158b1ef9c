ghost use Rattle.protocol.specs.Laws as laws;

/// The start: for new ranks of a good world and a wire that was begun, all holds together.
pub fn start_holds()
    ensures law { laws.StartHolds }
{}

/// A joint step: where all outboxes are empty and nothing was posted yet in this round, each rank
/// steps, and all still holds together.
pub fn step_keeps()
    ensures law { laws.StepKeeps }
{}

/// A post: the oldest letter of an outbox may be posted, and all still holds together.
pub fn post_keeps()
    ensures law { laws.PostKeeps }
{}

/// A taking: what the wire gives is true, and its receiver may take it; and then all still holds
/// together. The log is legal even where the receiver is refused memory.
pub fn take_keeps()
    ensures law { laws.TakeKeeps }
{}

/// Whether more letters may be taken in a round changes nothing of what holds together.
pub fn turn_keeps()
    ensures law { laws.TurnKeeps }
{}

/// The end of a round in which a letter was taken: all still holds together, and nothing is posted
/// yet in the next round.
pub fn round_keeps()
    ensures law { laws.RoundKeeps }
{}

/// Between any two events a rank has not asked for a cell of another rank; or it did so once, and
/// that ask is in one place, or the answer is, or the answer was read.
pub fn one_state()
    ensures law { laws.OneState }
{}

/// Between any two events a rank has not asked for a cell that no other rank owns.
pub fn own_fresh()
    ensures law { laws.OwnFresh }
{}

/// The end: a round after whose posting nothing is pending leaves every rank finished, and the log
/// complete.
pub fn quiet_ends()
    ensures law { laws.QuietEnds }
{}

/// The test of two notes is true exactly where sender, receiver, kind and keys are equal.
pub fn same_notes()
    ensures law { laws.SameNotes }
{}

/// In each front of a legal log no note is taken more often than posted, equal ones counted.
pub fn taken_once()
    ensures law { laws.TakenOnce }
{}

/// In each front of a legal log a rank that asked for a cell has taken the branches of all others.
pub fn branches_first()
    ensures law { laws.BranchesFirst }
{}

/// In each front of a legal log, of a cell that was answered to a rank the ask of that rank was
/// taken.
pub fn asks_first()
    ensures law { laws.AsksFirst }
{}

/// In a legal and complete log the cells that a rank asks for are exactly those that it needs, each
/// once.
pub fn asks_exactly()
    ensures law { laws.AsksExactly }
{}

/// The cells that ranks need of others, each rank for itself, are at most `(R - 1) C`, for `R`
/// ranks and `C` cells that some body opens or that are branches.
pub fn few_needs()
    ensures law { laws.FewNeeds }
{}

/// A legal log has at most `R (R - 1) + 2 N` letters, for `R` ranks that need `N` cells: one for
/// each two ranks, and two for each needed cell.
pub fn few_letters_of()
    ensures law { laws.FewLetters }
{}

/// A legal log has at most `(R - 1)(R + 2C) + 1` rounds, for `R` ranks and `C` cells that some body
/// opens or that are branches.
pub fn few_rounds_of()
    ensures law { laws.FewRounds }
{}

/// Between any two events the wire has room for the end of the round, and fewer rounds ended than
/// may end in all.
pub fn rounds_left()
    ensures law { laws.RoundsLeft }
{}

/// Where each round took all letters that were posted before it ended, a joint step leaves the
/// letters of the next round: branches in the first, an ask for a cell of level `l` by round `2l`,
/// and its answer one round later.
pub fn step_deepens()
    ensures law { laws.StepDeepens }
{}

/// A post leaves in the boxes letters of the same round.
pub fn post_deep()
    ensures law { laws.PostDeep }
{}

/// A taking leaves in the boxes letters of the same round, and comes before the last round that
/// there may be.
pub fn take_deep()
    ensures law { laws.TakeDeep }
{}

/// Whether more letters may be taken in a round changes nothing of the round that letters are of.
pub fn turn_deep()
    ensures law { laws.TurnDeep }
{}

/// After a round in which a letter was taken, fewer rounds ended than a prompt log may have.
pub fn round_deep()
    ensures law { laws.RoundDeep }
{}
