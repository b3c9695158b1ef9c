ghost use Rattle.run_report.specs.Laws as laws;

/// The numbers of a report count what they are called: the opened pairs of a rank are as many
/// different ones, since no body opens a cell twice; its asks the cells of other ranks that some
/// body of it needs, each once; the cells in play the cells that some body opens together with the
/// branches of all ranks, each once.
pub fn numbers_are_counts()
    ensures law { laws.NumbersAreCounts }
{}
