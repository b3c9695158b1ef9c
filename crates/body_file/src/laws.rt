//! A law of all lists of files.
ghost use Rattle.body_file.specs.Laws as laws;

/// Each list of files, with at least one, has a verdict: a fault, or bodies.
pub fn files_have_verdicts()
    ensures verdict { laws.HaveVerdicts }
{}
