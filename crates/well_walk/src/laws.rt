ghost use Rattle.well_walk.specs.Laws as laws;

/// The law of the visit of depths: whatever the settings and the bodies, the terms that a walk meets
/// for a body, each a cell taken whole or a body, add up to the potential of the recursive walk
/// (Barnes and Hut, 1986), to which the body itself adds nothing, and the accumulator has then seen
/// the mass of all bodies, its own too. With the law that additions may change places, every walk
/// that meets each of these terms once, in whatever order, ends with the same potential.
pub fn potential_by_terms()
    ensures law { laws.PotentialByTerms }
{}

/// Softened by one fine unit or more, no body lies deeper than 2^40 times the mass of all bodies.
pub fn potential_is_bounded()
    ensures law { laws.PotentialIsBounded }
{}

/// The sums of a list and one more body are those of the list with the share of this body added.
pub fn sums_grow()
    ensures law { laws.SumsGrow }
{}

/// The sums of what counts of each body among all bodies are the potential sum and the kinetic sum
/// over all bodies.
pub fn sums_are_totals()
    ensures law { laws.SumsAreTotals }
{}
