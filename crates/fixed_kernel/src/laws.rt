ghost use Rattle.fixed_kernel.specs.Laws.{ForcesByTerms};

/// The law of the visit of gravity: whatever the settings and the bodies, the terms that a walk
/// meets for a body, each a cell taken whole or another body, add up to the force of the recursive
/// walk (Barnes and Hut, 1986), and the accumulator has then seen the mass of all bodies. With the
/// law that additions may change places, every walk that meets each of these terms once, in
/// whatever order, ends with the same force.
pub fn forces_by_terms()
    ensures law { ForcesByTerms }
{}
