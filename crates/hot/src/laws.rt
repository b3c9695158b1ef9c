ghost use Rattle.hot.specs.Nearness.{ForcesAreNear};

/// What status 0 of `forces --theta 0/1` says of exact gravity, over any ranks and under any mail:
/// all files were read to their ends, and each printed component is as near to the exact sum over
/// all their bodies, softened after Plummer, as the laws of pull_bound say. Of what pulls a body
/// either way less than one unit a body is missing, and too much are the shares of the pulls, at
/// most their sum of sizes over 1,024 times the softening. It says nothing of other ratios.
///
/// The body does nothing: the contract is the law, a corollary of `answered` of `hot_main`.
pub fn forces_are_near()
    ensures law { ForcesAreNear }
{}
