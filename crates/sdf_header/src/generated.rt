//! The header that this project writes before generated bodies is one that it reads.

ghost use Rattle.std.specs.Prelude.{◌≤◌};
ghost use Rattle.hot_units.specs.Limits.{max_bodies};
ghost use Rattle.sdf_header.specs.Generated.{GeneratedHeaderReads};

/// The header of a file of so many generated bodies has their layout, whatever rows follow.
///
/// The body does nothing: the contract is the law.
pub fn generated_header_reads(_count: u32)
    requires { _count ≤ max_bodies }
    ensures law { GeneratedHeaderReads _count }
{}
