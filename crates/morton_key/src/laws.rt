ghost use Rattle.morton_key.specs.Laws as laws;

/// The body keys, 1 and then 21 octal digits, are exactly the keys of the places in the cube.
pub fn body_keys_are_of_places()
    ensures law { laws.BodyKeysAreOfPlaces }
{}

/// A cell covers exactly the body keys from its first to its last.
#[tactic(auto, using(crate::proofs::KeyLaws::range_of_a_cell))]
pub fn range_of_a_cell()
    ensures law { laws.RangeOfACell }
{}

/// The eight children part a cell: a body key in a cell above the last level is in exactly one
/// child, and a key in a child is in the cell.
#[tactic(auto, using(crate::proofs::KeyLaws::children_part_a_cell))]
pub fn children_part_a_cell()
    ensures law { laws.ChildrenPartACell }
{}

/// Whatever is summed over the bodies of a cell is the sum over its eight children: count, mass,
/// moments.
#[tactic(auto, using(crate::proofs::KeyLaws::children_share_sums))]
pub fn children_share_sums()
    ensures law { laws.ChildrenShareSums }
{}

/// Keys of different levels differ: a number is a cell key of at most one level.
pub fn one_level_each()
    ensures law { laws.OneLevelEach }
{}

/// The bodies of a cell stand together in a list in key order: they are those between two places,
/// found by counting the keys below the cell's first key, and below the first number past its last.
#[tactic(auto, using(crate::proofs::KeyLaws::bodies_stand_together))]
pub fn bodies_stand_together()
    ensures law { laws.BodiesStandTogether }
{}

/// A cell is a box: it contains exactly the bodies whose coordinates are from its corner on and
/// below its corner plus its side.
#[tactic(auto, using(crate::proofs::Axes::box_of_a_cell))]
pub fn box_of_a_cell()
    ensures law { laws.BoxOfACell }
{}
