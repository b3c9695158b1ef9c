//! The version and the marks of letters, the numbers of specs/Sizes.antt for the code, and the
//! tests of one item.
ghost use Rattle.std.specs.Prelude.{◌≡◌};
ghost use Rattle.cell_mail.specs.Reading as reading;

use hot_units::limits::{FINE_BITS, MAX_BODIES, MAX_BODY_MASS};

/// The version of letters.
pub const VERSION: u8 = 2;

/// The kinds of letters.
pub const BRANCHES: u8 = 1;

pub const ASKS: u8 = 2;

pub const ANSWERS: u8 = 3;

/// The tags of answers.
pub const CHILDREN: u8 = 1;

pub const BODIES: u8 = 2;

/// How many bytes a mark, a count and a field of a body, a key and a mass, and a sum have.
pub const MARK_SIZE: usize = 1;

pub const COUNT_SIZE: usize = 4;

pub const KEY_SIZE: usize = 8;

pub const SUM_SIZE: usize = 16;

/// How many sums a record has: those of mass times x, y, z, and times xx, yy, zz, xy, xz, yz.
pub const SUMS: usize = 9;

/// The most children of a cell.
pub const MAX_CHILDREN: usize = 8;

/// The root's first child: no cell below the root has a smaller key.
const FIRST_CHILD: u64 = 8;

/// Whether a number is a leading 1 with 0 to 21 octal digits behind it.
#[tactic(auto, using(crate::proofs::Hints::on_cells))]
pub(crate) fn is_cell(key: u64) -> bool
    ensures { result ≡ reading.is_cell key }
{
    morton_key::is_cell(key)
}

/// Whether a number is a cell below the root.
pub(crate) fn is_below_root(key: u64) -> bool
    ensures { result ≡ reading.is_below_root key }
{
    is_cell(key) && FIRST_CHILD <= key
}

/// Whether these are the fields of a body that may be sent.
#[tactic(auto, unfolding(crate::specs::Reading::is_sent))]
pub(crate) fn is_sent(x: u32, y: u32, z: u32, mass: u32, row: u32) -> bool
    ensures { result ≡ reading.is_sent (record { x = x; y = y; z = z; mass = mass; row = row }) }
{
    let end = 1 << FINE_BITS;
    x < end && y < end && z < end && 1 <= mass && mass <= MAX_BODY_MASS && row < MAX_BODIES
}
