// Forces as SDF.
ghost use Rattle.std.specs.Prelude.{◌≡◌, ◌+◌, ◌≤◌, ◌∷◌, ◌++◌, [], length, All};
ghost use Rattle.hot_io.specs.Faults.{FailsExactly};
ghost use Rattle.hot_io.specs.Writing.{Puts, Writes};
ghost use Rattle.force_out.specs.Idents.{IsIdent};
ghost use Rattle.force_out.specs.ForcesSdf as sdf;
ghost use Rattle.force_out.specs.SdfReader.{HasOneParting, TellsAllBodies};

use byteorder::{ByteOrder, LittleEndian};
use hot_io::{BLOCK, Block, Failed, Sink};
use hot_units::Acc3;

/// What the high half of a value counts: 2^64.
const HIGH_UNIT: i128 = 1 << 64;

/// The bytes of a row: eight columns of 64 bits.
const ROW: usize = 64;

/// The high half of a value: its floor over 2^64.
fn high_half(value: i128) -> i64
    ensures value { result ≡ sdf.high_half value }
{
    value.div_euclid(HIGH_UNIT) as i64
}

/// The low half of a value: what is left of it.
fn low_half(value: i128) -> u64
    ensures value { result ≡ sdf.low_half value }
{
    value.rem_euclid(HIGH_UNIT) as u64
}

/// The two columns of a value: the bits of its high half, and its low half.
fn columns(value: i128) -> (u64, u64)
    ensures columns { result.0 ∷ result.1 ∷ [] ≡ sdf.columns value }
{
    (high_half(value).cast_unsigned(), low_half(value))
}

/// Adds the row of one body: its ident and the three components.
fn add_row(block: &mut Block, ident: i128, force: &Acc3)
    requires room { length block.old + ROW ≤ BLOCK }
    ensures row { block.new ≡ block.old ++ sdf.body_row (ident, force.now) }
{
    let name = columns(ident);
    let x = columns(force.ax);
    let y = columns(force.ay);
    let z = columns(force.az);
    let mut row = [0; ROW];
    LittleEndian::write_u64_into(&[name.0, name.1, x.0, x.1, y.0, y.1, z.0, z.1], &mut row);
    block.push(&row);
}

/// Puts the rows of the bodies, in the order of the slices.
fn put_rows<O: Sink>(
    block: &mut Block,
    out: &mut O,
    idents: &[i128],
    forces: &[Acc3],
) -> Result<(), Failed>
    requires unfailed { O.faults out.old ≡ 0 }
    requires paired { length idents.now ≡ length forces.now }
    ensures cause { FailsExactly (O.faults out.old) (O.faults out.new) result }
    ensures rows { Puts (O.written out.old) block.old (O.written out.new) block.new result
        (sdf.body_rows idents.now forces.now) }
{
    for (i, force) in forces.iter().enumerate() {
        block.make_room(out, ROW)?;
        add_row(block, idents[i], force);
    }
    Ok(())
}

/// The header of a file of so many bodies, in a block.
fn header(count: usize) -> Block
    ensures header { result ≡ sdf.header count }
{
    let mut block = Block::new();
    block.add(
        "# SDF\nparameter byteorder = 0x78563412;\nstruct {\n  int64_t ident_hi;\n  uint64_t ident_lo;\n  int64_t ax_hi;\n  uint64_t ax_lo;\n  int64_t ay_hi;\n  uint64_t ay_lo;\n  int64_t az_hi;\n  uint64_t az_lo;\n}[",
        count,
    );
    block.push(b"];\n# SDF-EOH\n");
    block
}

/// Writes the forces on the bodies as SDF: a header with the number of bodies, then for each body,
/// in the order of the slices, a row of 64 bytes: its ident and the three components, each as a
/// signed column `hi` and an unsigned column `lo` of 64 bits, least significant byte first.
///
/// A value is `hi * 2^64 + lo` with `0 <= lo < 2^64`. A component is in units of 2^-40 of mass over
/// squared fine distance. `Failed` comes exactly where the sink's count of faults rises, and then a
/// front of the file was written. No memory is taken, and the sink gets no empty piece.
pub fn force_sdf<O: Sink>(out: &mut O, idents: &[i128], forces: &[Acc3]) -> Result<(), Failed>
    requires unfailed { O.faults out.old ≡ 0 }
    requires paired { length idents.now ≡ length forces.now }
    requires idents { All IsIdent idents.now }
    ensures cause { FailsExactly (O.faults out.old) (O.faults out.new) result }
    ensures file { Writes (O.written out.old) (O.written out.new) result
        (sdf.forces_sdf idents.now forces.now) }
{
    let mut block = header(forces.len());
    put_rows(&mut block, out, idents, forces)?;
    block.finish(out)
}

/// Laws of these files. A value has one high and one low half. A reader who takes the eight columns
/// of a row where they stand, behind the header and the rows before it, and joins each two to
/// `hi * 2^64 + lo`, has the ident of the row's body and the force on it, whatever numbers of 128
/// bits they are.
pub fn values_come_back()
    ensures halves { HasOneParting }
    ensures bodies { TellsAllBodies }
{}
