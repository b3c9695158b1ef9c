// Generated bodies as a body file.
ghost use Rattle.std.specs.Prelude.{◌≡◌, ◌+◌, ◌≤◌, ◌++◌, length, flat_map};
ghost use Rattle.hot_io.specs.Faults.{FailsExactly};
ghost use Rattle.hot_io.specs.Writing.{Puts, Writes};
ghost use Rattle.body_maker.specs.Generator.{places};
ghost use Rattle.body_maker.specs.Made as made;

use crate::generator::{Place, draw_place};
use hot_io::{BLOCK, Block, Failed, Sink};

/// The bytes of a row: three coordinates of 32 bits.
const ROW: usize = 12;

/// Adds the row of a body.
fn add_row(block: &mut Block, place: Place)
    requires room { length block.old + ROW ≤ BLOCK }
    ensures row { block.new ≡ block.old ++ made.row_bytes place }
{
    block.push(&place.x.to_le_bytes());
    block.push(&place.y.to_le_bytes());
    block.push(&place.z.to_le_bytes());
}

/// Puts the rows of so many bodies.
fn put_rows<O: Sink>(block: &mut Block, out: &mut O, bodies: u32, seed: u64) -> Result<(), Failed>
    requires unfailed { O.faults out.old ≡ 0 }
    ensures cause { FailsExactly (O.faults out.old) (O.faults out.new) result }
    ensures text { Puts (O.written out.old) block.old (O.written out.new) block.new result
        (flat_map made.row_bytes (places bodies seed)) }
{
    let mut state = seed;
    for _k in 0..bodies {
        let (place, next) = draw_place(state);
        block.make_room(out, ROW)?;
        add_row(block, place);
        state = next;
    }
    Ok(())
}

/// The header of a file of so many bodies, in a block.
fn header(bodies: u32) -> Block
    ensures header { result ≡ made.header bodies }
{
    let mut block = Block::new();
    block.add(
        "# SDF\nparameter byteorder = 0x78563412;\nint cube_bits = 21;\nstruct {\n  int32_t x, y, z;\n}[",
        bodies,
    );
    block.push(b"];\n# SDF-EOH\n");
    block
}

/// Writes a body file of so many generated bodies: its header, and a row of three coordinates for
/// each body. The bodies are made as they are written, so no memory is taken. `Failed` comes
/// exactly where the sink's count of faults rises, and then a front of the file was written.
pub fn write_made<O: Sink>(out: &mut O, bodies: u32, seed: u64) -> Result<(), Failed>
    requires unfailed { O.faults out.old ≡ 0 }
    ensures cause { FailsExactly (O.faults out.old) (O.faults out.new) result }
    ensures text { Writes (O.written out.old) (O.written out.new) result
        (made.made_file bodies seed) }
{
    let mut block = header(bodies);
    put_rows(&mut block, out, bodies, seed)?;
    block.finish(out)
}
