ghost use Rattle.std.specs.Prelude.{◌≡◌, ◌+◌, ◌≤◌, ◌<◌, ◌^◌, ◌∷◌, ◌++◌, [], length, All, if◌then◌else◌};
ghost use Rattle.hot_io.specs.Faults.{FailsExactly};
ghost use Rattle.hot_io.specs.Writing.{Puts, Writes};
ghost use Rattle.leap_frog.specs.States.{vector_of};
ghost use Rattle.state_file.specs.Headers.{ident_line, state_header};
ghost use Rattle.sdf_rows.specs.Columns.{Is64Bits};
ghost use Rattle.state_file.specs.Texts.{IsWritable, bits_of, row_text, rows_text};
ghost use Rattle.state_file.specs.Texts.{state_text};

use hot_io::{BLOCK, Block, Failed, Sink};
use hot_units::Body;
use leap_frog::State;

/// The bytes of a row.
const ROW: usize = 48;

/// A number of 8 bytes in two's complement.
fn bits(n: i128) -> u64
    requires { Is64Bits n }
    ensures { result ≡ bits_of n }
{
    if n < 0 {
        u64::MAX - (-(n + 1)) as u64
    } else {
        n as u64
    }
}

/// The line of the ident column.
fn line_of(unsigned: bool) -> &'static [u8]
    ensures value { result.now ≡ ident_line unsigned }
    ensures short { length result.now ≤ 17 }
{
    if unsigned {
        b"  uint64_t ident;"
    } else {
        b"  int64_t ident;"
    }
}

/// The header of the file of so many bodies, in a block.
fn header(unsigned: bool, count: usize) -> Block
    ensures text { result ≡ state_header unsigned count }
{
    let mut block = Block::new();
    block.push(
        b"# SDF\nparameter byteorder = 0x78563412;\nint cube_bits = 29;\nstruct {\n  \
          int32_t x, y, z;\n  uint32_t mass;\n",
    );
    block.push(line_of(unsigned));
    block.add("\n  int64_t vx, vy, vz;\n}[", count);
    block.push(b"];\n# SDF-EOH\n");
    block
}

/// Adds the row of a body with its ident and velocity.
fn add_row(block: &mut Block, body: &Body, ident: i128, v: &[i128; 3])
    requires room { length block.old + ROW ≤ BLOCK }
    requires ident { Is64Bits ident }
    requires slow { IsWritable (record { body = body.now; velocity = vector_of v.now }) }
    ensures text { block.new ≡ block.old
        ++ row_text (record { body = body.now; velocity = vector_of v.now }) ident }
{
    block.push(&body.x.to_le_bytes());
    block.push(&body.y.to_le_bytes());
    block.push(&body.z.to_le_bytes());
    block.push(&body.mass.to_le_bytes());
    block.push(&bits(ident).to_le_bytes());
    block.push(&bits(v[0]).to_le_bytes());
    block.push(&bits(v[1]).to_le_bytes());
    block.push(&bits(v[2]).to_le_bytes());
}

/// Puts the rows of all bodies, in their order.
fn put_rows<O: Sink>(
    block: &mut Block,
    out: &mut O,
    state: &State,
    idents: &[i128],
) -> Result<(), Failed>
    requires unfailed { O.faults out.old ≡ 0 }
    requires idents_too { length idents.now ≡ length state.now }
    requires named { All Is64Bits idents.now }
    requires slow { All IsWritable state.now }
    ensures cause { FailsExactly (O.faults out.old) (O.faults out.new) result }
    ensures text { Puts (O.written out.old) block.old (O.written out.new) block.new result
        (rows_text state.now idents.now) }
{
    for (i, ident) in idents.iter().enumerate() {
        let body = state.body(i).unwrap();
        let v = state.velocity(i).unwrap();
        block.make_room(out, ROW)?;
        add_row(block, body, *ident, &v);
    }
    Ok(())
}

/// Writes the body file of a state: a header with a cube of 29 bits, and for each body, in their
/// order, a row of 48 bytes, the least significant first: x, y, z and the mass of 4 bytes each, the
/// ident and the velocity on x, y, z of 8 bytes each. `unsigned` names the type of the idents, of
/// which there are as many as bodies. Where they fit it, the file is read back with the same state
/// and idents.
///
/// `Failed` comes exactly where the sink's count of faults rises, and then a front of the text was
/// written. No memory is taken.
pub fn write_state<O: Sink>(
    out: &mut O,
    unsigned: bool,
    state: &State,
    idents: &[i128],
) -> Result<(), Failed>
    requires unfailed { O.faults out.old ≡ 0 }
    requires idents_too { length idents.now ≡ length state.now }
    requires named { All Is64Bits idents.now }
    requires slow { All IsWritable state.now }
    ensures cause { FailsExactly (O.faults out.old) (O.faults out.new) result }
    ensures text { Writes (O.written out.old) (O.written out.new) result
        (state_text (record { unsigned = unsigned; state = state.now; idents = idents.now })) }
{
    let mut block = header(unsigned, state.len());
    put_rows(&mut block, out, state, idents)?;
    block.finish(out)
}
