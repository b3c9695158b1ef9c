// Forces as text.
ghost use Rattle.std.specs.Prelude.{◌≡◌, ◌+◌, ◌≤◌, ◌++◌, length, All};
ghost use Rattle.hot_io.specs.Faults.{FailsExactly};
ghost use Rattle.hot_io.specs.Writing.{Puts, Writes};
ghost use Rattle.force_out.specs.Idents.{IsIdent};
ghost use Rattle.force_out.specs.ForcesText as text;

use hot_io::{BLOCK, Block, Failed, Sink};
use hot_units::Acc3;

/// The most bytes of a line: four numbers, and a byte behind each.
const LINE: usize = 164;

/// Adds the line of one body: its ident and the three components, with a space between each two.
fn add_body(block: &mut Block, ident: i128, force: &Acc3)
    requires room { length block.old + LINE ≤ BLOCK }
    ensures text { block.new ≡ block.old ++ text.body_line (ident, force.now) }
{
    block.add("", ident);
    block.add(" ", force.ax);
    block.add(" ", force.ay);
    block.add(" ", force.az);
    block.push(b"\n");
}

/// Puts the lines of the bodies, in the order of the slices.
fn put_bodies<O: Sink>(
    block: &mut Block,
    out: &mut O,
    idents: &[i128],
    forces: &[Acc3],
) -> Result<(), Failed>
    requires unfailed { O.faults out.old ≡ 0 }
    requires paired { length idents.now ≡ length forces.now }
    ensures cause { FailsExactly (O.faults out.old) (O.faults out.new) result }
    ensures text { Puts (O.written out.old) block.old (O.written out.new) block.new result
        (text.body_lines idents.now forces.now) }
{
    for (i, force) in forces.iter().enumerate() {
        block.make_room(out, LINE)?;
        add_body(block, idents[i], force);
    }
    Ok(())
}

/// Adds the last line, which has the number of bodies.
fn add_end(block: &mut Block, count: usize)
    requires room { length block.old + LINE ≤ BLOCK }
    ensures text { block.new ≡ block.old ++ text.last_line count }
{
    block.add("# end ", count);
    block.push(b"\n");
}

/// Writes the forces on the bodies as text: the line `# hot forces 1`, then for each body, in the
/// order of the slices, the line `IDENT AX AY AZ`, and last the line `# end N` with the number of
/// bodies.
///
/// Numbers are decimal, without leading zeros, with `-` where they are negative. A component is in
/// units of 2^-40 of mass over squared fine distance. `Failed` comes exactly where the sink's count
/// of faults rises, and then a front of the text was written. No memory is taken, and the sink gets
/// no empty piece.
pub fn force_text<O: Sink>(out: &mut O, idents: &[i128], forces: &[Acc3]) -> Result<(), Failed>
    requires unfailed { O.faults out.old ≡ 0 }
    requires paired { length idents.now ≡ length forces.now }
    requires idents { All IsIdent idents.now }
    ensures cause { FailsExactly (O.faults out.old) (O.faults out.new) result }
    ensures text { Writes (O.written out.old) (O.written out.new) result
        (text.forces_text idents.now forces.now) }
{
    let mut block = Block::new();
    block.push(b"# hot forces 1\n");
    put_bodies(&mut block, out, idents, forces)?;
    block.make_room(out, LINE)?;
    add_end(&mut block, forces.len());
    block.finish(out)
}
