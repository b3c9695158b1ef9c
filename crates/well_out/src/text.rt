// Depths and sums as text.
ghost use Rattle.std.specs.Prelude.{◌≡◌, ◌+◌, ◌≤◌, ◌++◌, length};
ghost use Rattle.hot_io.specs.Faults.{FailsExactly};
ghost use Rattle.hot_io.specs.Writing.{Puts, Writes};
ghost use Rattle.well_out.specs.EnergyText as text;

use hot_io::{BLOCK, Block, Failed, Sink};

/// The most bytes of a body's line: two numbers, and a byte behind each.
const LINE: usize = 82;

/// The most bytes of the last two lines: three numbers, and 13 bytes beside them.
const ENDS: usize = 133;

/// Adds the line of one body: its ident, and how deep it lies.
fn add_body(block: &mut Block, ident: i128, well: u128)
    requires room { length block.old + LINE ≤ BLOCK }
    ensures text { block.new ≡ block.old ++ text.body_line (ident, well) }
{
    block.add("", ident);
    block.add(" ", well);
    block.push(b"\n");
}

/// Puts the lines of the bodies, in the order of the slices.
fn put_bodies<O: Sink>(
    block: &mut Block,
    out: &mut O,
    idents: &[i128],
    wells: &[u128],
) -> Result<(), Failed>
    requires unfailed { O.faults out.old ≡ 0 }
    requires paired { length idents.now ≡ length wells.now }
    ensures cause { FailsExactly (O.faults out.old) (O.faults out.new) result }
    ensures text { Puts (O.written out.old) block.old (O.written out.new) block.new result
        (text.body_lines idents.now wells.now) }
{
    for (i, well) in wells.iter().enumerate() {
        block.make_room(out, LINE)?;
        add_body(block, idents[i], *well);
    }
    Ok(())
}

/// Adds the last two lines: the sums, and the number of bodies.
fn add_ends(block: &mut Block, sums: (u128, u128), count: usize)
    requires room { length block.old + ENDS ≤ BLOCK }
    ensures text { block.new ≡ block.old
        ++ (text.sum_line sums.0 sums.1 ++ text.last_line count) }
{
    block.add("sum ", sums.0);
    block.add(" ", sums.1);
    block.add("\n# end ", count);
    block.push(b"\n");
}

/// Writes how deep bodies lie, and their sums, as text: the line `# hot energy 1`, then for each
/// body, in the order of the slices, the line `IDENT WELL`, then the line `sum W K`, and last the
/// line `# end N` with the number of bodies.
///
/// W is the first of `sums`, that of mass times depth, and K the second, that of mass times the
/// square of the speed. Numbers are decimal, without leading zeros, with `-` where they are
/// negative; a depth is in units of 2^-40 of mass over fine distance. `Failed` comes exactly where
/// the sink's count of faults rises, and then a front of the text was written. No memory is taken,
/// and the sink gets no empty piece.
pub fn write_energy<O: Sink>(
    out: &mut O,
    idents: &[i128],
    wells: &[u128],
    sums: (u128, u128),
) -> Result<(), Failed>
    requires unfailed { O.faults out.old ≡ 0 }
    requires paired { length idents.now ≡ length wells.now }
    ensures cause { FailsExactly (O.faults out.old) (O.faults out.new) result }
    ensures text { Writes (O.written out.old) (O.written out.new) result
        (text.energy_text idents.now wells.now sums.0 sums.1) }
{
    let mut block = Block::new();
    block.push(b"# hot energy 1\n");
    put_bodies(&mut block, out, idents, wells)?;
    block.make_room(out, ENDS)?;
    add_ends(&mut block, sums, wells.len());
    block.finish(out)
}
