// Neighbours as text.
ghost use Rattle.std.specs.Prelude.{◌≡◌, ◌+◌, ◌≤◌, ◌++◌, length, map, flat_map};
ghost use Rattle.hot_io.specs.Faults.{FailsExactly};
ghost use Rattle.hot_io.specs.Writing.{Puts, Writes};
ghost use Rattle.near_out.specs.NearText as text;

use hot_io::{BLOCK, Block, Failed, Sink};

/// The most bytes of what is added to a block at once: two numbers, and a space between them.
const PART: usize = 81;

/// Puts the rows of one list, each behind a space.
fn put_rows<O: Sink>(block: &mut Block, out: &mut O, rows: &[u32]) -> Result<(), Failed>
    requires unfailed { O.faults out.old ≡ 0 }
    ensures cause { FailsExactly (O.faults out.old) (O.faults out.new) result }
    ensures text { Puts (O.written out.old) block.old (O.written out.new) block.new result
        (flat_map text.row_word rows.now) }
{
    for row in rows {
        block.make_room(out, PART)?;
        block.add(" ", *row);
    }
    Ok(())
}

/// Adds the front of a body's line: its ident, and how many rows are near it.
fn add_front(block: &mut Block, ident: i128, count: usize)
    requires room { length block.old + PART ≤ BLOCK }
    ensures text { block.new ≡ block.old ++ text.line_front ident count }
{
    block.add("", ident);
    block.add(" ", count);
}

/// Puts the line of one body: its ident, how many rows are near it, and these rows.
fn put_body<O: Sink>(
    block: &mut Block,
    out: &mut O,
    ident: i128,
    rows: &[u32],
) -> Result<(), Failed>
    requires unfailed { O.faults out.old ≡ 0 }
    ensures cause { FailsExactly (O.faults out.old) (O.faults out.new) result }
    ensures text { Puts (O.written out.old) block.old (O.written out.new) block.new result
        (text.body_line (ident, rows.now)) }
{
    block.make_room(out, PART)?;
    add_front(block, ident, rows.len());
    put_rows(block, out, rows)?;
    block.make_room(out, PART)?;
    block.push(b"\n");
    Ok(())
}

/// Puts the lines of the bodies, in the order of the slices.
fn put_bodies<O: Sink>(
    block: &mut Block,
    out: &mut O,
    idents: &[i128],
    lists: &[Vec<u32>],
) -> Result<(), Failed>
    requires unfailed { O.faults out.old ≡ 0 }
    requires paired { length idents.now ≡ length lists.now }
    ensures cause { FailsExactly (O.faults out.old) (O.faults out.new) result }
    ensures text { Puts (O.written out.old) block.old (O.written out.new) block.new result
        (text.body_lines idents.now (map (λ v. v.items) lists.now)) }
{
    for (i, list) in lists.iter().enumerate() {
        put_body(block, out, idents[i], list.as_slice())?;
    }
    Ok(())
}

/// Adds the last line, which has the number of bodies.
fn add_end(block: &mut Block, count: usize)
    requires room { length block.old + PART ≤ BLOCK }
    ensures text { block.new ≡ block.old ++ text.last_line count }
{
    block.add("# end ", count);
    block.push(b"\n");
}

/// Writes the rows near bodies as text: the line `# hot near 1`, then for each body, in the order
/// of the slices, a line of its ident, how many rows its list has, and these rows in the order of
/// the list, with a space between each two, and last the line `# end N` with the number of bodies.
///
/// Numbers are decimal, without leading zeros, with `-` where they are negative. `Failed` comes
/// exactly where the sink's count of faults rises, and then a front of the text was written. No
/// memory is taken, and the sink gets no empty piece.
pub fn write_near<O: Sink>(out: &mut O, idents: &[i128], lists: &[Vec<u32>]) -> Result<(), Failed>
    requires unfailed { O.faults out.old ≡ 0 }
    requires paired { length idents.now ≡ length lists.now }
    ensures cause { FailsExactly (O.faults out.old) (O.faults out.new) result }
    ensures text { Writes (O.written out.old) (O.written out.new) result
        (text.near_text idents.now (map (λ v. v.items) lists.now)) }
{
    let mut block = Block::new();
    block.push(b"# hot near 1\n");
    put_bodies(&mut block, out, idents, lists)?;
    block.make_room(out, PART)?;
    add_end(&mut block, lists.len());
    block.finish(out)
}
