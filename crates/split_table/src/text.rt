// A split as text.
ghost use Rattle.std.specs.Prelude.{◌≡◌, ◌+◌, ◌≤◌, ◌++◌, length, flat_map};
ghost use Rattle.hot_io.specs.Faults.{FailsExactly};
ghost use Rattle.hot_io.specs.Writing.{Puts, Writes};
ghost use Rattle.split_table.specs.Text as text;

use crate::{Share, SplitTable};
use branch_merge::Listed;
use hot_io::{BLOCK, Block, Failed, Sink};
use hot_model::CellRec;

/// The most bytes of a line: seven numbers with the words before them.
const LINE: usize = 320;

/// Adds the numbers of a record, and the end of the line: the count, the mass and the three sums.
fn add_numbers(block: &mut Block, rec: &CellRec)
    requires room { length block.old + 226 ≤ BLOCK }
    ensures text { block.new ≡ block.old ++ text.numbers_of rec.now }
{
    block.add(" count ", rec.count);
    block.add(" mass ", rec.mass);
    block.add(" sum ", rec.sx);
    block.add(" ", rec.sy);
    block.add(" ", rec.sz);
    block.push(b"\n");
}

/// Adds the line of a rank.
fn add_share(block: &mut Block, share: &Share)
    requires room { length block.old + LINE ≤ BLOCK }
    ensures text { block.new ≡ block.old ++ text.share_line share.now }
{
    block.add("rank ", share.rank);
    block.add(" bodies ", share.bodies);
    block.add(" weight ", share.weight);
    block.add(" branches ", share.branches);
    block.push(b"\n");
}

/// Adds the line of a branch.
fn add_branch(block: &mut Block, branch: &Listed)
    requires room { length block.old + LINE ≤ BLOCK }
    ensures text { block.new ≡ block.old ++ text.branch_line branch.now }
{
    let rec = &branch.rec;
    block.add("branch ", rec.key);
    block.add(" rank ", branch.rank);
    add_numbers(block, rec);
}

/// Adds the line of a top cell.
fn add_top(block: &mut Block, rec: &CellRec)
    requires room { length block.old + LINE ≤ BLOCK }
    ensures text { block.new ≡ block.old ++ text.top_line rec.now }
{
    block.add("top ", rec.key);
    add_numbers(block, rec);
}

/// Puts the lines of all ranks.
fn put_shares<O: Sink>(block: &mut Block, out: &mut O, shares: &[Share]) -> Result<(), Failed>
    requires unfailed { O.faults out.old ≡ 0 }
    ensures cause { FailsExactly (O.faults out.old) (O.faults out.new) result }
    ensures text { Puts (O.written out.old) block.old (O.written out.new) block.new result
        (flat_map text.share_line shares.now) }
{
    for share in shares {
        block.make_room(out, LINE)?;
        add_share(block, share);
    }
    Ok(())
}

/// Puts the lines of all branches.
fn put_branches<O: Sink>(block: &mut Block, out: &mut O, branches: &[Listed]) -> Result<(), Failed>
    requires unfailed { O.faults out.old ≡ 0 }
    ensures cause { FailsExactly (O.faults out.old) (O.faults out.new) result }
    ensures text { Puts (O.written out.old) block.old (O.written out.new) block.new result
        (flat_map text.branch_line branches.now) }
{
    for branch in branches {
        block.make_room(out, LINE)?;
        add_branch(block, branch);
    }
    Ok(())
}

/// Puts the lines of all top cells.
fn put_tops<O: Sink>(block: &mut Block, out: &mut O, tops: &[CellRec]) -> Result<(), Failed>
    requires unfailed { O.faults out.old ≡ 0 }
    ensures cause { FailsExactly (O.faults out.old) (O.faults out.new) result }
    ensures text { Puts (O.written out.old) block.old (O.written out.new) block.new result
        (flat_map text.top_line tops.now) }
{
    for rec in tops {
        block.make_room(out, LINE)?;
        add_top(block, rec);
    }
    Ok(())
}

/// Writes a split as text: the line `# hot split 1`; for each rank the line `rank Q bodies N weight
/// W branches B`; for each branch, by ascending key, the line `branch KEY rank Q count N mass M sum
/// SX SY SZ`; for each top cell, by ascending key, the line `top KEY count N mass M sum SX SY SZ`;
/// and the line `# end split`. Sums are of mass times fine coordinate.
///
/// Numbers are decimal, without leading zeros. `Failed` comes exactly where the sink's count of
/// faults rises, and then a front of the text was written. No memory is taken, and the sink gets no
/// empty piece.
pub fn split_text<O: Sink>(out: &mut O, table: &SplitTable) -> Result<(), Failed>
    requires unfailed { O.faults out.old ≡ 0 }
    ensures cause { FailsExactly (O.faults out.old) (O.faults out.new) result }
    ensures text { Writes (O.written out.old) (O.written out.new) result
        (text.table_text table.now) }
{
    let mut block = Block::new();
    block.push(b"# hot split 1\n");
    put_shares(&mut block, out, table.shares())?;
    put_branches(&mut block, out, table.branches())?;
    put_tops(&mut block, out, table.tops())?;
    block.make_room(out, LINE)?;
    block.push(b"# end split\n");
    block.finish(out)
}
