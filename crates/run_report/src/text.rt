// A report as text, and the line of a run on generated bodies.
ghost use Rattle.std.specs.Prelude.{◌≡◌, ◌≤◌, ◌+◌, ◌++◌, length, flat_map, sum_by};
ghost use Rattle.hot_units.specs.Limits.{max_ranks};
ghost use Rattle.hot_io.specs.Faults.{FailsExactly};
ghost use Rattle.hot_io.specs.Writing.{Puts, Writes};
ghost use Rattle.run_report.specs.Text as text;

use crate::{ForceSum, RunReport, Sample};
use branch_merge::Listed;
use hot_io::{BLOCK, Block, Failed, Sink};
use rank_set::Effort;

/// The most bytes of a line of a report: four numbers with the words before them.
const LINE: usize = 192;

/// Adds the line of a rank.
fn add_effort(block: &mut Block, effort: &Effort)
    requires room { length block.old + LINE ≤ BLOCK }
    ensures text { block.new ≡ block.old ++ text.rank_line effort.now }
{
    block.add("rank ", effort.rank);
    block.add(" bodies ", effort.bodies);
    block.add(" opened ", effort.opened);
    block.add(" asks ", effort.asks);
    block.push(b"\n");
}

/// Adds the line of a branch.
fn add_branch(block: &mut Block, branch: &Listed)
    requires room { length block.old + LINE ≤ BLOCK }
    ensures text { block.new ≡ block.old ++ text.branch_line branch.now }
{
    block.add("branch ", branch.rec.key);
    block.add(" rank ", branch.rank);
    block.push(b"\n");
}

/// Adds the line of totals.
fn add_totals(block: &mut Block, report: &RunReport)
    requires room { length block.old + LINE ≤ BLOCK }
    ensures text { block.new ≡ block.old ++ text.totals_line report.now }
    ensures short { length block.new ≤ length block.old + LINE }
{
    block.add("letters ", report.letters());
    block.add(" rounds ", report.rounds());
    block.add(" cells ", report.cells());
    block.add(" bound ", report.bound());
    block.push(b"\n");
}

/// Puts the lines of all ranks.
fn put_efforts<E: Sink>(block: &mut Block, err: &mut E, efforts: &[Effort]) -> Result<(), Failed>
    requires unfailed { E.faults err.old ≡ 0 }
    ensures cause { FailsExactly (E.faults err.old) (E.faults err.new) result }
    ensures text { Puts (E.written err.old) block.old (E.written err.new) block.new result
        (flat_map text.rank_line efforts.now) }
{
    for effort in efforts {
        block.make_room(err, LINE)?;
        add_effort(block, effort);
    }
    Ok(())
}

/// Puts the lines of all branches.
fn put_branches<E: Sink>(block: &mut Block, err: &mut E, branches: &[Listed]) -> Result<(), Failed>
    requires unfailed { E.faults err.old ≡ 0 }
    ensures cause { FailsExactly (E.faults err.old) (E.faults err.new) result }
    ensures text { Puts (E.written err.old) block.old (E.written err.new) block.new result
        (flat_map text.branch_line branches.now) }
{
    for branch in branches {
        block.make_room(err, LINE)?;
        add_branch(block, branch);
    }
    Ok(())
}

/// Writes a report: the line `# hot report 1`; for each rank the line `rank Q bodies N opened O
/// asks A`; for each branch, by ascending key, the line `branch KEY rank Q`; the line `letters L
/// rounds K cells C bound B`; and the line `# end report`. `Failed` comes exactly where the sink's
/// count of faults rises, and then a front of the text was written. No memory is taken.
pub fn report_text<E: Sink>(err: &mut E, report: &RunReport) -> Result<(), Failed>
    requires unfailed { E.faults err.old ≡ 0 }
    ensures cause { FailsExactly (E.faults err.old) (E.faults err.new) result }
    ensures text { Writes (E.written err.old) (E.written err.new) result
        (text.report_text report.now) }
{
    let mut block = Block::new();
    block.push(b"# hot report 1\n");
    put_efforts(&mut block, err, report.efforts())?;
    put_branches(&mut block, err, report.branches())?;
    block.make_room(err, 2 * LINE)?;
    add_totals(&mut block, report);
    block.push(b"# end report\n");
    block.finish(err)
}

/// How many pairs all ranks opened.
fn all_opened(efforts: &[Effort]) -> u128
    requires few { length efforts.now ≤ max_ranks }
    ensures value { result ≡ sum_by (λ e. e.opened) efforts.now }
{
    let mut sum = 0;
    for effort in efforts {
        sum += u128::from(effort.opened);
    }
    sum
}

/// How many cells all ranks asked for.
fn all_asks(efforts: &[Effort]) -> u128
    requires few { length efforts.now ≤ max_ranks }
    ensures value { result ≡ sum_by (λ e. e.asks) efforts.now }
{
    let mut sum = 0;
    for effort in efforts {
        sum += u128::from(effort.asks);
    }
    sum
}

/// Adds what all ranks did.
fn add_ranks(block: &mut Block, report: &RunReport)
    requires room { length block.old + 150 ≤ BLOCK }
    ensures text { block.new ≡ block.old ++ text.ranks_part report.now }
    ensures short { length block.new ≤ length block.old + 150 }
{
    let efforts = report.efforts();
    block.add(" ranks ", efforts.len());
    block.add(" opened ", all_opened(efforts));
    block.add(" asks ", all_asks(efforts));
}

/// Adds the cells in play, the letters and the rounds.
fn add_log(block: &mut Block, report: &RunReport)
    requires room { length block.old + 150 ≤ BLOCK }
    ensures text { block.new ≡ block.old ++ text.log_part report.now }
    ensures short { length block.new ≤ length block.old + 150 }
{
    block.add(" cells ", report.cells());
    block.add(" letters ", report.letters());
    block.add(" rounds ", report.rounds());
}

/// Adds the sum of the forces.
fn add_sum(block: &mut Block, sum: &ForceSum)
    requires room { length block.old + 150 ≤ BLOCK }
    ensures text { block.new ≡ block.old ++ text.sum_part sum.now }
    ensures short { length block.new ≤ length block.old + 150 }
{
    block.add(" sum ", sum.x);
    block.add(" ", sum.y);
    block.add(" ", sum.z);
}

/// Writes the line of a run on generated bodies. `Failed` comes exactly where the sink's count of
/// faults rises, and then a front of the line was written. No memory is taken.
pub fn sample_text<O: Sink>(out: &mut O, sample: &Sample) -> Result<(), Failed>
    requires unfailed { O.faults out.old ≡ 0 }
    ensures cause { FailsExactly (O.faults out.old) (O.faults out.new) result }
    ensures text { Writes (O.written out.old) (O.written out.new) result
        (text.sample_line sample.now) }
{
    let mut block = Block::new();
    block.add("sample bodies ", sample.bodies);
    block.add(" seed ", sample.seed);
    add_ranks(&mut block, &sample.report);
    add_log(&mut block, &sample.report);
    add_sum(&mut block, &sample.sum);
    block.push(b"\n");
    block.finish(out)
}
