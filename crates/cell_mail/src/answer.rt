ghost use Rattle.std.specs.Prelude.{◌≡◌, ◌++◌, OnOk};
ghost use Rattle.std.specs.List.{list_all};
ghost use Rattle.hot_units.specs.Keys as keys;
ghost use Rattle.hot_units.specs.Order as order;
ghost use Rattle.cell_mail.specs.Sizes.{mark_size};
ghost use Rattle.cell_mail.specs.Spelling.{number, tag_of, entries, item_bytes};
ghost use Rattle.cell_mail.specs.Grammar as grammar;
ghost use Rattle.cell_mail.specs.Reading.{Gives, good_answer, entries_at, item_at};
ghost use Rattle.cell_mail.specs.Skimming as skimming;

use crate::LetterError;
use crate::entry::{Entry, counted_of, put_counted};
use crate::keyed::rise;
use crate::limits::{BODIES, CHILDREN, MAX_CHILDREN, is_below_root};
use crate::number::{put_u8, put_u64, u8_at, u32_at, u64_at};
use crate::skim::{Row, Skim, behind_row};
use hot_model::{Answer, Answered, CellRec};
use hot_units::limits::{MAX_LEAF, MAX_LEVEL};
use hot_units::{Body, covers, level};
use std::alloc::{AllocError, Global};

/// Whether all of the cells have a cell as parent.
fn are_children(parent: u64, cells: &[CellRec]) -> bool
    ensures { result ≡ list_all (grammar.has_parent parent) cells.now }
{
    for c in cells {
        if c.key / 8 != parent {
            return false;
        }
    }
    true
}

/// Whether a body is in a cell.
fn is_inside(cell: u64, b: &Body) -> bool
    requires { keys.IsCell cell }
    ensures { result ≡ keys.contains cell b.now }
{
    covers(cell, b.key)
}

/// Whether all of the bodies are in a cell.
fn are_inside(cell: u64, bodies: &[Body]) -> bool
    requires { keys.IsCell cell }
    ensures { result ≡ list_all (keys.contains cell) bodies.now }
{
    for b in bodies {
        if !is_inside(cell, b) {
            return false;
        }
    }
    true
}

/// Whether a body stands before another one.
#[tactic(auto, unfolding(hot_units::specs::Order::before))]
fn is_before(a: &Body, b: &Body) -> bool
    ensures { result ≡ order.before a.now b.now }
{
    a.key < b.key || (a.key == b.key && a.row < b.row)
}

/// Whether a body may stand behind the one before it, if there is one.
fn follows(last: &Option<Body>, b: &Body) -> bool
    ensures { result ≡ grammar.follows last.now b.now }
{
    match last {
        None => true,
        Some(a) => is_before(a, b),
    }
}

/// Whether the bodies ascend strictly.
fn bodies_ascend(bodies: &[Body]) -> bool
    ensures { result ≡ grammar.bodies_ascend bodies.now }
{
    let mut last: Option<Body> = None;
    for b in bodies {
        if !follows(&last, b) {
            return false;
        }
        last = Some(*b);
    }
    true
}

/// Whether an answer for a cell is good, besides its entries.
fn is_good_answer(key: u64, answer: &Answer) -> bool
    requires { keys.IsCell key }
    ensures { result ≡ good_answer key answer.now }
{
    match answer {
        Answer::Children(cells) => {
            let cells = cells.as_slice();
            1 <= cells.len()
                && cells.len() <= MAX_CHILDREN
                && rise(cells)
                && are_children(key, cells)
        }
        Answer::Bodies(bodies) => {
            let bodies = bodies.as_slice();
            1 <= bodies.len()
                && (bodies.len() <= MAX_LEAF as usize || level(key) == MAX_LEVEL)
                && bodies_ascend(bodies)
                && are_inside(key, bodies)
        }
    }
}

/// The entries of an answer with this tag.
#[tactic(auto, unfolding(crate::specs::Reading::entries_at))]
fn entries_of(alloc: Global, tag: u8, bytes: &[u8]) -> Result<(Answer, &[u8]), LetterError>
    ensures { Gives (λ x. (x.0, x.1.now)) result (entries_at tag bytes.now) }
{
    match tag {
        CHILDREN => {
            let (cells, rest) = counted_of::<CellRec>(alloc, bytes)?;
            Ok((Answer::Children(cells), rest))
        }
        BODIES => {
            let (bodies, rest) = counted_of::<Body>(alloc, bytes)?;
            Ok((Answer::Bodies(bodies), rest))
        }
        _ => Err(LetterError::NotALetter),
    }
}

/// Writes the tag of an answer and its entries.
fn put_answer(out: &mut Vec<u8>, answer: &Answer) -> Result<(), AllocError>
    ensures { OnOk result
        (out.new.items
        ≡ out.old.items ++ (number mark_size (tag_of answer.now) ++ entries answer.now)) }
{
    match answer {
        Answer::Children(cells) => {
            put_u8(out, CHILDREN)?;
            put_counted(out, cells.as_slice())
        }
        Answer::Bodies(bodies) => {
            put_u8(out, BODIES)?;
            put_counted(out, bodies.as_slice())
        }
    }
}

impl Entry for Answered {
    ghost at = { item_at };

    ghost spelled = { item_bytes };

    #[tactic(auto, using(crate::proofs::Hints::on_items), unfolding(crate::specs::Reading::item_at),)]
    fn read(alloc: Global, bytes: &[u8]) -> Result<(Answered, &[u8]), LetterError> {
        let (key, rest) = u64_at(bytes)?;
        let (tag, rest) = u8_at(rest)?;
        let (answer, rest) = entries_of(alloc, tag, rest)?;
        if !is_below_root(key) {
            return Err(LetterError::NotALetter);
        }
        if !is_good_answer(key, &answer) {
            return Err(LetterError::NotALetter);
        }
        Ok((Answered { key, answer }, rest))
    }

    fn write(&self, out: &mut Vec<u8>) -> Result<(), AllocError> {
        put_u64(out, self.key)?;
        put_answer(out, &self.answer)
    }
}

impl Row for CellRec {
    ghost stands = { skimming.child_stands };

    fn stands(&self, cell: u64, last: &Option<CellRec>) -> bool {
        match last {
            None => 0 < self.key && self.key / 8 == cell,
            Some(a) => a.key < self.key && self.key / 8 == cell,
        }
    }
}

impl Row for Body {
    ghost stands = { skimming.body_stands };

    fn stands(&self, cell: u64, last: &Option<Body>) -> bool {
        follows(last, self) && is_inside(cell, self)
    }
}

/// Whether so many bodies may stand in the answer for a cell.
fn fits_leaf(cell: u64, count: u32) -> bool
    requires { keys.IsCell cell }
    ensures { result ≡ grammar.fits_leaf cell count }
{
    count as usize <= MAX_LEAF as usize || level(cell) == MAX_LEVEL
}

/// The bytes behind the entries of a good answer for a cell with this tag.
#[tactic(auto, unfolding(crate::specs::Skimming::answer_past))]
fn behind_answer(alloc: Global, cell: u64, tag: u8, bytes: &[u8]) -> Result<&[u8], LetterError>
    requires { keys.IsCell cell }
    ensures { Gives (λ x. x.now) result (skimming.answer_past cell tag bytes.now) }
{
    match tag {
        CHILDREN => {
            let (count, rest) = u32_at(bytes)?;
            if !(1 <= count && count as usize <= MAX_CHILDREN) {
                return Err(LetterError::NotALetter);
            }
            behind_row::<CellRec>(alloc, cell, count, rest)
        }
        BODIES => {
            let (count, rest) = u32_at(bytes)?;
            if !(1 <= count && fits_leaf(cell, count)) {
                return Err(LetterError::NotALetter);
            }
            behind_row::<Body>(alloc, cell, count, rest)
        }
        _ => Err(LetterError::NotALetter),
    }
}

impl Skim for Answered {
    ghost key_at = { skimming.item_key_at };

    #[tactic(auto, using(crate::proofs::Hints::on_items), unfolding(crate::specs::Skimming::item_key_at),)]
    fn skim(alloc: Global, bytes: &[u8]) -> Result<(u64, &[u8]), LetterError> {
        let (key, rest) = u64_at(bytes)?;
        let (tag, rest) = u8_at(rest)?;
        if !is_below_root(key) {
            return Err(LetterError::NotALetter);
        }
        let rest = behind_answer(alloc, key, tag, rest)?;
        Ok((key, rest))
    }
}
