//! Where a header ends.

ghost use Rattle.std.specs.Prelude.{◌≡◌, ◌≤◌, ◌++◌, ◌∷◌, [], take, length, vec_capacity};
ghost use Rattle.hot_units.specs.Limits.{max_header_bytes};
ghost use Rattle.sdf_header.specs.Extent.{agrees, magic, contains, is_ending, closes, line_behind};
ghost use Rattle.sdf_header.specs.Extent.{extent, Scans, Stands};

use crate::header_fault::HeaderFault;
use hot_units::limits::MAX_HEADER_BYTES;

const MAGIC: &[u8; 5] = b"# SDF";

fn agrees(word: &[u8], bytes: &[u8]) -> bool
    ensures { result ≡ agrees word.now bytes.now }
{
    let mut letters = word;
    let mut rest = bytes;
    while let [byte, behind @ ..] = rest {
        let [letter, others @ ..] = letters else {
            return true;
        };
        if *byte != *letter {
            return false;
        }
        letters = others;
        rest = behind;
    }
    true
}

fn contains(word: &[u8], bytes: &[u8]) -> bool
    ensures { result ≡ contains word.now bytes.now }
{
    let mut rest = bytes;
    while let [_, behind @ ..] = rest {
        if rest.starts_with(word) {
            return true;
        }
        rest = behind;
    }
    false
}

fn is_ending(line: &[u8]) -> bool
    ensures { result ≡ is_ending line.now }
{
    let [first, ..] = line else {
        return false;
    };
    *first == b'#' && contains(b"SDF-EOH", line)
}

fn closes(byte: u8, line: &[u8]) -> bool
    ensures { result ≡ closes byte line.now }
{
    byte == b'\n' && is_ending(line)
}

fn line_behind(line: usize, byte: u8, len: usize) -> usize
    ensures { result ≡ line_behind line byte len }
{
    if byte == b'\n' { len } else { line }
}

/// Takes the next byte: the end place where the header ends with it.
fn step(kept: &mut Vec<u8>, line: &mut usize, byte: u8) -> Result<Option<usize>, HeaderFault>
    requires scans { Scans kept.old.items line.old }
    requires room { max_header_bytes ≤ vec_capacity kept.old }
    ensures items { kept.new.items ≡ kept.old.items ++ byte ∷ [] }
    ensures room { max_header_bytes ≤ vec_capacity kept.new }
    ensures stands { Stands result kept.new.items line.new }
{
    let ends = closes(byte, &kept[*line..]);
    let _ = kept.push(byte);
    if !agrees(MAGIC, kept) {
        return Err(HeaderFault::NoMagic);
    }
    if ends {
        return Ok(Some(*line));
    }
    if kept.len() == MAX_HEADER_BYTES {
        return Err(HeaderFault::TooLong);
    }
    *line = line_behind(*line, byte, kept.len());
    Ok(None)
}

/// Takes the bytes of a piece up to one that decides, and how many they are.
pub fn scan(
    kept: &mut Vec<u8>,
    line: &mut usize,
    piece: &[u8],
) -> (usize, Result<Option<usize>, HeaderFault>)
    requires scans { Scans kept.old.items line.old }
    requires room { max_header_bytes ≤ vec_capacity kept.old }
    ensures taken { kept.new.items ≡ kept.old.items ++ take result.0 piece.now }
    ensures within { result.0 ≤ length piece.now }
    ensures whole { result.1 ≡ Ok None → result.0 ≡ length piece.now }
    ensures room { max_header_bytes ≤ vec_capacity kept.new }
    ensures stands { Stands result.1 kept.new.items line.new }
{
    for (i, byte) in piece.iter().enumerate() {
        let found = step(kept, line, *byte);
        if !matches!(found, Ok(None)) {
            return (i + 1, found);
        }
    }
    (piece.len(), Ok(None))
}
