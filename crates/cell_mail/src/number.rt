ghost use Rattle.std.specs.Prelude.{◌≡◌, ◌++◌, OnOk};
ghost use Rattle.std.specs.List.{flat_map};
ghost use Rattle.cell_mail.specs.Sizes.{mark_size, count_size, key_size, sum_size, sums_count};
ghost use Rattle.cell_mail.specs.Spelling.{number};
ghost use Rattle.cell_mail.specs.Reading.{Gives, number_at, many};

use crate::LetterError;
use crate::limits::{COUNT_SIZE, KEY_SIZE, MARK_SIZE, SUM_SIZE, SUMS};
use byteorder::{ByteOrder, LittleEndian};
use std::alloc::AllocError;

/// The number of one byte at the front, and the bytes after it.
#[tactic(auto, unfolding(crate::specs::Reading::number_at))]
pub(crate) fn u8_at(bytes: &[u8]) -> Result<(u8, &[u8]), LetterError>
    ensures { Gives (λ x. (x.0, x.1.now)) result (number_at mark_size bytes.now) }
{
    if bytes.is_empty() {
        return Err(LetterError::NotALetter);
    }
    Ok((bytes[0], &bytes[MARK_SIZE..]))
}

/// The number of four bytes at the front, and the bytes after them.
#[tactic(auto, unfolding(crate::specs::Reading::number_at))]
pub(crate) fn u32_at(bytes: &[u8]) -> Result<(u32, &[u8]), LetterError>
    ensures { Gives (λ x. (x.0, x.1.now)) result (number_at count_size bytes.now) }
{
    if bytes.len() < COUNT_SIZE {
        return Err(LetterError::NotALetter);
    }
    Ok((LittleEndian::read_u32(bytes), &bytes[COUNT_SIZE..]))
}

/// The number of eight bytes at the front, and the bytes after them.
#[tactic(auto, unfolding(crate::specs::Reading::number_at))]
pub(crate) fn u64_at(bytes: &[u8]) -> Result<(u64, &[u8]), LetterError>
    ensures { Gives (λ x. (x.0, x.1.now)) result (number_at key_size bytes.now) }
{
    if bytes.len() < KEY_SIZE {
        return Err(LetterError::NotALetter);
    }
    Ok((LittleEndian::read_u64(bytes), &bytes[KEY_SIZE..]))
}

/// The number of sixteen bytes at the front, and the bytes after them.
#[tactic(auto, unfolding(crate::specs::Reading::number_at))]
pub(crate) fn u128_at(bytes: &[u8]) -> Result<(u128, &[u8]), LetterError>
    ensures { Gives (λ x. (x.0, x.1.now)) result (number_at sum_size bytes.now) }
{
    if bytes.len() < SUM_SIZE {
        return Err(LetterError::NotALetter);
    }
    Ok((LittleEndian::read_u128(bytes), &bytes[SUM_SIZE..]))
}

/// The nine sums of a record at the front, and the bytes after them.
pub(crate) fn sums_at(bytes: &[u8]) -> Result<([u128; SUMS], &[u8]), LetterError>
    ensures { Gives (λ x. (x.0, x.1.now)) result (many (number_at sum_size) sums_count bytes.now) }
{
    let mut sums = [0; SUMS];
    let mut rest = bytes;
    for i in 0..SUMS {
        let (sum, after) = u128_at(rest)?;
        sums[i] = sum;
        rest = after;
    }
    Ok((sums, rest))
}

/// Writes one byte at the end.
#[tactic(auto, using(crate::proofs::Numbers::on_writing))]
pub(crate) fn put_u8(out: &mut Vec<u8>, n: u8) -> Result<(), AllocError>
    ensures { OnOk result (out.new.items ≡ out.old.items ++ number mark_size n) }
{
    out.extend_from_slice(&[n])
}

/// Writes four bytes at the end, the least of them first.
pub(crate) fn put_u32(out: &mut Vec<u8>, n: u32) -> Result<(), AllocError>
    ensures { OnOk result (out.new.items ≡ out.old.items ++ number count_size n) }
{
    let mut word = [0; COUNT_SIZE];
    LittleEndian::write_u32(&mut word, n);
    out.extend_from_slice(&word)
}

/// Writes eight bytes at the end, the least of them first.
pub(crate) fn put_u64(out: &mut Vec<u8>, n: u64) -> Result<(), AllocError>
    ensures { OnOk result (out.new.items ≡ out.old.items ++ number key_size n) }
{
    let mut word = [0; KEY_SIZE];
    LittleEndian::write_u64(&mut word, n);
    out.extend_from_slice(&word)
}

/// Writes sixteen bytes at the end, the least of them first.
pub(crate) fn put_u128(out: &mut Vec<u8>, n: u128) -> Result<(), AllocError>
    ensures { OnOk result (out.new.items ≡ out.old.items ++ number sum_size n) }
{
    let mut word = [0; SUM_SIZE];
    LittleEndian::write_u128(&mut word, n);
    out.extend_from_slice(&word)
}

/// Writes the four lowest bytes of a count at the end, the least of them first.
pub(crate) fn put_count(out: &mut Vec<u8>, n: usize) -> Result<(), AllocError>
    ensures { OnOk result (out.new.items ≡ out.old.items ++ number count_size n) }
{
    let mut word = [0; KEY_SIZE];
    LittleEndian::write_u64(&mut word, n as u64);
    out.extend_from_slice(&word[..COUNT_SIZE])
}

/// Writes sums at the end, sixteen bytes each.
pub(crate) fn put_sums(out: &mut Vec<u8>, sums: &[u128]) -> Result<(), AllocError>
    ensures { OnOk result (out.new.items ≡ out.old.items ++ flat_map (number sum_size) sums.now) }
{
    for sum in sums {
        put_u128(out, *sum)?;
    }
    Ok(())
}
