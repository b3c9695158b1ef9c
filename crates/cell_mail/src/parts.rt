ghost use Rattle.std.specs.Prelude.{◌≡◌, ◌++◌, OnOk};
ghost use Rattle.cell_mail.specs.Spelling.{key_bytes, record_bytes, body_bytes};
ghost use Rattle.cell_mail.specs.Reading.{Gives, key_at, record_at, body_at};
ghost use Rattle.cell_mail.specs.Skimming.{record_key_at};

use crate::LetterError;
use crate::entry::Entry;
use crate::limits::{is_below_root, is_sent};
use crate::number::{put_sums, put_u32, put_u64, sums_at, u32_at, u64_at};
use crate::skim::Skim;
use crate::sums::is_record;
use hot_model::CellRec;
use hot_units::{Body, body_of};
use std::alloc::{AllocError, Global};

impl Entry for u64 {
    ghost at = { key_at };

    ghost spelled = { key_bytes };

    #[tactic(auto, unfolding(crate::specs::Reading::key_at))]
    fn read(_alloc: Global, bytes: &[u8]) -> Result<(u64, &[u8]), LetterError> {
        let (key, rest) = u64_at(bytes)?;
        if !is_below_root(key) {
            return Err(LetterError::NotALetter);
        }
        Ok((key, rest))
    }

    fn write(&self, out: &mut Vec<u8>) -> Result<(), AllocError> {
        put_u64(out, *self)
    }
}

impl Skim for u64 {
    ghost key_at = { key_at };

    fn skim(alloc: Global, bytes: &[u8]) -> Result<(u64, &[u8]), LetterError> {
        <u64 as Entry>::read(alloc, bytes)
    }
}

impl Entry for CellRec {
    ghost at = { record_at };

    ghost spelled = { record_bytes };

    #[tactic(auto, using(crate::proofs::Hints::on_records), unfolding(crate::specs::Reading::record_at),)]
    fn read(_alloc: Global, bytes: &[u8]) -> Result<(CellRec, &[u8]), LetterError> {
        let (key, rest) = u64_at(bytes)?;
        let (count, rest) = u32_at(rest)?;
        let (mass, rest) = u64_at(rest)?;
        let (s, rest) = sums_at(rest)?;
        if !is_record(key, count, mass, s) {
            return Err(LetterError::NotALetter);
        }
        let sums = [s[0], s[1], s[2]];
        let products = [s[3], s[4], s[5], s[6], s[7], s[8]];
        Ok((CellRec::new(key, count, mass, sums, products), rest))
    }

    fn write(&self, out: &mut Vec<u8>) -> Result<(), AllocError> {
        put_u64(out, self.key)?;
        put_u32(out, self.count)?;
        put_u64(out, self.mass)?;
        let sums = [
            self.sx, self.sy, self.sz, self.sxx, self.syy, self.szz, self.sxy, self.sxz, self.syz,
        ];
        put_sums(out, &sums)
    }
}

impl Skim for CellRec {
    ghost key_at = { record_key_at };

    fn skim(alloc: Global, bytes: &[u8]) -> Result<(u64, &[u8]), LetterError> {
        match <CellRec as Entry>::read(alloc, bytes) {
            Ok((record, rest)) => Ok((record.key, rest)),
            Err(e) => Err(e),
        }
    }
}

impl Entry for Body {
    ghost at = { body_at };

    ghost spelled = { body_bytes };

    #[tactic(auto, using(crate::proofs::Hints::on_bodies), unfolding(crate::specs::Reading::body_at),)]
    fn read(_alloc: Global, bytes: &[u8]) -> Result<(Body, &[u8]), LetterError> {
        let (x, rest) = u32_at(bytes)?;
        let (y, rest) = u32_at(rest)?;
        let (z, rest) = u32_at(rest)?;
        let (mass, rest) = u32_at(rest)?;
        let (row, rest) = u32_at(rest)?;
        if !is_sent(x, y, z, mass, row) {
            return Err(LetterError::NotALetter);
        }
        match body_of(x, y, z, mass, row) {
            Some(body) => Ok((body, rest)),
            None => Err(LetterError::NotALetter),
        }
    }

    fn write(&self, out: &mut Vec<u8>) -> Result<(), AllocError> {
        put_u32(out, self.x)?;
        put_u32(out, self.y)?;
        put_u32(out, self.z)?;
        put_u32(out, self.mass)?;
        put_u32(out, self.row)
    }
}
