//! Reading the bodies of a list of files from a source.
ghost use Rattle.std.specs.Prelude.{◌≡◌, false, ◌+◌, ◌≤◌, All, IfOk, MatchResult, length, map};
ghost use Rattle.hot_units.specs.Limits.{max_files};
ghost use Rattle.sdf_rows.specs.Columns.{Is64Bits};
ghost use Rattle.body_file.specs.Files.{FilesRead, Is64BitVelocity, IsPrompt, ReadsBodies};
ghost use Rattle.body_file.specs.Files.{Stopped, stopped_at};
ghost use Rattle.body_file.specs.Sources.{AreAllowed, StandsBehind};

use crate::fault::{FileError, FoundFault, ReadError};
use crate::read::read_file;
use body_set::BodySet;
use hot_io::{MAX_OPENS, Source};
use std::alloc::Global;

/// The answer of a list of files whose file of this number was not read.
fn stop(error: FileError, file: usize) -> ReadError
    ensures { result ≡ stopped_at file error }
{
    match error {
        FileError::Broken => ReadError::Broken,
        FileError::Refused(fault) => ReadError::Refused(FoundFault { fault, file }),
        FileError::Memory => ReadError::Memory,
    }
}

/// The bodies of the files of these names, 1 to 16, which are read one after another, each to its
/// end, as one list: with the ident, the work weight and the velocity of each, in the order of the
/// rows of all.
///
/// The files are of this project's own profile, which is only after the self-describing files (SDF)
/// of the N-body codes: a header in words, and rows of numbers behind it. Places are in fine units,
/// 2^29 to an edge of the cube that the headers name; all files name the same. There are at most
/// 1,048,576 rows, a mass is 1 to 4,294,967,295 in the files' own unit, all mass is at most 2^40, a
/// work weight is 0 to 2^32 - 1, and an ident fits 64 bits, signed or unsigned. Rows are numbered
/// over all files, and a row without an ident has its number. A velocity is that of the columns `vx`,
/// `vy`, `vz`, each 0 where the file has no such column of whole numbers; it decides no fault.
///
/// `Broken` comes exactly where `open` or a read fails. `Refused` comes with the first fault in the
/// order of the files, and in each the first in its order: that of the header, another cube than
/// that of the first file, those of the rows, each with the tests of `BodyFault` in their order,
/// then how the rows end. Each fault that the bytes so far decide is answered before the next read
/// or open, and no fault is answered that they do not decide. `Memory` may come at any growth.
///
/// A read asks for at most 4,096 bytes. What is kept beside the bodies is that piece, the header
/// until it ends, and a row that goes on. At most 1,074,795,519 bytes are taken of a source that
/// tells its bytes: 16 headers of 65,536 bytes and 1,048,577 rows of 1,024 bytes always decide a
/// fault, and the last read may reach beyond them by one byte less than a piece.
pub fn read_bodies<S: Source>(
    alloc: Global,
    source: &mut S,
    names: &[&str],
) -> Result<BodySet, ReadError>
    requires some { 1 ≤ length names.now }
    requires files { length names.now ≤ max_files }
    requires unfailed { S.faults source.old ≡ 0 }
    requires closed { S.is_open source.old ≡ false }
    requires few { S.opens source.old + length names.now ≤ MAX_OPENS }
    requires allowed { AreAllowed (S.allows source.old) (S.opens source.old)
        (map (λ name. name.now) names.now) }
    ensures answer { (r : FilesRead)
        × StandsBehind S.Source (map (λ name. name.now) names.now) source.old source.new r
        × IsPrompt r
        × MatchResult result (ReadsBodies (length names.now) r) (Stopped r) }
    ensures files { S.file source.new ≡ S.file source.old }
    ensures names { S.allows source.new ≡ S.allows source.old }
    ensures named { IfOk result (λ set. All Is64Bits set.idents) }
    ensures slow { IfOk result (λ set. All Is64BitVelocity set.velocities) }
{
    let mut set = None;
    let mut count = 0;
    'files: for name in names {
        count += 1;
        match read_file(alloc, source, name, set) {
            Ok(read) => set = Some(read),
            Err(error) => return Err(stop(error, count)),
        }
    }
    Ok(set.unwrap())
}
