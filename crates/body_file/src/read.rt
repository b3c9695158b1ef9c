//! Reading one file from a source.
ghost use Rattle.std.specs.Prelude.{◌≡◌, true, false, ◌<◌, MatchResult};
ghost use Rattle.hot_io.specs.Reading.{Reading, Stands};
ghost use Rattle.body_file.specs.Reading.{AreBefore, IsPromptBehind, ReadsFile, StopsFile};

use crate::fault::FileError;
use crate::limits::PIECE_BYTES;
use crate::reader::BodyReader;
use body_set::BodySet;
use hot_io::{MAX_OPENS, Source};
use std::alloc::Global;

/// The bodies of the files before and of the file of this name, which is read to its end.
pub fn read_file<S: Source>(
    alloc: Global,
    source: &mut S,
    name: &str,
    before: Option<BodySet>,
) -> Result<BodySet, FileError>
    requires unfailed { S.faults source.old ≡ 0 }
    requires closed { S.is_open source.old ≡ false }
    requires few { S.opens source.old < MAX_OPENS }
    requires allowed { S.allows source.old (S.opens source.old) name.now ≡ true }
    requires before { AreBefore before }
    ensures answer { (input : Reading)
        × Stands S.left S.is_open S.opens S.faults (S.file source.old name.now) source.old
        source.new input × IsPromptBehind before input
        × MatchResult result (ReadsFile before input) (StopsFile before input) }
    ensures files { S.file source.new ≡ S.file source.old }
    ensures names { S.allows source.new ≡ S.allows source.old }
{
    if source.open(name).is_err() {
        return Err(FileError::Broken);
    }
    let mut reader = BodyReader::new(alloc, before)?;
    let mut buf = [0; PIECE_BYTES];
    'pieces: loop {
        let Ok(count) = source.read(&mut buf) else {
            return Err(FileError::Broken);
        };
        if count == 0 {
            return reader.finish();
        }
        reader = reader.feed(alloc, &buf[..count])?;
    }
}
