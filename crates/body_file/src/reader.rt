//! A reader of a body file that is fed in pieces, however they are cut.
ghost use Rattle.std.specs.Prelude.{◌≡◌, ℕ, List, [], ◌++◌, true, false, Option, MatchResult, IfOk};
ghost use Rattle.body_set.specs.Sets.{SetValue};
ghost use Rattle.sdf_header.specs.Extent.{Open, extent};
ghost use Rattle.body_file.specs.Reading.{AreBefore, HasTaken, HasFile, IsWholeHeader, Stops};

use crate::cube::set_before;
use crate::fault::{FileError, FileFault, header_error};
use crate::rows::take_rows;
use body_set::BodySet;
use sdf_header::{Fed, HeaderReader};
use sdf_rows::Rows;
use std::alloc::{AllocError, Global};

/// A reader of a body file: first of its header, with the set of the files before, then of its
/// rows, with the bodies of the files before and those that they gave so far.
#[derive(Drop)]
pub enum BodyReader {
    Header(HeaderReader, Option<BodySet>),
    Rows(Rows, BodySet),
}

/// The reader with the next piece, while it reads the header.
fn feed_header(
    alloc: Global,
    mut header: HeaderReader,
    before: Option<BodySet>,
    piece: &[u8],
) -> Result<BodyReader, FileError>
    requires open { extent header ≡ Open }
    requires before { AreBefore before }
    ensures { MatchResult result
        (λ reader. HasTaken before reader (header ++ piece.now))
        (Stops before false (header ++ piece.now)) }
{
    match header.feed(piece) {
        Ok(Fed::More) => Ok(BodyReader::Header(header, before)),
        Ok(Fed::Ended(taken)) => begin_rows(alloc, header, before, &piece[taken..]),
        Err(fault) => Err(FileError::Refused(FileFault::Header(fault))),
    }
}

/// The reader behind a whole header, given the first bytes of the rows.
fn begin_rows(
    alloc: Global,
    header: HeaderReader,
    before: Option<BodySet>,
    piece: &[u8],
) -> Result<BodyReader, FileError>
    requires whole { (text : ℕ) × IsWholeHeader text header }
    requires before { AreBefore before }
    ensures { MatchResult result
        (λ reader. HasTaken before reader (header ++ piece.now))
        (Stops before false (header ++ piece.now)) }
{
    let layout = match header.finish() {
        Ok(layout) => layout,
        Err(error) => return Err(header_error(error)),
    };
    let Some(mut set) = set_before(alloc, before, layout.cube) else {
        return Err(FileError::Refused(FileFault::OtherCube));
    };
    let mut rows = Rows::from_row(layout, set.len() as u64);
    take_rows(&mut rows, &mut set, piece)?;
    Ok(BodyReader::Rows(rows, set))
}

impl BodyReader {
    /// A reader behind these files that was given no bytes.
    pub fn new(alloc: Global, before: Option<BodySet>) -> Result<BodyReader, AllocError>
        ensures { IfOk result (λ reader. HasTaken before reader []) }
    {
        Ok(BodyReader::Header(HeaderReader::new(alloc)?, before))
    }

    /// The reader with the next piece of the file, or the fault that the bytes so far decide.
    pub fn feed(self, alloc: Global, piece: &[u8]) -> Result<BodyReader, FileError>
        requires fed { (before : Option SetValue) × (bytes : List ℕ) × AreBefore before
            × HasTaken before self bytes }
        ensures { (before : Option SetValue) (bytes : List ℕ) → AreBefore before
            → HasTaken before self bytes → MatchResult result
            (λ reader. HasTaken before reader (bytes ++ piece.now))
            (Stops before false (bytes ++ piece.now)) }
    {
        match self {
            BodyReader::Header(header, before) => feed_header(alloc, header, before, piece),
            BodyReader::Rows(mut rows, mut set) => {
                take_rows(&mut rows, &mut set, piece)?;
                Ok(BodyReader::Rows(rows, set))
            }
        }
    }

    /// The bodies of the files before and of a file whose bytes were all given, or its fault.
    pub fn finish(self) -> Result<BodySet, FileError>
        requires fed { (before : Option SetValue) × (bytes : List ℕ) × AreBefore before
            × HasTaken before self bytes }
        ensures answer { (before : Option SetValue) (bytes : List ℕ) → AreBefore before
            → HasTaken before self bytes → MatchResult result
            (λ set. HasFile before bytes set)
            (Stops before true bytes) }
    {
        match self {
            BodyReader::Header(header, _) => match header.finish() {
                Ok(_) => unreachable!(),
                Err(error) => Err(header_error(error)),
            },
            BodyReader::Rows(rows, set) => match rows.finish() {
                Ok(_) => Ok(set),
                Err(fault) => Err(FileError::Refused(FileFault::End(fault))),
            },
        }
    }
}
