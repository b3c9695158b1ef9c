//! However an input is cut, its header has one verdict.

ghost use Rattle.sdf_header.specs.Verdict.{Gives, verdict};
ghost use Rattle.sdf_header.specs.Reading.{joined};

use crate::layout::{HeaderError, Layout};
use crate::reader::HeaderReader;
use std::alloc::Global;

/// The layout of the header of an input that is there in pieces, or why there is none: the verdict
/// of the bytes joined, over every cutting.
pub fn read_pieces(alloc: Global, pieces: &[&[u8]]) -> Result<Layout, HeaderError>
    ensures value { Gives result (verdict (joined pieces.now)) }
{
    let Ok(mut reader) = HeaderReader::new(alloc) else {
        return Err(HeaderError::Memory);
    };
    for piece in pieces {
        let _ = reader.feed(piece);
    }
    reader.finish()
}
