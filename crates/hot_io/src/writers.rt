// Writers of a whole text, piece by piece.
ghost use Rattle.std.specs.Prelude.{◌≡◌, map};
ghost use Rattle.hot_io.specs.Faults.{FailsExactly};
ghost use Rattle.hot_io.specs.Writing.{Writes, Tells, joined};

use crate::{Block, Failed, Sink};

/// Writes all of `bytes`, as `Write::write_all` of Rust's standard library.
///
/// `Failed` comes exactly where the sink's count of faults rises, and then a front of the bytes was
/// written. The sink gets no empty piece. No memory is taken.
pub fn write_all<K: Sink>(sink: &mut K, bytes: &[u8]) -> Result<(), Failed>
    requires unfailed { K.faults sink.old ≡ 0 }
    ensures cause { FailsExactly (K.faults sink.old) (K.faults sink.new) result }
    ensures bytes { Writes (K.written sink.old) (K.written sink.new) result bytes.now }
{
    let mut done = 0;
    while done < bytes.len() {
        done += sink.write(&bytes[done..])?;
    }
    Ok(())
}

/// Writes the pieces one after another, through a block. Empty pieces are allowed.
///
/// `Failed` comes exactly where the sink's count of faults rises, and then a front of the pieces
/// joined was written. No memory is taken.
pub fn write_pieces<K: Sink>(sink: &mut K, pieces: &[&[u8]]) -> Result<(), Failed>
    requires unfailed { K.faults sink.old ≡ 0 }
    ensures cause { FailsExactly (K.faults sink.old) (K.faults sink.new) result }
    ensures bytes { Writes (K.written sink.old) (K.written sink.new) result
        (joined (map (λ piece. piece.now) pieces.now)) }
{
    let mut block = Block::new();
    for piece in pieces {
        block.put(sink, piece)?;
    }
    block.finish(sink)
}

/// The same as [`write_pieces`], for a caller whose contract speaks of what the sink gained.
///
/// At `Ok` the gain is the whole text, at `Failed` a front of it with the fault.
pub fn write_text<K: Sink>(sink: &mut K, pieces: &[&[u8]]) -> Result<(), Failed>
    requires unfailed { K.faults sink.old ≡ 0 }
    ensures gain { Tells (K.written sink.old) (K.written sink.new) (K.faults sink.old)
        (K.faults sink.new) result (joined (map (λ piece. piece.now) pieces.now)) }
{
    write_pieces(sink, pieces)
}
