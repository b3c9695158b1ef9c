// Worked cases: what each source gives, what each sink takes, and the real edge.
ghost use Rattle.std.specs.Prelude.{◌≡◌, true, None, IfOk};

use super::*;
use std::alloc::{AllocError, Global};
use std::fs;
use std::fs::File;
use std::io::{BufWriter, Write};
use std::test::Fail;

// What a source gave: how many bytes each read, the bytes together, and whether the last read
// failed.
#[derive(Drop)]
struct Given {
    counts: Vec<usize>,
    bytes: Vec<u8>,
    failed: bool,
}

impl Given {
    fn is(&self, counts: &[usize], text: &str, failed: bool) -> bool {
        self.counts.as_slice() == counts
            && self.bytes.as_slice() == text.as_bytes()
            && self.failed == failed
    }
}

// Reads an open file to its end or a fault, into a buffer of 1 to 16 bytes.
fn read_all<S: Source>(alloc: Global, source: &mut S, room: usize) -> Result<Given, AllocError>
    requires unfailed { S.faults source.old ≡ 0 }
    requires opened { S.is_open source.old ≡ true }
{
    let mut given = Given {
        counts: Vec::new(alloc),
        bytes: Vec::new(alloc),
        failed: false,
    };
    let mut buf = [0; 16];
    let room = room.clamp(1, 16);
    for _ in 0..64 {
        let Ok(count) = source.read(&mut buf[..room]) else {
            given.failed = true;
            break;
        };
        given.counts.push(count)?;
        given.bytes.extend_from_slice(&buf[..count])?;
        if count == 0 {
            break;
        }
    }
    Ok(given)
}

// A source with the files `bodies`, which was replaced, and `-`.
fn two_files(alloc: Global, chunk: usize, stop: Option<u64>) -> Result<MemSource, AllocError>
    ensures fresh { IfOk result (λ s. (s.faults ≡ 0) × (s.opens ≡ 0) × (s.left ≡ None)) }
{
    let mut source = MemSource::new(alloc, chunk.max(1))?;
    source.add("bodies", b"forgotten")?;
    source.add("-", b"tree")?;
    source.add("bodies", b"gravity")?;
    if let Some(place) = stop {
        source.stop(place);
    }
    Ok(source)
}

// What the source of two files gives of one of them, if it opens that.
fn memory_gives(
    alloc: Global,
    chunk: usize,
    stop: Option<u64>,
    room: usize,
    name: &str,
) -> Result<Option<Given>, AllocError> {
    let mut source = two_files(alloc, chunk, stop)?;
    if source.open(name).is_err() {
        return Ok(None);
    }
    let given = read_all(alloc, &mut source, room)?;
    Ok(Some(given))
}

#[test]
fn memory_gives_its_files(rt: HostRuntime) -> Result<(), Fail> {
    let cases: [(usize, usize, &str, &[usize], &str); 4] = [
        (1, 4, "bodies", &[1, 1, 1, 1, 1, 1, 1, 0], "gravity"),
        (3, 16, "bodies", &[3, 3, 1, 0], "gravity"),
        (16, 2, "bodies", &[2, 2, 2, 1, 0], "gravity"),
        (16, 16, "-", &[4, 0], "tree"),
    ];
    for (chunk, room, name, counts, text) in cases {
        let given = memory_gives(rt.alloc(), chunk, None, room, name)?;
        assert!(rt;
            given.is_some_and(|it| it.is(counts, text, false)),
            "{name} by {chunk}"
        );
    }
    Ok(())
}

#[test]
fn memory_stops_where_it_is_told(rt: HostRuntime) -> Result<(), Fail> {
    let cases: [(usize, u64, &str, &[usize], &str, bool); 6] = [
        (16, 0, "bodies", &[], "", true),
        (3, 4, "bodies", &[3, 1], "grav", true),
        (1, 6, "bodies", &[1, 1, 1, 1, 1, 1], "gravit", true),
        (16, 7, "bodies", &[7], "gravity", true),
        (16, 8, "bodies", &[7, 0], "gravity", false),
        (1, 4, "-", &[1, 1, 1, 1], "tree", true),
    ];
    for (chunk, stop, name, counts, text, failed) in cases {
        let given = memory_gives(rt.alloc(), chunk, Some(stop), 16, name)?;
        assert!(rt;
            given.is_some_and(|it| it.is(counts, text, failed)),
            "{name} up to {stop}"
        );
    }
    Ok(())
}

#[test]
fn memory_opens_its_files_alone(rt: HostRuntime) -> Result<(), Fail> {
    for name in ["bodie", "bodies ", "", "forgotten"] {
        assert!(rt;
            memory_gives(rt.alloc(), 1, None, 16, name)?.is_none(),
            "{name}"
        );
    }
    Ok(())
}

#[test]
fn a_stop_counts_over_all_files(rt: HostRuntime) -> Result<(), Fail> {
    let mut source = two_files(rt.alloc(), 16, Some(9))?;
    let mut buf = [0; 16];
    assert!(rt; source.open("bodies").is_ok());
    assert!(rt; matches!(source.read(&mut buf), Ok(7)));
    assert!(rt; matches!(source.read(&mut buf), Ok(0)));
    source.add("bodies", b"orbit")?;
    assert!(rt; source.open("bodies").is_ok());
    assert!(rt; matches!(source.read(&mut buf), Ok(2)));
    assert!(rt; buf.starts_with(b"oravity\0"));
    assert!(rt; matches!(source.read(&mut buf), Err(Failed)));
    Ok(())
}

// Whether a sink of so much room takes this front of four pieces, and fails or not.
fn takes(
    alloc: Global,
    chunk: usize,
    room: u64,
    text: &str,
    failed: bool,
) -> Result<bool, AllocError> {
    let mut sink = MemSink::new(alloc, chunk.max(1), room.min(MAX_ROOM))?;
    let pieces: [&[u8]; 4] = [b"two", b"", b" ", b"bodies"];
    let outcome = write_pieces(&mut sink, &pieces);
    Ok(outcome.is_err() == failed && sink.written() == text.as_bytes())
}

#[test]
fn memory_takes_what_it_has_room_for(rt: HostRuntime) -> Result<(), Fail> {
    let cases: [(usize, u64, &str, bool); 7] = [
        (16, 0, "", true),
        (1, 0, "", true),
        (1, 5, "two b", true),
        (4, 9, "two bodie", true),
        (1, 10, "two bodies", false),
        (16, 10, "two bodies", false),
        (3, 64, "two bodies", false),
    ];
    for (chunk, room, text, failed) in cases {
        assert!(rt;
            takes(rt.alloc(), chunk, room, text, failed)?,
            "{room} by {chunk}"
        );
    }
    Ok(())
}

#[test]
fn memory_takes_piece_by_piece(rt: HostRuntime) -> Result<(), Fail> {
    let mut sink = MemSink::new(rt.alloc(), 2, 6)?;
    assert!(rt; sink.write(b"key") == Ok(2));
    assert!(rt; write_all(&mut sink, b"s") == Ok(()));
    assert!(rt; write_text(&mut sink, &[b" of all"]) == Err(Failed));
    assert!(rt; sink.written() == b"kes of".as_slice());
    Ok(())
}

// Whether a sink of so much room takes this front of a text, and fails or not.
fn takes_a_text(alloc: Global, room: u64, text: &str, failed: bool) -> Result<bool, AllocError> {
    let mut block = Block::new();
    block.add("rank ", 3_u32);
    block.add(" sum ", -7_i128);
    block.push(b"\n");
    let mut sink = MemSink::new(alloc, 4, room.min(MAX_ROOM))?;
    let outcome = block.finish(&mut sink);
    Ok(outcome.is_err() == failed && sink.written() == text.as_bytes())
}

#[test]
fn a_text_of_words_and_numbers(rt: HostRuntime) -> Result<(), Fail> {
    for (room, text, failed) in [
        (100, "rank 3 sum -7\n", false),
        (13, "rank 3 sum -7", true),
        (0, "", true),
    ] {
        assert!(rt; takes_a_text(rt.alloc(), room, text, failed)?, "{room}");
    }
    Ok(())
}

// A sink that takes each piece whole, and counts its writes and bytes.
#[derive(Drop)]
struct Tally {
    writes: usize,
    bytes: usize,
}

impl Sink for Tally {
    ghost written = { λ s. None };

    ghost faults = { λ s. 0 };

    fn write(&mut self, bytes: &[u8]) -> Result<usize, Failed> {
        self.writes = self.writes.saturating_add(1);
        self.bytes = self.bytes.saturating_add(bytes.len());
        Ok(bytes.len())
    }
}

// 2,000 numbers and a space before each are 8,890 bytes. A block is sent where the longest number
// may not fit behind it: twice before the end.
#[test]
fn a_write_a_block(rt: HostRuntime) -> Result<(), Fail> {
    let mut sink = Tally {
        writes: 0,
        bytes: 0,
    };
    let mut block = Block::new();
    for number in 0..2_000_u32 {
        assert!(rt; block.make_room(&mut sink, 41) == Ok(()));
        block.add(" ", number);
    }
    assert!(rt; (sink.writes, sink.bytes < 8_890) == (2, true));
    assert!(rt; block.finish(&mut sink) == Ok(()));
    assert!(rt; (sink.writes, sink.bytes) == (3, 8_890));
    Ok(())
}

// Bytes that fit no block go out at once, behind what was held.
#[test]
fn more_than_a_block(rt: HostRuntime) -> Result<(), Fail> {
    let mut sink = Tally {
        writes: 0,
        bytes: 0,
    };
    let mut block = Block::new();
    assert!(rt; block.put(&mut sink, b"key") == Ok(()));
    assert!(rt; (sink.writes, sink.bytes) == (0, 0));
    assert!(rt; block.put(&mut sink, &[b'0'; 4_097]) == Ok(()));
    assert!(rt; (sink.writes, sink.bytes) == (2, 4_100));
    assert!(rt; block.finish(&mut sink) == Ok(()));
    assert!(rt; (sink.writes, sink.bytes) == (2, 4_100));
    Ok(())
}

// What the system gives of a file, if it opens that.
fn system_gives(rt: &HostRuntime, name: &str, room: usize) -> Result<Option<Given>, AllocError> {
    let mut source = FileSource::new(rt);
    if source.open(name).is_err() {
        return Ok(None);
    }
    let given = read_all(rt.alloc(), &mut source, room)?;
    Ok(Some(given))
}

#[test]
fn the_system_gives(rt: HostRuntime) -> Result<(), Fail> {
    fs::write(&rt, "rows.sdf", "rows and rows")?;
    let cases: [(&str, usize, &[usize], &str, bool); 3] = [
        ("rows.sdf", 5, &[5, 5, 3, 0], "rows and rows", false),
        ("-", 16, &[0], "", false),
        (".", 16, &[], "", true),
    ];
    for (name, room, counts, text, failed) in cases {
        let given = system_gives(&rt, name, room)?;
        assert!(rt;
            given.is_some_and(|it| it.is(counts, text, failed)),
            "{name}"
        );
    }
    assert!(rt; system_gives(&rt, "nowhere", 16)?.is_none());
    fs::remove_file(&rt, "rows.sdf")?;
    Ok(())
}

// Whether the file has this text. It is removed.
fn file_is(rt: &HostRuntime, name: &str, text: &str) -> Result<bool, Fail> {
    let bytes = fs::read(rt, name)?;
    fs::remove_file(rt, name)?;
    Ok(bytes.as_slice() == text.as_bytes())
}

#[test]
fn the_system_takes(rt: HostRuntime) -> Result<(), Fail> {
    let mut out = OutSink::new(File::create(&rt, "out.txt")?);
    assert!(rt; write_all(&mut out, b"forces").is_ok());
    assert!(rt; file_is(&rt, "out.txt", "forces")?);
    Ok(())
}

#[test]
fn the_system_takes_errors(rt: HostRuntime) -> Result<(), Fail> {
    let mut err = ErrSink::new(File::create(&rt, "err.txt")?);
    assert!(rt; write_text(&mut err, &[b"hot: ", b"", b"write fault"]).is_ok());
    assert!(rt; file_is(&rt, "err.txt", "hot: write fault")?);
    Ok(())
}

// Whether a writer that takes nothing is told by the sink at once.
fn is_refused<W: Write + Drop>(writer: W) -> bool {
    let mut out = OutSink::new(writer);
    out.write(b"f") == Err(Failed)
}

// A full device refuses each write, and a buffer before it hides that until it is flushed.
#[test]
fn no_fault_hides_in_a_buffer(rt: HostRuntime) -> Result<(), Fail> {
    assert!(rt; is_refused(File::create(&rt, "/dev/full")?));
    assert!(rt; is_refused(BufWriter::new(rt.alloc(), File::create(&rt, "/dev/full")?)?));
    let none: &mut [u8] = &mut [];
    assert!(rt; is_refused(none));
    Ok(())
}

#[test]
fn no_fault_of_errors_hides_in_a_buffer(rt: HostRuntime) -> Result<(), Fail> {
    let mut err = ErrSink::new(BufWriter::new(rt.alloc(), File::create(&rt, "/dev/full")?)?);
    assert!(rt; write_all(&mut err, b"hot: ") == Err(Failed));
    Ok(())
}
