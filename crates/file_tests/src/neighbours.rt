// Neighbours as text, byte for byte.
use hot_io::MemSink;
use near_out::write_near;
use std::alloc::Global;
use std::process::Abort;

/// The text of lists in a sink: all of it, or the front that has room, and a failure.
fn text_is(
    rt: &impl Abort,
    alloc: Global,
    idents: &[i128],
    lists: &[Vec<u32>],
    text: &[u8],
    chunk: usize,
    room: usize,
) {
    assert!(rt; idents.len() == lists.len() && 1 <= chunk && room <= 9999);
    let mut out = MemSink::new(alloc, chunk, room as u64).expect(rt, "memory");
    let outcome = write_near(&mut out, idents, lists);
    assert_eq!(rt; outcome.is_err(), room < text.len());
    assert_eq!(rt; out.written(), &text[..room.min(text.len())]);
}

/// A list of these rows.
fn list_of(rt: &impl Abort, alloc: Global, rows: &[u32]) -> Vec<u32> {
    Vec::from_slice(alloc, rows).expect(rt, "memory")
}

/// Two bodies that are near each other.
const PAIR_TEXT: &[u8] = b"# hot near 1\n0 1 1\n1 1 0\n# end 2\n";

/// The widest idents, the first and the last row there can be, and a body with nothing near it.
const WIDE_TEXT: &[u8] =
    b"# hot near 1\n-9223372036854775808 3 0 7 4294967294\n18446744073709551615 0\n# end 2\n";

#[test]
fn worked_neighbours(rt: HostRuntime) {
    let alloc = rt.alloc();
    text_is(&rt, alloc, &[], &[], b"# hot near 1\n# end 0\n", 1, 99);
    let alone = [list_of(&rt, alloc, &[])];
    text_is(
        &rt,
        alloc,
        &[7],
        &alone,
        b"# hot near 1\n7 0\n# end 1\n",
        3,
        99,
    );
    let wide = [-9223372036854775808, 18446744073709551615];
    let lists = [
        list_of(&rt, alloc, &[0, 7, 4294967294]),
        list_of(&rt, alloc, &[]),
    ];
    text_is(&rt, alloc, &wide, &lists, WIDE_TEXT, 7, 99);
    let pair = [list_of(&rt, alloc, &[1]), list_of(&rt, alloc, &[0])];
    for room in 0..40 {
        text_is(&rt, alloc, &[0, 1], &pair, PAIR_TEXT, 64, room);
    }
}

/// The text of one body with 3,000 rows: more than a block.
fn long_text(rt: &impl Abort, alloc: Global) -> Vec<u8> {
    let mut text = Vec::from_slice(alloc, b"# hot near 1\n5 3000").expect(rt, "memory");
    for _ in 0..3000 {
        text.extend_from_slice(b" 7").expect(rt, "memory");
    }
    text.extend_from_slice(b"\n# end 1\n").expect(rt, "memory");
    text
}

#[test]
fn a_list_past_a_block(rt: HostRuntime) {
    let alloc = rt.alloc();
    let lists = [list_of(&rt, alloc, &[7; 3000])];
    let text = long_text(&rt, alloc);
    for room in [9999, 6000, 4097, 4095] {
        text_is(&rt, alloc, &[5], &lists, &text, 1000, room);
    }
}
