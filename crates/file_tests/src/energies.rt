// Depths and their sums as text, byte for byte.
use hot_io::MemSink;
use std::alloc::Global;
use std::process::Abort;
use well_out::write_energy;

/// The text of depths and sums in a sink: all of it, or the front that has room, and a failure.
fn text_is(
    rt: &impl Abort,
    alloc: Global,
    idents: &[i128],
    wells: &[u128],
    sums: (u128, u128),
    text: &[u8],
    room: usize,
) {
    assert!(rt; idents.len() == wells.len() && room <= 999);
    let mut out = MemSink::new(alloc, 7, room as u64).expect(rt, "memory");
    let outcome = write_energy(&mut out, idents, wells, sums);
    assert_eq!(rt; outcome.is_err(), room < text.len());
    assert_eq!(rt; out.written(), &text[..room.min(text.len())]);
}

/// Two bodies, and sums of two digits.
const SMALL_TEXT: &[u8] = b"# hot energy 1\n8 3\n-9 0\nsum 12 40\n# end 2\n";

/// The widest idents, the deepest body, and the largest sums.
const WIDE_TEXT: &[u8] =
    b"# hot energy 1\n-9223372036854775808 1208925819614629174706176\n18446744073709551615 0\nsum 1329227995784915872903807060280344576 85070591730234615865843651857942052863\n# end 2\n";

#[test]
fn worked_energies(rt: HostRuntime) {
    let alloc = rt.alloc();
    let none = b"# hot energy 1\nsum 0 0\n# end 0\n";
    text_is(&rt, alloc, &[], &[], (0, 0), none, 99);
    let wide = [-9223372036854775808, 18446744073709551615];
    let sums = (1 << 120, (1 << 126) - 1);
    text_is(&rt, alloc, &wide, &[1 << 80, 0], sums, WIDE_TEXT, 999);
    for room in 0..50 {
        text_is(&rt, alloc, &[8, -9], &[3, 0], (12, 40), SMALL_TEXT, room);
    }
}
