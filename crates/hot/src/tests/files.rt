// Forces of files.
ghost use Rattle.std.specs.Prelude.{◌≡◌, None};

use super::{
    AMPLE, BROKEN, Ended, FileCase, MASSES, PAIR, PLACES, PULLS, WHOLE, WORDS, call, call_with,
    check, check_files, file, joined, least_first, most_first, plain_file,
};
use crate::Status;
use hot_io::MemSource;
use std::alloc::Global;
use std::process::Abort;
use std::thread::Threads;
use wire::{MemWire, OpenGate};

#[test]
fn forces_of_files(rt: HostRuntime) {
    let alloc = rt.alloc();
    let far = [
        0, 0, 0, 1, 1_048_576, 0, 0, 4_194_304, 1_048_577, 0, 0, 4_194_304,
    ];
    let twins = [
        0, 0, 0, 1, 1_048_576, 0, 0, 4_194_304, 1_048_576, 0, 0, 4_194_304,
    ];
    let near = [0, 0, 0, 1, 2, 0, 0, 4_194_304, 3, 0, 0, 4_194_304];
    let cases: [FileCase<'_>; 13] = [
        (
            "forces --eps 1 --leaf 1 --theta 1/1 --moments 2",
            MASSES,
            b"3",
            &near,
            Status::Done,
            b"# hot forces 1\n0 25220089743732 0 0\n1 70367397827599 0 0\n2 -70367403886018 0 0\n# end 3\n",
            b"",
        ),
        (
            "forces --eps 1 --leaf 1 --theta 1/1 --moments 1",
            MASSES,
            b"3",
            &near,
            Status::Done,
            b"# hot forces 1\n0 22517943161405 0 0\n1 70367397827599 0 0\n2 -70367403886018 0 0\n# end 3\n",
            b"",
        ),
        (WORDS, MASSES, b"2", &PAIR, Status::Done, PULLS, b""),
        (WORDS, MASSES, b"", &PAIR, Status::Done, PULLS, b""),
        (
            WORDS,
            PLACES,
            b"0",
            &[],
            Status::Done,
            b"# hot forces 1\n# end 0\n",
            b"",
        ),
        (
            WORDS,
            PLACES,
            b"1",
            &[7, 8, 9],
            Status::Done,
            b"# hot forces 1\n0 0 0 0\n# end 1\n",
            b"",
        ),
        (
            WORDS,
            PLACES,
            b"1",
            &[2_097_151, 0, 0],
            Status::Done,
            b"# hot forces 1\n0 0 0 0\n# end 1\n",
            b"",
        ),
        (
            WORDS,
            MASSES,
            b"1",
            &[0, 0, 0, 4_194_304],
            Status::Done,
            b"# hot forces 1\n0 0 0 0\n# end 1\n",
            b"",
        ),
        (
            "forces --eps 1",
            PLACES,
            b"2",
            &[0, 0, 0, 1, 2, 2],
            Status::Done,
            b"# hot forces 1\n0 621377 1242754 1242754\n1 -621377 -1242754 -1242754\n# end 2\n",
            b"",
        ),
        (
            "forces",
            PLACES,
            b"3",
            &[0, 0, 0, 1, 0, 0, 2, 0, 0],
            Status::Done,
            b"# hot forces 1\n0 8932854 0 0\n1 0 0 0\n2 -8932854 0 0\n# end 3\n",
            b"",
        ),
        (
            "forces --eps 1 --leaf 1 --theta 1/1",
            MASSES,
            b"3",
            &far,
            Status::Done,
            b"# hot forces 1\n0 127 0 0\n1 70367402021887 0 0\n2 -70367402021887 0 0\n# end 3\n",
            b"",
        ),
        (
            "forces --leaf 1 --theta 0/1 --eps 1",
            MASSES,
            b"3",
            &far,
            Status::Done,
            b"# hot forces 1\n0 126 0 0\n1 70367402021887 0 0\n2 -70367402021887 0 0\n# end 3\n",
            b"",
        ),
        (
            "forces --eps 1 --leaf 1 --theta 1/1",
            MASSES,
            b"3",
            &twins,
            Status::Done,
            b"# hot forces 1\n0 127 0 0\n1 0 0 0\n2 0 0 0\n# end 3\n",
            b"",
        ),
    ];
    check_files(&rt, alloc, &cases);
}

#[test]
fn most_significant_byte_first(rt: HostRuntime) {
    let alloc = rt.alloc();
    let rows = most_first(&rt, alloc, &PAIR);
    let input = file(&rt, alloc, b"0x12345678", MASSES, b"2", &rows);
    let ended = call(&rt, alloc, WORDS, &input, AMPLE);
    check(&rt, &ended, Status::Done, PULLS, b"");
}

/// The header that a converter wrote: comments, texts, a double, an array, and a form feed behind
/// the last `#`.
const CONVERTED: &[u8] =
    b"# SDF 1.0\nparameter byteorder = 0x78563412;\n/* a small box, written by a converter */\nchar units[16] = \"fixed point\";\nint64_t npart = 2;\ndouble redshift = 0.5;\nint cube_bits = 21;\nint64_t cube_x0 = -1048576;\nint64_t cube_y0 = -1048576;\nint64_t cube_z0 = -1048576;\nint32_t mass = 2;\nstruct {\n\tint32_t x, y, z;\t/* position */\n\tfloat vx, vy, vz;\n\tint64_t ident;\n\tfloat phi[2];\n}[2];\n#\x0c\n# SDF-EOH\n";

#[test]
fn a_converted_file(rt: HostRuntime) {
    let alloc = rt.alloc();
    for filler in [0, -1] {
        let low = -1_048_576;
        let rows = least_first(
            &rt,
            alloc,
            &[
                low,
                low,
                low,
                filler,
                filler,
                filler,
                900,
                0,
                filler,
                filler,
                low + 4,
                low,
                low,
                filler,
                filler,
                filler,
                17,
                0,
                filler,
                filler,
            ],
        );
        let pieces: [&[u8]; 2] = [CONVERTED, &rows];
        let input = joined(&rt, alloc, &pieces);
        let ended = call(&rt, alloc, "forces --eps 1", &input, AMPLE);
        let lines = b"# hot forces 1\n900 2097150 0 0\n17 -2097150 0 0\n# end 2\n";
        check(&rt, &ended, Status::Done, lines, b"");
    }
}

/// Three named files, two of which were added under one name.
fn named_files(rt: &impl Abort, alloc: Global) -> MemSource
    ensures fresh { (result.faults ≡ 0) × (result.opens ≡ 0) × (result.left ≡ None) }
{
    let pair = plain_file(rt, alloc, MASSES, b"2", &PAIR);
    let mut source = MemSource::new(alloc, 7).expect(rt, "memory");
    source.add("-", b"").expect(rt, "memory");
    source.add("bodies", b"# SDF").expect(rt, "memory");
    source.add("bodies", &pair).expect(rt, "memory");
    source.add("other", b"# SDF").expect(rt, "memory");
    source
}

/// A call on them.
fn named<R: Threads + Sync + Abort>(rt: &R, alloc: Global, words: &str) -> Ended {
    let mut source = named_files(rt, alloc);
    let mut wire = MemWire::new(alloc).expect(rt, "memory");
    call_with(rt, alloc, words, &mut source, AMPLE, &mut wire, &OpenGate)
}

#[test]
fn the_file_that_the_words_name(rt: HostRuntime) {
    let alloc = rt.alloc();
    let cases: [(&str, Status, &[u8], &[u8]); 7] = [
        ("forces --eps 1 bodies", Status::Done, PULLS, b""),
        (
            "forces --mail prompt --ranks 01 --form text --eps 1 bodies",
            Status::Done,
            PULLS,
            b"",
        ),
        ("split bodies", Status::Done, WHOLE, b""),
        (
            "forces other",
            Status::Input,
            b"",
            b"hot: H3 header has no end\n",
        ),
        ("forces", Status::Input, b"", b"hot: H1 not an SDF file\n"),
        ("forces -", Status::Input, b"", b"hot: H1 not an SDF file\n"),
        ("forces nowhere", Status::ReadFault, b"", BROKEN),
    ];
    for (words, status, out, err) in cases {
        let ended = named(&rt, alloc, words);
        check(&rt, &ended, status, out, err);
    }
}
