// Words and files that are refused.
use super::{
    FileCase, MASSES, PAIR, PLACES, Refusal, WORDS, check_files, check_refusals, joined, plain_file,
};
use crate::Status;

#[test]
fn refused_rows(rt: HostRuntime) {
    let alloc = rt.alloc();
    let cases: [FileCase<'_>; 11] = [
        (
            WORDS,
            PLACES,
            b"1",
            &[2_097_152, 0, 0],
            Status::Input,
            b"",
            b"hot: B3 row 0 outside the cube on x\n",
        ),
        (
            WORDS,
            MASSES,
            b"2",
            &[0, 0, 0, 1, 0, -1, 2_097_152, 0],
            Status::Input,
            b"",
            b"hot: B3 row 1 outside the cube on y\n",
        ),
        (
            WORDS,
            MASSES,
            b"1",
            &[0, 0, 2_097_152, 0],
            Status::Input,
            b"",
            b"hot: B3 row 0 outside the cube on z\n",
        ),
        (
            WORDS,
            MASSES,
            b"1",
            &[0, 0, 0, 0],
            Status::Input,
            b"",
            b"hot: B4 row 0 mass out of range\n",
        ),
        (
            WORDS,
            MASSES,
            b"1",
            &[0, 0, 0, -1],
            Status::Input,
            b"",
            b"hot: B4 row 0 mass out of range\n",
        ),
        (
            WORDS,
            b"int32_t x, y, z, work;",
            b"1",
            &[0, 0, 0, -1],
            Status::Input,
            b"",
            b"hot: B5 row 0 work out of range\n",
        ),
        (
            WORDS,
            MASSES,
            b"3",
            &PAIR,
            Status::Input,
            b"",
            b"hot: B1 row 2 is cut short\n",
        ),
        (
            WORDS,
            MASSES,
            b"1",
            &PAIR,
            Status::Input,
            b"",
            b"hot: B2 bytes after the last row\n",
        ),
        (
            WORDS,
            b"float x;\nint32_t y, z;",
            b"0",
            &[],
            Status::Input,
            b"",
            b"hot: H11 column x is not whole\n",
        ),
        (
            WORDS,
            b"int32_t x, y;",
            b"0",
            &[],
            Status::Input,
            b"",
            b"hot: H10 column z is missing\n",
        ),
        (
            WORDS,
            PLACES,
            b"1048577",
            &[],
            Status::Input,
            b"",
            b"hot: H13 too many rows 1048577\n",
        ),
    ];
    check_files(&rt, alloc, &cases);
}

#[test]
fn a_byte_less_or_more(rt: HostRuntime) {
    let alloc = rt.alloc();
    let mut less = plain_file(&rt, alloc, MASSES, b"2", &PAIR);
    let pieces: [&[u8]; 2] = [&less, b"\0"];
    let more = joined(&rt, alloc, &pieces);
    less.truncate(139);
    let cases: [Refusal<'_>; 2] = [
        (WORDS, &less, b"hot: B1 row 1 is cut short\n"),
        (WORDS, &more, b"hot: B2 bytes after the last row\n"),
    ];
    check_refusals(&rt, alloc, Status::Input, &cases);
}

#[test]
fn refused_headers(rt: HostRuntime) {
    let alloc = rt.alloc();
    let cases: [Refusal<'_>; 9] = [
        (WORDS, b"", b"hot: H1 not an SDF file\n"),
        (WORDS, b"# SDF", b"hot: H3 header has no end\n"),
        (
            WORDS,
            b"# SDF\nint x = ;\n# SDF-EOH\n",
            b"hot: H4 syntax at 14\n",
        ),
        (
            WORDS,
            b"# SDF\nlong n = 1;\n# SDF-EOH\n",
            b"hot: H5 unknown type at 6\n",
        ),
        (WORDS, b"# SDF\n# SDF-EOH\n", b"hot: H8 no struct\n"),
        (
            WORDS,
            b"# SDF\nint n = 1;\nint n = 2;\n# SDF-EOH\n",
            b"hot: H6 name twice at 21\n",
        ),
        (
            WORDS,
            b"# SDF\nstruct {}[];\nstruct {}[];\n# SDF-EOH\n",
            b"hot: H7 second struct at 19\n",
        ),
        (
            WORDS,
            b"# SDF\nstruct {\ndouble phi[129];\n}[];\n# SDF-EOH\n",
            b"hot: H9 row too wide at 22\n",
        ),
        (
            WORDS,
            b"# SDF\nint cube_bits = 30;\nstruct {\nint x, y, z;\n}[];\n# SDF-EOH\n",
            b"hot: H12 bad parameter cube_bits\n",
        ),
    ];
    check_refusals(&rt, alloc, Status::Input, &cases);
}

#[test]
fn refused_words(rt: HostRuntime) {
    let alloc = rt.alloc();
    let cases: [Refusal<'_>; 11] = [
        ("", b"", b"hot: A1 no command\n"),
        ("weigh", b"", b"hot: A2 unknown command weigh\n"),
        (
            "forces --theta 2/1 --moments 2",
            b"",
            b"hot: A8 ratio above 1 with --moments 2\n",
        ),
        ("make --theta 1/1", b"", b"hot: A3 unknown option --theta\n"),
        ("forces --theta", b"", b"hot: A4 no value for --theta\n"),
        (
            "forces --leaf 8 --leaf 8",
            b"",
            b"hot: A5 option given twice --leaf\n",
        ),
        (
            "forces --ranks 0 f",
            b"",
            b"hot: A6 bad value 0 for --ranks\n",
        ),
        ("forces a --ranks 2", b"", b"hot: A7 extra word --ranks\n"),
        (
            "sample --ranks 0",
            b"",
            b"hot: A6 bad value 0 for --ranks\n",
        ),
        ("forces --ranks 2 - a -", b"", b"hot: A7 extra word -\n"),
        (
            "forces --form hdf",
            b"",
            b"hot: A6 bad value hdf for --form\n",
        ),
    ];
    check_refusals(&rt, alloc, Status::Words, &cases);
}
