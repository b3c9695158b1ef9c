// Headers of body files: faults and limits, in pieces.
use sdf_header::{
    ColName, Fed, HeaderError, HeaderFault, HeaderReader, Layout, ParamName, read_pieces,
};
use std::alloc::Global;
use std::process::Abort;

/// How many bytes a piece has: one, seven, or all.
pub const SIZES: [usize; 3] = [1, 7, 100_000];

/// The verdict of bytes that come in pieces of a size, where the answer at the header's end is the
/// header's length.
pub fn fed(
    rt: &impl Abort,
    alloc: Global,
    bytes: &[u8],
    size: usize,
) -> Result<Layout, HeaderError> {
    let mut reader = HeaderReader::new(alloc).expect(rt, "memory");
    let mut before: usize = 0;
    let mut end = None;
    for piece in bytes.chunks(size.max(1)) {
        match reader.feed(piece) {
            Ok(Fed::More) => before = before.saturating_add(piece.len()),
            Ok(Fed::Ended(taken)) => {
                end = Some(before.saturating_add(taken));
                break;
            }
            Err(_) => break,
        }
    }
    let found = reader.finish();
    if let Ok(layout) = &found {
        assert_eq!(rt; end, Some(layout.header_len as usize));
    }
    found
}

fn fault_of(found: Result<Layout, HeaderError>) -> Option<HeaderFault> {
    match found {
        Err(HeaderError::Fault(fault)) => Some(fault),
        _ => None,
    }
}

/// The bytes are refused for this fault, in pieces of each size.
fn fault_is(rt: &impl Abort, alloc: Global, bytes: &[u8], fault: HeaderFault, place: usize) {
    for size in SIZES {
        let found = fault_of(fed(rt, alloc, bytes, size));
        assert_eq!(rt; found, Some(fault), "input {place} by {size}");
    }
}

/// A front, a middle and a back.
fn joined(rt: &impl Abort, alloc: Global, front: &[u8], middle: &[u8], back: &[u8]) -> Vec<u8> {
    let mut bytes = Vec::from_slice(alloc, front).expect(rt, "memory");
    bytes.extend_from_slice(middle).expect(rt, "memory");
    bytes.extend_from_slice(back).expect(rt, "memory");
    bytes
}

/// The header of some statements.
pub fn header_of(rt: &impl Abort, alloc: Global, statements: &[u8]) -> Vec<u8> {
    joined(rt, alloc, b"# SDF\n", statements, b"\n# SDF-EOH\n")
}

/// Whole inputs, and their faults.
const WHOLE: [(&[u8], HeaderFault); 18] = [
    (b"", HeaderFault::NoMagic),
    (b"# SD", HeaderFault::NoMagic),
    (b"# SDG\n# SDF-EOH\n", HeaderFault::NoMagic),
    (b"#SDF \n# SDF-EOH\n", HeaderFault::NoMagic),
    (b"# SDF", HeaderFault::NoEnd),
    (b"# SDF-EOH", HeaderFault::NoEnd),
    (b"# SDF\n# SDF-EOH", HeaderFault::NoEnd),
    (b"# SDF\n # SDF-EOH\n", HeaderFault::NoEnd),
    (b"# SDF\n# SDF EOH\n", HeaderFault::NoEnd),
    (b"# SDF\nlong n = 1;\n", HeaderFault::NoEnd),
    (b"# SDF-EOH\n", HeaderFault::NoStruct),
    (b"# SDF\n# SDF-EOH\n", HeaderFault::NoStruct),
    (b"# SDF\n#xSDF-EOHx\nint a = ;", HeaderFault::NoStruct),
    (b"# SDF int a = ;\n# SDF-EOH\n", HeaderFault::NoStruct),
    (
        b"# SDF\n#\n/* \n# x SDF-EOH y\n*/\n# SDF-EOH\n",
        HeaderFault::Syntax(8),
    ),
    (
        b"# SDF\nchar a[] = \"\n# SDF-EOH\n\";\n# SDF-EOH\n",
        HeaderFault::Syntax(17),
    ),
    (
        b"# SDF\nlong n = 1;\n# SDF-EOH\n",
        HeaderFault::UnknownType(6),
    ),
    (b"# SDF\nint x = ;\n# SDF-EOH\n", HeaderFault::Syntax(14)),
];

/// Statements, and the faults of their headers.
const MIDDLES: [(&[u8], HeaderFault); 101] = [
    (
        b"parameter a = 18446744073709551616;",
        HeaderFault::Syntax(20),
    ),
    (
        b"parameter a = -0x8000000000000001;",
        HeaderFault::Syntax(20),
    ),
    (b"int a = 0x10000000000000000;", HeaderFault::Syntax(14)),
    (
        b"char a[18446744073709551616] = \"\";",
        HeaderFault::Syntax(13),
    ),
    (
        b"struct {int x[18446744073709551616];}[];",
        HeaderFault::Syntax(20),
    ),
    (b"struct {}[18446744073709551616];", HeaderFault::Syntax(16)),
    (b"struct {char a[1024], b[0];}[];", HeaderFault::Syntax(30)),
    (b"struct {char a[1024], b[2", HeaderFault::TooWide(28)),
    (b"unsigned /* x", HeaderFault::UnknownType(6)),
    (b"unsigned 1", HeaderFault::UnknownType(6)),
    (b"struct {unsigned $", HeaderFault::UnknownType(14)),
    (b"struct {long x;}[];", HeaderFault::UnknownType(14)),
    (b"struct {int x y;}[];", HeaderFault::Syntax(20)),
    (
        b"struct {int x, y, z; float work; char mass;}[];",
        HeaderFault::NotWhole(ColName::Mass),
    ),
    (
        b"struct {int x, y, z; double work[1]; float ident[2];}[1048577];",
        HeaderFault::TooMany(1_048_577),
    ),
    (
        b"struct {int x;}[];\nstruct {int y;}[];",
        HeaderFault::SecondStruct(25),
    ),
    (b"struct {int x, x;}[];", HeaderFault::NameTwice(21)),
    (b"int a = 1.5;", HeaderFault::Syntax(14)),
    (b"int a = 18446744073709551616;", HeaderFault::Syntax(14)),
    (b"int a = 0x;", HeaderFault::Syntax(14)),
    (b"/* x", HeaderFault::Syntax(6)),
    (b"struct {int x[0];}[];", HeaderFault::Syntax(20)),
    (
        b"struct {char a[1024]; char b;}[];",
        HeaderFault::TooWide(33),
    ),
    (b"unsigned float a = 1;", HeaderFault::UnknownType(6)),
    (b"struct {int x, y;}[];", HeaderFault::Missing(ColName::Z)),
    (
        b"parameter cube_bits = 30; struct {int x, y, z;}[];",
        HeaderFault::BadParameter(ParamName::CubeBits),
    ),
    (
        b"struct {float x; int32_t y, z;}[];",
        HeaderFault::NotWhole(ColName::X),
    ),
    (
        b"struct {int32_t x, y, z;}[1048577];",
        HeaderFault::TooMany(1048577),
    ),
    // Statements that are not complete end at the end place.
    (b"int a = 1", HeaderFault::Syntax(16)),
    (b"int a", HeaderFault::Syntax(12)),
    (b"parameter", HeaderFault::Syntax(16)),
    (b"int a = 1 # ;", HeaderFault::Syntax(20)),
    (b"struct {} []", HeaderFault::Syntax(19)),
    // Numbers.
    (b"int a = -9223372036854775809;", HeaderFault::Syntax(14)),
    (b"float a = 18446744073709551616;", HeaderFault::Syntax(16)),
    (b"int a = 1e3;", HeaderFault::Syntax(14)),
    (b"float a = 1e+;", HeaderFault::Syntax(16)),
    (b"float a = .;", HeaderFault::Syntax(16)),
    (b"float a = 1.2.3;", HeaderFault::Syntax(16)),
    (b"int a = +;", HeaderFault::Syntax(14)),
    (b"int a = 12a;", HeaderFault::Syntax(14)),
    (b"int a = 0x1.;", HeaderFault::Syntax(14)),
    (b"int a = 0x1e+2;", HeaderFault::Syntax(18)),
    (b"int a = 1\xe9;", HeaderFault::Syntax(15)),
    // Bytes that begin no token, and comments.
    (b"$", HeaderFault::Syntax(6)),
    (b"/ x", HeaderFault::Syntax(6)),
    (b"\x0b", HeaderFault::Syntax(6)),
    (b"/*/ int a = ;", HeaderFault::Syntax(6)),
    // Statements.
    (b"1;", HeaderFault::Syntax(6)),
    (b"int = 1;", HeaderFault::Syntax(10)),
    (b"parameter a = b c;", HeaderFault::Syntax(22)),
    (b"parameter a = ;", HeaderFault::Syntax(20)),
    (b"char a = \"x\";", HeaderFault::Syntax(15)),
    (b"int a[] = \"x\";", HeaderFault::Syntax(11)),
    (b"unsigned char a[] = \"x\";", HeaderFault::Syntax(21)),
    (b"char a[-1] = \"x\";", HeaderFault::Syntax(13)),
    (b"char a[1.0] = \"x\";", HeaderFault::Syntax(13)),
    (b"char a[3 = \"x\";", HeaderFault::Syntax(15)),
    (b"char a[3] = 3;", HeaderFault::Syntax(18)),
    (b"uint8_t a = 1.0;", HeaderFault::Syntax(18)),
    (b"unsigned", HeaderFault::UnknownType(6)),
    (b"unsigned $", HeaderFault::UnknownType(6)),
    (b"unsigned int8_t a = 1;", HeaderFault::UnknownType(6)),
    (b"int a = 1; float a = 2.0;", HeaderFault::NameTwice(23)),
    (b"parameter a = 1; int a = ;", HeaderFault::NameTwice(27)),
    // Columns.
    (b"struct {}[];", HeaderFault::Missing(ColName::X)),
    (b"struct {int x, y, z}[];", HeaderFault::Syntax(25)),
    (b"struct {int x,;}[];", HeaderFault::Syntax(20)),
    (b"struct {int x; ; }[];", HeaderFault::Syntax(21)),
    (b"struct {parameter a;}[];", HeaderFault::UnknownType(14)),
    (b"struct {struct a;}[];", HeaderFault::UnknownType(14)),
    (b"struct {int x[1025];}[];", HeaderFault::Syntax(20)),
    (b"struct {int x[1.0];}[];", HeaderFault::Syntax(20)),
    (b"struct {int x[1;}[];", HeaderFault::Syntax(21)),
    (b"struct {char a[1024], b[;}[];", HeaderFault::Syntax(30)),
    (b"struct {char a[1024], b[1;}[];", HeaderFault::TooWide(28)),
    (b"struct {char a[1024], b $}[];", HeaderFault::TooWide(28)),
    (b"struct {char a[1024], a;}[];", HeaderFault::NameTwice(28)),
    (b"struct {int64_t a[128], b;}[];", HeaderFault::TooWide(30)),
    (b"struct {}[-1];", HeaderFault::Syntax(16)),
    // The order of the faults behind the text.
    (b"int cube_bits = 0;", HeaderFault::NoStruct),
    (
        b"struct {}[1048577]; int cube_bits = 0;",
        HeaderFault::Missing(ColName::X),
    ),
    (
        b"struct {int x[1], y, z;}[];",
        HeaderFault::Missing(ColName::X),
    ),
    (
        b"struct {float z; int x;}[];",
        HeaderFault::Missing(ColName::Y),
    ),
    (
        b"struct {char z; double work; int x, y;}[];",
        HeaderFault::NotWhole(ColName::Z),
    ),
    (
        b"struct {int x, y, z; double work; char ident;}[];",
        HeaderFault::NotWhole(ColName::Ident),
    ),
    (
        b"struct {int x, y, z; float mass;}[]; int mass = 0;",
        HeaderFault::NotWhole(ColName::Mass),
    ),
    (
        b"struct {int x, y, z; double work;}[]; int cube_x0[] = 0;",
        HeaderFault::Syntax(55),
    ),
    (
        b"struct {int x, y, z;}[1048577]; int cube_bits = 0;",
        HeaderFault::BadParameter(ParamName::CubeBits),
    ),
    (
        b"parameter mass = a; parameter byteorder = 1; struct {int x, y, z;}[];",
        HeaderFault::BadParameter(ParamName::ByteOrder),
    ),
    (
        b"char byteorder[] = \"0x12345678\"; struct {int x, y, z;}[];",
        HeaderFault::BadParameter(ParamName::ByteOrder),
    ),
    (
        b"float cube_bits = 21.0; struct {int x, y, z;}[];",
        HeaderFault::BadParameter(ParamName::CubeBits),
    ),
    (
        b"parameter cube_z0 = word; struct {int x, y, z;}[];",
        HeaderFault::BadParameter(ParamName::CubeZ0),
    ),
    (
        b"float cube_y0 = 0e0; int cube_x0 = 1; struct {int x, y, z;}[];",
        HeaderFault::BadParameter(ParamName::CubeY0),
    ),
    (
        b"int mass = 4294967296; struct {int x, y, z;}[];",
        HeaderFault::BadParameter(ParamName::Mass),
    ),
    (
        b"struct {int x, y, z; float mass[2];}[]; int mass = 0;",
        HeaderFault::BadParameter(ParamName::Mass),
    ),
    (
        b"struct {int x, y, z;}[18446744073709551615];",
        HeaderFault::TooMany(18_446_744_073_709_551_615),
    ),
    // Good statements, and then no struct.
    (
        b"int a = -9223372036854775808; int b = 18446744073709551615; int c=+007;int d=-0x0;",
        HeaderFault::NoStruct,
    ),
    (
        b"float a = 18446744073709551616.0; float b = 1e3; double c = .5; double d = 1.; char e = 1.5E-3;",
        HeaderFault::NoStruct,
    ),
    (
        b"int int = 0X1f; parameter struct = parameter; char parameter[-0] = \"/* # ;\"; char b[0x10] = \"\";",
        HeaderFault::NoStruct,
    ),
    (
        b"unsigned short a = 1; unsigned\x0c/**/int b = 2; unsigned # \x80\nchar c = 3; /* \xff */ char d[] = \"\xfe\";",
        HeaderFault::NoStruct,
    ),
];

#[test]
fn faults(rt: HostRuntime) {
    let alloc = rt.alloc();
    for (place, (bytes, fault)) in WHOLE.iter().enumerate() {
        fault_is(&rt, alloc, bytes, *fault, place);
    }
    for (place, (middle, fault)) in MIDDLES.iter().enumerate() {
        fault_is(&rt, alloc, &header_of(&rt, alloc, middle), *fault, place);
    }
}

/// A front, a byte and how often it follows, a back, and the fault of these. Texts have at most
/// 4,096 bytes, and the quote stands at 17; headers have at most 65,536, and so many decide that
/// there is none.
const LIMITS: [(&[u8], u8, usize, &[u8], HeaderFault); 7] = [
    (
        b"# SDF\nchar a[] = \"",
        b'\n',
        4096,
        b"\";\n# SDF-EOH\n",
        HeaderFault::NoStruct,
    ),
    (
        b"# SDF\nchar a[] = \"",
        b'\n',
        4097,
        b"\";\n# SDF-EOH\n",
        HeaderFault::Syntax(17),
    ),
    (
        b"# SDF",
        b' ',
        65_520,
        b"\n# SDF-EOH\nrows",
        HeaderFault::NoStruct,
    ),
    (
        b"# SDF",
        b' ',
        65_521,
        b"\n# SDF-EOH\nrows",
        HeaderFault::TooLong,
    ),
    (
        b"# SDF\n",
        b' ',
        70_000,
        b"\n# SDF-EOH\n",
        HeaderFault::TooLong,
    ),
    (b"# SDF", b'\n', 65_530, b"", HeaderFault::NoEnd),
    (b"# SDF", b'\n', 65_531, b"", HeaderFault::TooLong),
];

#[test]
fn limits(rt: HostRuntime) {
    let alloc = rt.alloc();
    for (place, (front, byte, count, back, fault)) in LIMITS.iter().enumerate() {
        let middle = vec![in alloc; *byte; *count].expect(&rt, "memory");
        let bytes = joined(&rt, alloc, front, &middle, back);
        fault_is(&rt, alloc, &bytes, *fault, place);
    }
}

/// Ends of a struct of 64 columns, and their faults: the 65th column begins at 339.
const LAST_COLUMNS: [(&[u8], HeaderFault); 4] = [
    (b"z;}[];", HeaderFault::TooWide(339)),
    (b"z[;}[];", HeaderFault::TooWide(339)),
    (b"h7;}[];", HeaderFault::NameTwice(339)),
    (b";}[];", HeaderFault::Syntax(339)),
];

/// A struct of 64 columns whose names take two bytes each, up to the next name.
fn many_columns(rt: &impl Abort, alloc: Global) -> Vec<u8> {
    let mut many = Vec::from_slice(alloc, b"struct {char ").expect(rt, "memory");
    for first in b"abcdefgh" {
        for second in b"01234567" {
            many.extend_from_slice(&[*first, *second, b',', b'\t', b'\r'])
                .expect(rt, "memory");
        }
    }
    many
}

#[test]
fn a_column_too_many(rt: HostRuntime) {
    let alloc = rt.alloc();
    let many = many_columns(&rt, alloc);
    for (place, (last, fault)) in LAST_COLUMNS.iter().enumerate() {
        let statements = joined(&rt, alloc, &many, last, b"");
        fault_is(
            &rt,
            alloc,
            &header_of(&rt, alloc, &statements),
            *fault,
            place,
        );
    }
}

#[test]
fn pieces(rt: HostRuntime) {
    let pieces: [&[u8]; 5] = [b"#", b" SDF\nint", b"", b" x = ;\n# SDF-EO", b"H\n\n"];
    let fault = fault_of(read_pieces(rt.alloc(), &pieces));
    assert_eq!(rt; fault, Some(HeaderFault::Syntax(14)));
}

/// A piece, and the answer to it behind those before.
type Answered = (&'static [u8], Result<Fed, HeaderFault>);

/// The pieces of an input have these answers, one after another, and the whole this fault.
fn answers_are(rt: &impl Abort, alloc: Global, pieces: &[Answered], fault: HeaderFault) {
    let mut reader = HeaderReader::new(alloc).expect(rt, "memory");
    for (piece, answer) in pieces {
        assert_eq!(rt; reader.feed(piece), *answer);
    }
    assert_eq!(rt; fault_of(reader.finish()), Some(fault));
}

const ENDED: [Answered; 6] = [
    (b"", Ok(Fed::More)),
    (b"# S", Ok(Fed::More)),
    (b"DF\nlong n = 1;\n# SDF", Ok(Fed::More)),
    (b"-EOH\n# SDF-EOH\n", Ok(Fed::Ended(5))),
    (b"\n", Ok(Fed::Ended(0))),
    (b"", Ok(Fed::Ended(0))),
];

const NO_HEADER: [Answered; 4] = [
    (b"#", Ok(Fed::More)),
    (b"#", Err(HeaderFault::NoMagic)),
    (b"", Err(HeaderFault::NoMagic)),
    (b" SDF", Err(HeaderFault::NoMagic)),
];

#[test]
fn answers(rt: HostRuntime) {
    answers_are(&rt, rt.alloc(), &ENDED, HeaderFault::UnknownType(6));
    answers_are(&rt, rt.alloc(), &NO_HEADER, HeaderFault::NoMagic);
}
