// Layouts that headers of body files have.
use crate::headers::{SIZES, fed, header_of};
use sdf_header::{Col, Layout, Order, Whole};
use std::alloc::Global;
use std::process::Abort;

/// A layout in a form that can be compared.
#[derive(Clone, Copy, PartialEq)]
struct Shape {
    header_len: u32,
    width: u32,
    count: Option<u32>,
    order: Order,
    bits: u32,
    corner: [i128; 3],
    mass_default: u32,
    axes: [Col; 3],
    mass: Option<Col>,
    ident: Option<Col>,
    work: Option<Col>,
    velocity: [Option<Col>; 3],
}

fn shape_of(l: &Layout) -> Shape {
    Shape {
        header_len: l.header_len,
        width: l.width,
        count: l.count,
        order: l.order,
        bits: l.cube.bits,
        corner: [l.cube.x0, l.cube.y0, l.cube.z0],
        mass_default: l.mass_default,
        axes: [l.x, l.y, l.z],
        mass: l.mass,
        ident: l.ident,
        work: l.work,
        velocity: [l.vx, l.vy, l.vz],
    }
}

/// The bytes have this layout, in pieces of each size.
fn shape_is(rt: &impl Abort, alloc: Global, bytes: &[u8], shape: Shape) {
    for size in SIZES {
        match fed(rt, alloc, bytes, size) {
            Ok(layout) => assert!(rt; shape_of(&layout) == shape, "by {size}"),
            Err(_) => assert!(rt; false, "by {size}"),
        }
    }
}

/// The header of a file that a converter wrote.
const CONVERTED: &[u8] =
    b"# SDF 1.0\nparameter byteorder = 0x78563412;\n/* a small box, written by a converter */\nchar units[16] = \"fixed point\";\nint64_t npart = 2;\ndouble redshift = 0.5;\nint cube_bits = 21;\nint64_t cube_x0 = -1048576;\nint64_t cube_y0 = -1048576;\nint64_t cube_z0 = -1048576;\nint32_t mass = 2;\nstruct {\n\tint32_t x, y, z;\t/* position */\n\tfloat vx, vy, vz;\n\tint64_t ident;\n\tfloat phi[2];\n}[2];\n#\x0c\n# SDF-EOH\n";

/// The header of generated bodies.
const GENERATED: &[u8] =
    b"# SDF\nparameter byteorder = 0x78563412;\nint cube_bits = 21;\nstruct {\n  int32_t x, y, z;\n}[1];\n# SDF-EOH\n";

/// The layout of generated bodies.
const GENERATED_SHAPE: Shape = Shape {
    header_len: 104,
    width: 12,
    count: Some(1),
    order: Order::Least,
    bits: 21,
    corner: [0, 0, 0],
    mass_default: 1,
    axes: [
        Col {
            kind: Whole::I32,
            offset: 0,
        },
        Col {
            kind: Whole::I32,
            offset: 4,
        },
        Col {
            kind: Whole::I32,
            offset: 8,
        },
    ],
    mass: None,
    ident: None,
    work: None,
    velocity: [None, None, None],
};

const CONVERTED_SHAPE: Shape = Shape {
    header_len: 393,
    width: 40,
    count: Some(2),
    corner: [-1_048_576, -1_048_576, -1_048_576],
    mass_default: 2,
    ident: Some(Col {
        kind: Whole::I64,
        offset: 24,
    }),
    ..GENERATED_SHAPE
};

/// Columns of all types.
const KINDS: &[u8] =
    b"struct {int8_t x; uint8_t y; unsigned char z; short mass; uint16_t ident; uint64_t work; int64_t vx; unsigned int vy; int16_t vz;}[];";

const KINDS_SHAPE: Shape = Shape {
    header_len: 150,
    width: 29,
    count: None,
    axes: [
        Col {
            kind: Whole::I8,
            offset: 0,
        },
        Col {
            kind: Whole::U8,
            offset: 1,
        },
        Col {
            kind: Whole::U8,
            offset: 2,
        },
    ],
    mass: Some(Col {
        kind: Whole::I16,
        offset: 3,
    }),
    ident: Some(Col {
        kind: Whole::U16,
        offset: 5,
    }),
    work: Some(Col {
        kind: Whole::U64,
        offset: 7,
    }),
    velocity: [
        Some(Col {
            kind: Whole::I64,
            offset: 15,
        }),
        Some(Col {
            kind: Whole::U32,
            offset: 23,
        }),
        Some(Col {
            kind: Whole::I16,
            offset: 27,
        }),
    ],
    ..GENERATED_SHAPE
};

/// A text and an array.
const SIZED: &[u8] = b"char u[16] = \"\"; struct {int x, y, z; float p[3];}[4];";

const SIZED_SHAPE: Shape = Shape {
    header_len: 71,
    width: 24,
    count: Some(4),
    ..GENERATED_SHAPE
};

/// The limits of what a header may say.
const WIDEST: &[u8] =
    b"float cube_bits = 29; int cube_x0 = 18446744073709551615; int cube_y0 = -9223372036854775808; parameter byteorder = 305419896; int mass = 4294967295; struct {unsigned short x, y, z, vx; float vy; int vz[2]; double mass[1]; char a[996];}[+0x100000];";

const WIDEST_SHAPE: Shape = Shape {
    header_len: 265,
    width: 1024,
    count: Some(1_048_576),
    order: Order::Most,
    bits: 29,
    corner: [18_446_744_073_709_551_615, -9_223_372_036_854_775_808, 0],
    mass_default: 4_294_967_295,
    axes: [
        Col {
            kind: Whole::U16,
            offset: 0,
        },
        Col {
            kind: Whole::U16,
            offset: 2,
        },
        Col {
            kind: Whole::U16,
            offset: 4,
        },
    ],
    velocity: [
        Some(Col {
            kind: Whole::U16,
            offset: 6,
        }),
        None,
        None,
    ],
    ..GENERATED_SHAPE
};

/// A column of masses beside a parameter of that name.
const MASSES: &[u8] =
    b"struct {int64_t work; char c; uint32_t mass, x; int y; int32_t z;}[]; parameter mass = word;";

const MASSES_SHAPE: Shape = Shape {
    header_len: 109,
    width: 25,
    count: None,
    axes: [
        Col {
            kind: Whole::U32,
            offset: 13,
        },
        Col {
            kind: Whole::I32,
            offset: 17,
        },
        Col {
            kind: Whole::I32,
            offset: 21,
        },
    ],
    mass: Some(Col {
        kind: Whole::U32,
        offset: 9,
    }),
    work: Some(Col {
        kind: Whole::I64,
        offset: 0,
    }),
    ..GENERATED_SHAPE
};

#[test]
fn layouts(rt: HostRuntime) {
    let alloc = rt.alloc();
    shape_is(&rt, alloc, GENERATED, GENERATED_SHAPE);
    shape_is(&rt, alloc, CONVERTED, CONVERTED_SHAPE);
    for (statements, shape) in [
        (KINDS, KINDS_SHAPE),
        (SIZED, SIZED_SHAPE),
        (WIDEST, WIDEST_SHAPE),
        (MASSES, MASSES_SHAPE),
    ] {
        shape_is(&rt, alloc, &header_of(&rt, alloc, statements), shape);
    }
}
