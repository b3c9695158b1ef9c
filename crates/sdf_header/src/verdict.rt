//! The layout that a header gives, or its fault.

ghost use Rattle.std.specs.Prelude.{◌≡◌, ◌+◌, ◌≤◌, length, IfOk, IfSome};
ghost use Rattle.hot_units.specs.Limits.{max_header_bytes};
ghost use Rattle.sdf_header.specs.Types.{bytes_of, Fits, FitsIfThere};
ghost use Rattle.sdf_header.specs.Layouts.{IsLayout};
ghost use Rattle.sdf_header.specs.Parts.{given_of};
ghost use Rattle.sdf_header.specs.Fields.{row_of};
ghost use Rattle.sdf_header.specs.Statements.{header_of};
ghost use Rattle.sdf_header.specs.Verdict.{Gives, column, whole, whole_column, axes_of};
ghost use Rattle.sdf_header.specs.Verdict.{optional_of, order_of, whole_param, small_param};
ghost use Rattle.sdf_header.specs.Verdict.{cube_of, mass_of, count_of, layout_of, judged, at_place};

use crate::document::{Columns, Document, Value};
use crate::fault::Stop;
use crate::header_fault::{ColName, HeaderFault, ParamName};
use crate::kind::Kind;
use crate::layout::{Col, HeaderError, Layout, Order};
use crate::statement::header_in;
use hot_units::Cube;
use hot_units::limits::{FINE_BITS, MAX_BODIES, MAX_BODY_MASS};
use sdf_tokens::{Fault, FaultKind};
use std::alloc::Global;
use std::collections::BTreeMap;

/// The kind and the offset of the column of this name that is no array.
fn column(name: &[u8], columns: &Columns<'_>) -> Option<(Kind, u32)>
    ensures exact { result ≡ column name.now (row_of columns.now).fields }
    ensures inside { IfSome result (λ c. c.1 + bytes_of c.0 ≤ columns.now.width) }
{
    for c in &columns.list {
        if c.name == name && !c.is_array {
            return Some((c.kind, c.offset));
        }
    }
    None
}

fn whole(kind: Kind, offset: u32) -> Option<Col>
    ensures { result ≡ whole kind offset }
{
    match kind {
        Kind::Whole(kind) => Some(Col { kind, offset }),
        _ => None,
    }
}

/// The column of this name, if it is there, whole and no array.
fn whole_column(name: &[u8], columns: &Columns<'_>) -> Option<Col>
    ensures exact { result ≡ whole_column (column name.now (row_of columns.now).fields) }
    ensures inside { FitsIfThere columns.now.width result }
{
    let (kind, offset) = column(name, columns)?;
    whole(kind, offset)
}

/// The columns of the three coordinates.
#[tactic(auto, unfolding(crate::specs::Verdict::axes_of))]
fn axes_of(columns: &Columns<'_>) -> Result<(Col, Col, Col), HeaderFault>
    ensures exact { result ≡ axes_of (row_of columns.now).fields }
    ensures x_inside { IfOk result (λ axes. Fits columns.now.width axes.0) }
    ensures y_inside { IfOk result (λ axes. Fits columns.now.width axes.1) }
    ensures z_inside { IfOk result (λ axes. Fits columns.now.width axes.2) }
{
    let Some((x, x_offset)) = column(b"x", columns) else {
        return Err(HeaderFault::Missing(ColName::X));
    };
    let Some((y, y_offset)) = column(b"y", columns) else {
        return Err(HeaderFault::Missing(ColName::Y));
    };
    let Some((z, z_offset)) = column(b"z", columns) else {
        return Err(HeaderFault::Missing(ColName::Z));
    };
    let Some(x) = whole(x, x_offset) else {
        return Err(HeaderFault::NotWhole(ColName::X));
    };
    let Some(y) = whole(y, y_offset) else {
        return Err(HeaderFault::NotWhole(ColName::Y));
    };
    let Some(z) = whole(z, z_offset) else {
        return Err(HeaderFault::NotWhole(ColName::Z));
    };
    Ok((x, y, z))
}

/// A column that may be absent, and is whole.
#[tactic(auto, unfolding(crate::specs::Verdict::optional_of))]
fn optional_of(
    fault: ColName,
    name: &[u8],
    columns: &Columns<'_>,
) -> Result<Option<Col>, HeaderFault>
    ensures exact { result ≡ optional_of fault (column name.now (row_of columns.now).fields) }
    ensures inside { IfOk result (λ found. FitsIfThere columns.now.width found) }
{
    let Some((kind, offset)) = column(name, columns) else {
        return Ok(None);
    };
    match whole(kind, offset) {
        Some(col) => Ok(Some(col)),
        None => Err(HeaderFault::NotWhole(fault)),
    }
}

/// What a name was given.
fn lookup(name: &[u8], given: &BTreeMap<&[u8], Value>) -> Option<Value>
    ensures { result ≡ given_of given.now name.now }
{
    given.get(name).copied()
}

#[tactic(auto, unfolding(crate::specs::Verdict::order_of))]
fn order_of(given: Option<Value>) -> Result<Order, HeaderFault>
    ensures { result ≡ order_of given }
{
    match given {
        None => Ok(Order::Least),
        Some(Value::Whole(0x7856_3412)) => Ok(Order::Least),
        Some(Value::Whole(0x1234_5678)) => Ok(Order::Most),
        Some(_) => Err(HeaderFault::BadParameter(ParamName::ByteOrder)),
    }
}

/// A whole number, or 0.
#[tactic(auto, unfolding(crate::specs::Verdict::whole_param))]
fn whole_param(name: ParamName, given: Option<Value>) -> Result<i128, HeaderFault>
    ensures { result ≡ whole_param name given }
{
    match given {
        None => Ok(0),
        Some(Value::Whole(value)) => Ok(value),
        Some(Value::Other) => Err(HeaderFault::BadParameter(name)),
    }
}

/// A whole number of 1 to a limit, or the default.
#[tactic(auto, unfolding(crate::specs::Verdict::small_param))]
fn small_param(
    name: ParamName,
    limit: u32,
    default: u32,
    given: Option<Value>,
) -> Result<u32, HeaderFault>
    ensures exact { result ≡ small_param name limit default given }
    ensures within { 1 ≤ default → default ≤ limit → IfOk result (λ n. (1 ≤ n) × (n ≤ limit)) }
{
    match given {
        None => Ok(default),
        Some(Value::Whole(value)) if 1 <= value && value <= i128::from(limit) => Ok(value as u32),
        Some(_) => Err(HeaderFault::BadParameter(name)),
    }
}

#[tactic(auto, unfolding(crate::specs::Verdict::cube_of))]
fn cube_of(given: &BTreeMap<&[u8], Value>) -> Result<Cube, HeaderFault>
    ensures { result ≡ cube_of (given_of given.now) }
{
    let bits = small_param(
        ParamName::CubeBits,
        FINE_BITS,
        21,
        lookup(b"cube_bits", given),
    )?;
    let x0 = whole_param(ParamName::CubeX0, lookup(b"cube_x0", given))?;
    let y0 = whole_param(ParamName::CubeY0, lookup(b"cube_y0", given))?;
    let z0 = whole_param(ParamName::CubeZ0, lookup(b"cube_z0", given))?;
    Ok(Cube { bits, x0, y0, z0 })
}

#[tactic(auto, unfolding(crate::specs::Verdict::mass_of))]
fn mass_of(mass: Option<Col>, given: Option<Value>) -> Result<u32, HeaderFault>
    ensures { result ≡ mass_of mass given }
{
    match mass {
        Some(_) => Ok(1),
        None => small_param(ParamName::Mass, MAX_BODY_MASS, 1, given),
    }
}

#[tactic(auto, unfolding(crate::specs::Verdict::count_of))]
fn count_of(size: Option<u64>) -> Result<Option<u32>, HeaderFault>
    ensures { result ≡ count_of size }
{
    match size {
        None => Ok(None),
        Some(size) => {
            if size > u64::from(MAX_BODIES) {
                return Err(HeaderFault::TooMany(size));
            }
            Ok(Some(size as u32))
        }
    }
}

#[tactic(auto, unfolding(crate::specs::Verdict::layout_of))]
fn layout_of(header_len: u32, document: &Document<'_>) -> Result<Layout, HeaderFault>
    ensures value { result ≡ layout_of header_len (header_of document.now) }
    ensures facts { IfOk result (λ layout. IsLayout layout) }
    ensures header_len { IfOk result (λ layout. layout.header_len ≡ header_len) }
{
    let Some(table) = &document.table else {
        return Err(HeaderFault::NoStruct);
    };
    let columns = &table.columns;
    let (x, y, z) = axes_of(columns)?;
    let mass = optional_of(ColName::Mass, b"mass", columns)?;
    let ident = optional_of(ColName::Ident, b"ident", columns)?;
    let work = optional_of(ColName::Work, b"work", columns)?;
    let order = order_of(lookup(b"byteorder", &document.given))?;
    let cube = cube_of(&document.given)?;
    let mass_default = mass_of(mass, lookup(b"mass", &document.given))?;
    let count = count_of(table.size)?;
    Ok(Layout {
        header_len,
        width: columns.width,
        count,
        order,
        cube,
        mass_default,
        x,
        y,
        z,
        mass,
        ident,
        work,
        vx: whole_column(b"vx", columns),
        vy: whole_column(b"vy", columns),
        vz: whole_column(b"vz", columns),
    })
}

fn at_place(kind: FaultKind, place: u32) -> HeaderFault
    ensures { result ≡ at_place kind place }
{
    match kind {
        FaultKind::Syntax => HeaderFault::Syntax(place),
        FaultKind::UnknownType => HeaderFault::UnknownType(place),
        FaultKind::NameTwice => HeaderFault::NameTwice(place),
        FaultKind::SecondStruct => HeaderFault::SecondStruct(place),
        FaultKind::TooWide => HeaderFault::TooWide(place),
    }
}

/// The layout that the text of a header gives.
#[tactic(auto, unfolding(crate::specs::Verdict::judged))]
pub fn judge(alloc: Global, text: &[u8], header_len: u32) -> Result<Layout, HeaderError>
    requires { length text.now ≤ max_header_bytes }
    ensures value { Gives result (judged header_len text.now) }
    ensures facts { IfOk result (λ layout. IsLayout layout) }
    ensures header_len { IfOk result (λ layout. layout.header_len ≡ header_len) }
{
    match header_in(alloc, text) {
        Ok(document) => match layout_of(header_len, &document) {
            Ok(layout) => Ok(layout),
            Err(fault) => Err(HeaderError::Fault(fault)),
        },
        Err(Stop::Memory) => Err(HeaderError::Memory),
        Err(Stop::Fault(Fault { kind, left })) => {
            let place = text.len().saturating_sub(left) as u32;
            Err(HeaderError::Fault(at_place(kind, place)))
        }
    }
}
