//! The number of a column in a row: eight whole types in two byte orders.

ghost use Rattle.std.specs.Prelude.{◌≡◌, ◌+◌, ◌≤◌, length, drop, take, pos};
ghost use Rattle.byteorder.specs.Endian.{twos_complement};
ghost use Rattle.sdf_header.specs.Types.{Fits, FitsIfThere};
ghost use Rattle.sdf_rows.specs.Columns.{Is64Bits, Are64Bits, column_value, value_or};
ghost use Rattle.sdf_rows.specs.Columns.{value_if_there};

use byteorder::{BigEndian, ByteOrder, LittleEndian};
use sdf_header::{Col, Order, Whole};

/// The columns whose numbers have `N` bytes.
struct Cases<const N: usize>;

impl<const N: usize> Cases<N> {
    /// The unsigned number at this place of the row.
    fn unsigned<O: ByteOrder>(row: &[u8], offset: u32) -> i128
        requires some { 1 ≤ N }
        requires few { N ≤ 8 }
        requires inside { offset + N ≤ length row.now }
        ensures value { result ≡ pos (O.number_of N (drop offset row.now)) }
        ensures fits { Is64Bits result }
    {
        i128::from(O::read_uint(&row[offset as usize..], N))
    }

    /// The signed number at this place of the row.
    fn signed<O: ByteOrder>(row: &[u8], offset: u32) -> i128
        requires some { 1 ≤ N }
        requires few { N ≤ 8 }
        requires inside { offset + N ≤ length row.now }
        ensures value { result ≡ twos_complement N (O.number_of N (drop offset row.now)) }
        ensures fits { Is64Bits result }
    {
        i128::from(O::read_int(&row[offset as usize..], N))
    }
}

/// The readers of all types in both orders, each type with the number of its bytes and its sign.
macro_rules! number_of_case {
    ($col:expr, $order:expr, $row:expr; $($kind:ident: $bytes:literal $sign:ident,)*) => {
        match ($col.kind, $order) {
            $(
                (Whole::$kind, Order::Least) => Cases::<$bytes>::$sign::<LittleEndian>($row, $col.offset),
                (Whole::$kind, Order::Most) => Cases::<$bytes>::$sign::<BigEndian>($row, $col.offset),
            )*
        }
    };
}

/// The number of this column in a row whose numbers have this byte order.
pub fn number_at(col: Col, order: Order, row: &[u8]) -> i128
    requires { Fits (length row.now) col }
    ensures value { result ≡ column_value order col row.now }
    ensures fits { Is64Bits result }
{
    number_of_case!(col, order, row;
        I8: 1 signed,
        U8: 1 unsigned,
        I16: 2 signed,
        U16: 2 unsigned,
        I32: 4 signed,
        U32: 4 unsigned,
        I64: 8 signed,
        U64: 8 unsigned,
    )
}

/// The number of a column that may be absent, or its default.
pub fn number_or(default: u64, col: Option<Col>, order: Order, row: &[u8]) -> i128
    requires { FitsIfThere (length row.now) col }
    ensures value { result ≡ value_or default order col row.now }
    ensures fits { Is64Bits result }
{
    match col {
        Some(col) => number_at(col, order, row),
        None => i128::from(default),
    }
}

/// The number of a column that may be absent.
pub fn number_if_there(col: Option<Col>, order: Order, row: &[u8]) -> Option<i128>
    requires { FitsIfThere (length row.now) col }
    ensures value { result ≡ value_if_there order col row.now }
    ensures fits { Are64Bits result }
{
    match col {
        Some(col) => Some(number_at(col, order, row)),
        None => None,
    }
}
