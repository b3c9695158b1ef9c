// A row of a body file.

/// One row of a body file as the whole numbers that it gives, before any test of their ranges.
///
/// Each number fits 64 bits, signed or unsigned. Without a column `mass` holds the layout's
/// default, `ident` the row's number from 0, and `work` 1. A velocity is None where the layout has
/// no whole column for it.
#[derive(Clone, Copy, Debug, PartialEq, Eq)]
pub struct RawRow {
    pub x: i128,
    pub y: i128,
    pub z: i128,
    pub mass: i128,
    pub ident: i128,
    pub work: i128,
    pub vx: Option<i128>,
    pub vy: Option<i128>,
    pub vz: Option<i128>,
}
