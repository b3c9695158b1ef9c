//! What a header says of the rows behind it.

use crate::header_fault::HeaderFault;
use crate::kind::Whole;
use hot_units::Cube;
use std::marker::Model;
use thiserror::Error;

/// The order of the bytes of a number in a row.
#[derive(Clone, Copy, Debug, PartialEq, Eq)]
pub enum Order {
    /// The least significant byte comes first.
    Least,
    /// The most significant byte comes first.
    Most,
}

/// A column of one whole number a row: its type, and how many bytes of the row stand before it.
#[derive(Clone, Copy, Debug, PartialEq, Eq)]
pub struct Col {
    pub kind: Whole,
    pub offset: u32,
}

/// How the rows behind a header are read: row `k` is the `width` bytes at `header_len + k * width`.
///
/// Lengths and offsets are in bytes. A row has 1 to 1,024 bytes, and each column lies in it.
/// `count` is the stated number of rows, or None where the header states none. `mass_default` is
/// the mass of each body where no column `mass` gives it. In a layout that the reader gives they
/// are at most 1,048,576, and 1 to 4,294,967,295. The columns are those of the names that bodies
/// use; arrays and all other columns are passed over. The form is a profile of this project's own, after
/// the self-describing files of the hashed oct-tree codes (Warren & Salmon 1993; Warren 2013).
#[derive(Clone, Copy)]
pub struct Layout {
    pub header_len: u32,
    pub width: u32,
    pub count: Option<u32>,
    pub order: Order,
    pub cube: Cube,
    pub mass_default: u32,
    pub x: Col,
    pub y: Col,
    pub z: Col,
    pub mass: Option<Col>,
    pub ident: Option<Col>,
    pub work: Option<Col>,
    pub vx: Option<Col>,
    pub vy: Option<Col>,
    pub vz: Option<Col>,
}

impl Model for Layout {
    ghost use Rattle.sdf_header.specs.Layouts.{LayoutValue, IsLayout};

    ghost Value = { LayoutValue };

    ghost view = { λ l. record {
      header_len = l.header_len;
      width = l.width;
      count = l.count;
      order = l.order;
      cube = l.cube;
      mass_default = l.mass_default;
      x = l.x;
      y = l.y;
      z = l.z;
      mass = l.mass;
      ident = l.ident;
      work = l.work;
      vx = l.vx;
      vy = l.vy;
      vz = l.vz;
    } };

    ghost invariant = { λ l. IsLayout
        (record {
          header_len = l.header_len;
          width = l.width;
          count = l.count;
          order = l.order;
          cube = l.cube;
          mass_default = l.mass_default;
          x = l.x;
          y = l.y;
          z = l.z;
          mass = l.mass;
          ident = l.ident;
          work = l.work;
          vx = l.vx;
          vy = l.vy;
          vz = l.vz;
        }) };

    ghost inverse = { λ v. record {
      header_len = v.header_len;
      width = v.width;
      count = v.count;
      order = v.order;
      cube = v.cube;
      mass_default = v.mass_default;
      x = v.x;
      y = v.y;
      z = v.z;
      mass = v.mass;
      ident = v.ident;
      work = v.work;
      vx = v.vx;
      vy = v.vy;
      vz = v.vz;
    } };
}

/// Why the reader gave no layout.
#[derive(Debug, Drop, Error)]
pub enum HeaderError {
    #[error("the header is refused: {0:?}")]
    Fault(HeaderFault),
    #[error("out of memory")]
    Memory,
}
