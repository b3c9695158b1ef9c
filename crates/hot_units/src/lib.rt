//! The units of `hot`: limits, places, keys, bodies and lists of them, the cube of a body file,
//! how letters go, and draws. No tree, and no ranks.
#![tactic(auto)]

mod acc;
mod body;
mod cube;
mod draw;
mod key;
pub mod limits;
mod list;
mod mail;
mod raw_row;
mod spread;

pub use acc::Acc3;
pub use body::{Body, body_of, place_key};
pub use cube::{Axis, Cube};
pub use draw::{drawn, next_state};
pub use key::{covers, level};
pub use list::{BodyList, Items, KeyList};
pub use mail::Mail;
pub use raw_row::RawRow;
pub use spread::Spread;
