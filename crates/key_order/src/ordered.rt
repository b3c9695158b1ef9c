ghost use Rattle.std.specs.Prelude.{◌≡◌};
ghost use Rattle.std.specs.Ordering.{is_lt};
ghost use Rattle.hot_units.specs.Order as order;
ghost use Rattle.key_order.specs.Ordered.{IsSet, IsOrderedSet};

use hot_units::Body;
use std::cmp::Ordering;
use std::marker::Model;

/// The bodies of a set by ascending key and then row, that is in Morton order, with the idents and
/// work weights of the rows in file order. A body's `row` is the place of its ident and weight.
#[derive(Drop)]
pub struct Ordered {
    bodies: Vec<Body>,
    idents: Vec<i128>,
    weights: Vec<u32>,
}

impl Model for Ordered {
    ghost use Rattle.key_order.specs.Ordered.{OrderedValue, IsOrderedSet};

    ghost Value = { OrderedValue };

    ghost view = { λ o. record {
      bodies = o.bodies.items;
      idents = o.idents.items;
      weights = o.weights.items;
    } };

    ghost invariant = { λ o. IsOrderedSet
        (record { bodies = o.bodies.items; idents = o.idents.items; weights = o.weights.items }) };
}

/// Which of two bodies comes first: by key, and then by row.
fn by_key_and_row(a: &Body, b: &Body) -> Ordering
    ensures { is_lt result ≡ order.before a.now b.now }
{
    a.key.cmp(&b.key).then(a.row.cmp(&b.row))
}

/// The bodies of a set in key order, by std's sort, which works in place: it takes no memory. The
/// bodies are given in the order of the file, each with its place as its row, and have at most 2^40
/// of mass.
pub fn in_key_order(mut bodies: Vec<Body>, idents: Vec<i128>, weights: Vec<u32>) -> Ordered
    requires set { IsSet bodies.items idents.items weights.items }
    ensures ordered { result
        ≡ record {
          bodies = order.ordered bodies.items;
          idents = idents.items;
          weights = weights.items;
        } }
{
    bodies.sort_unstable_by(by_key_and_row);
    Ordered {
        bodies,
        idents,
        weights,
    }
}

impl Ordered {
    /// The bodies, strictly ascending by key and then row.
    pub fn bodies(&self) -> &[Body]
        ensures value { result.now ≡ self.now.bodies }
        ensures facts { IsOrderedSet self.now }
    {
        self.bodies.as_slice()
    }

    /// The ident of each row, in file order.
    pub fn idents(&self) -> &[i128]
        ensures value { result.now ≡ self.now.idents }
        ensures facts { IsOrderedSet self.now }
    {
        self.idents.as_slice()
    }

    /// The work weight of each row, in file order.
    pub fn weights(&self) -> &[u32]
        ensures value { result.now ≡ self.now.weights }
        ensures facts { IsOrderedSet self.now }
    {
        self.weights.as_slice()
    }
}
