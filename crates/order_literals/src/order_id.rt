// The number of an order literal in its table.
ghost use Rattle.std.specs.Prelude.{◌≡◌};

use std::marker::Model;

/// An order literal of a table, by its place in the order of making. Clauses see it as that place,
/// counted from 0.
#[derive(Clone, Copy, Debug, PartialEq, Eq, Hash)]
pub struct OrderId {
    place: usize,
}

impl Model for OrderId {
    ghost use Rattle.std.specs.Prelude.{ℕ};

    ghost Value = { ℕ };

    ghost view = { λ id. id.place };

    ghost inverse = { λ n. record { place = n } };
}

impl OrderId {
    // The id of the literal at a place.
    pub(crate) fn at(place: usize) -> OrderId
        ensures { result ≡ place }
    {
        OrderId { place }
    }
}
