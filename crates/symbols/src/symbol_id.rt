// The number of a symbol in its table.
ghost use Rattle.std.specs.Prelude.{◌≡◌};

use std::marker::Model;

/// A symbol of a table, by its place there. Clauses see it as that place, counted from 0.
#[derive(Clone, Copy, Debug, PartialEq, Eq, Hash)]
pub struct SymbolId {
    place: u32,
}

impl Model for SymbolId {
    ghost use Rattle.std.specs.Prelude.{ℕ};

    ghost Value = { ℕ };

    ghost view = { λ id. id.place };

    ghost inverse = { λ n. record { place = n } };
}

impl SymbolId {
    // The id of the symbol at a place.
    pub(crate) fn at(place: u32) -> SymbolId
        ensures { result ≡ place }
    {
        SymbolId { place }
    }

    /// The place of the symbol in its table, counted from 0: an index for what is kept by symbol.
    pub fn place(self) -> usize
        ensures { result ≡ self }
    {
        self.place as usize
    }
}
