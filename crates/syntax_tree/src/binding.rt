// What variables are worth.
use symbols::{Listed, SymbolId};

/// What a term is worth, where it is defined.
#[derive(Clone, Copy, Debug, PartialEq, Eq)]
pub enum Value {
    Symbol(SymbolId),
    /// A number outside 32 bits, or a symbol that nests deeper than 256.
    Over,
}

/// The values of variables.
#[derive(Drop)]
pub struct Binding {
    /// The value of variable n is the n-th, counted from 1; `None` where it is not bound.
    pub values: Listed<Option<Value>>,
}
