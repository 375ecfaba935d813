//! Ground rules over symbols.
//!
//! Instances make rules that name atoms and integer variables by their symbols, and a ground program names them by
//! numbers. These are the rules between the two, as plain data that contracts read.
#![tactic(auto)]

mod rule;

pub use rule::{SymbolChoice, SymbolHead, SymbolItem, SymbolRelation, SymbolRule, SymbolTheory};
