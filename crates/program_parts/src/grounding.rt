// What grounding gave.
use directed_tuples::Directive;
use symbol_rules::SymbolRule;
use symbols::{Ends, Listed, SymbolId};

/// What the relevant instances of a program gave, by symbols: its possible atoms, in any order; its integer variables
/// in the order of symbols; the rules of the instances in order; and the tuples of its directives.
#[derive(Drop)]
pub struct Grounding {
    pub ends: Ends,
    pub atoms: Listed<SymbolId>,
    pub variables: Listed<SymbolId>,
    pub rules: Listed<SymbolRule>,
    pub directives: Listed<Directive>,
}
