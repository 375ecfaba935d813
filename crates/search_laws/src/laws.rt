// What follows from the definitions. Each function's contract is the law, and its body is empty.
ghost use Rattle.search_laws.specs.Laws.{EmptyLaw, WaitLaw};

/// Where valid lines lead to a state that holds the empty nogood, no model remains.
pub fn none_remains_beside_the_empty_nogood()
    ensures { EmptyLaw }
{}

/// A learned nogood leaves nothing to propagate below the level to which the search goes back for it.
pub fn learned_nogoods_wait()
    ensures { WaitLaw }
{}
