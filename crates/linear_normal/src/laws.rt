// What follows from the definitions. Each function's contract is the law, and its body is empty.
ghost use Rattle.linear_normal.specs.Laws.{TruthsLaw, TruthLaw, StepLaw};

/// Atoms, bodies and constraints by number have truths in every world.
pub fn worlds_have_truths()
    ensures { TruthsLaw }
{}

/// By number, each body, relation, theory atom and bound of a choice is true in a world exactly where it holds.
pub fn numbering_keeps_truth()
    ensures { TruthLaw }
{}

/// A world whose values lie within the ends meets each list that a valid step shows, loops aside.
pub fn valid_steps_are_met()
    ensures { StepLaw }
{}
