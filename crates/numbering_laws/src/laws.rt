// What follows from the definition of the numbering. Each function's contract is the law, and its body is empty.
ghost use Rattle.numbering_laws.specs.Parts.{PartsLaw};
ghost use Rattle.numbering_laws.specs.Items.{ItemsLaw};
ghost use Rattle.numbering_laws.specs.Objective.{ObjectiveLaw};
ghost use Rattle.numbering_laws.specs.Theory.{TheoryLaw};

/// Each number in a numbering names something of its kind; what constraints and bodies are made of are sums and
/// tallies, and never a domain, a distinct or a disjoint constraint.
pub fn parts_are_sums()
    ensures { PartsLaw }
{}

/// A sum of a numbering counts each variable and each tally at most once, and never itself; so does the objective.
pub fn sums_are_apart()
    ensures { ItemsLaw }
{}

/// The objective by number has the value of the program's objective, in every world.
pub fn objective_keeps_value()
    ensures { ObjectiveLaw }
{}

/// A domain, distinct or disjoint constraint of a numbering is a sound theory atom of the program.
pub fn theory_atoms_are_sound()
    ensures { TheoryLaw }
{}
