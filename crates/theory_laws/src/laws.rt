// What holds of theory atoms under instances. Each function's contract is the law, and its body is empty.
ghost use Rattle.theory_laws.specs.Laws.{CausesLaw, CountsAlikeLaw, CausesAlikeLaw, CollectedAlikeLaw};

/// An instance is outside by a cause exactly where one of its theory atoms has it, or where it lies beside them:
/// something over in the rule or in an element of its choice, or a value over the ends that is too large.
pub fn causes_are_of_atoms()
    ensures { CausesLaw }
{}

/// Over a list of all possible atoms a theory atom has as many element instances (`counts`), the same causes
/// (`causes`) and the same collected form (`collected`) as over the possible atoms.
pub fn possible_atoms_collect_alike()
    ensures counts { CountsAlikeLaw }
    ensures causes { CausesAlikeLaw }
    ensures collected { CollectedAlikeLaw }
{}
