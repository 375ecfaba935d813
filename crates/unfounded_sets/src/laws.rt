// What follows from the definitions. Each function's contract is the law, and its body is empty.
ghost use Rattle.unfounded_sets.specs.Laws.{HoldsLaw, RestLaw, ShownLaw};

/// Where the input nogoods of a program are held, so is for each atom that a true atom has a true body.
pub fn inputs_hold_supports()
    ensures { HoldsLaw }
{}

/// Where held nogoods force nothing, and these are held, each atom that is not false has a support that is not false.
pub fn supports_stand_at_rest()
    ensures { RestLaw }
{}

/// A reason that the dependence of a program shows by a loop is a valid step.
pub fn shown_loops_are_valid()
    ensures { ShownLaw }
{}
