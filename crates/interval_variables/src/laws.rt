// What holds of variables that are made for intervals. The function's contract is the law, and its body is empty.
ghost use Rattle.interval_variables.specs.Laws.{IntervalLaw};

/// Variables that are made for intervals are bound where the others are: where none of these is unsafe, no variable is.
pub fn interval_variables_are_bound()
    ensures { IntervalLaw }
{}
