// What holds of keys and of counts. Each function's contract is the law, and its body is empty.
ghost use Rattle.count_laws.specs.Laws.{RuleKeysLaw, ChoiceKeysLaw, InstanceLaw, ProgramLaw, LimitLaw};

/// Where each rule has a list of the values of its relevant instances in order, these lists one behind the other have
/// the keys of all relevant instances in order (`rules`). So it is of the elements of a choice under an instance
/// (`choice`).
pub fn rows_are_keys()
    ensures rules { RuleKeysLaw }
    ensures choice { ChoiceKeysLaw }
{}

/// A relevant instance counts itself, the relevant instances of its choice's elements, each of its theory atoms, and
/// the relevant instances of their elements (`instance`). The ground count is the sum over all relevant instances
/// (`program`), and exceeds a limit exactly where this sum does (`limit`).
pub fn counts_add_up()
    ensures instance { InstanceLaw }
    ensures program { ProgramLaw }
    ensures limit { LimitLaw }
{}
