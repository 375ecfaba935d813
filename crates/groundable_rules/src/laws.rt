// What holds of rules that can be grounded. Each function's contract is the law, and its body is empty.
ghost use Rattle.groundable_rules.specs.Laws.{GlobalsLaw, ChoiceLaw, ElementLaw};

/// The global variables of a rule that can be grounded are different and at most 64 (`globals`), and so they are with
/// the local ones of each element of its choice (`choice`) and of its theory atoms (`element`).
pub fn groundable_rules_have_numbered_variables()
    ensures globals { GlobalsLaw }
    ensures choice { ChoiceLaw }
    ensures element { ElementLaw }
{}
