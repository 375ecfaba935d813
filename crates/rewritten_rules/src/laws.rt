// What holds of rules that are rewritten. Each function's contract is the law, and its body is empty.
ghost use Rattle.rewritten_rules.specs.Laws.{OrderedLaw, NumberedLaw};

/// Each variable that stands in a rewritten rule is in the rule's order (`ordered`), which has each once, numbered from 1,
/// where the named variables are (`numbered`).
pub fn rewritten_rules_have_their_variables()
    ensures ordered { OrderedLaw }
    ensures numbered { NumberedLaw }
{}
