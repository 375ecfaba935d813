// What follows of plans. Each function's contract is the law, and its body is empty.
ghost use Rattle.plan_terms.specs.Laws.{RuleTermsLaw, ChoiceTermsLaw, ElementTermsLaw};

/// The terms of a plan keep the rules on terms where those do that it is a plan of: a rule (`rule`), an element of its
/// choice (`choice`), an element of one of its theory atoms (`element`).
pub fn plans_are_of_terms()
    ensures rule { RuleTermsLaw }
    ensures choice { ChoiceTermsLaw }
    ensures element { ElementTermsLaw }
{}
