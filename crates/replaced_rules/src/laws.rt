// What holds of rules whose constants are replaced. Each function's contract is the law, and its body is empty.
ghost use Rattle.replaced_rules.specs.Laws.{SightsLaw, ReplacedLaw};

/// A rule whose constants are replaced has the variables that it had, in their order (`sights`), and passes the checks
/// where it did (`checked`).
pub fn rules_with_constants_replaced_are_checked()
    ensures sights { SightsLaw }
    ensures checked { ReplacedLaw }
{}
