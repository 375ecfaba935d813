// What holds of rules that pass the checks. Each function's contract is the law, and its body is empty.
ghost use Rattle.checked_rules.specs.Laws.{RewrittenLaw, GroundableLaw};

/// A rule that passes the checks still does when it is rewritten, and is a tree (`rewritten`); where no variable that its
/// text shows is unsafe, it can be grounded (`groundable`).
pub fn checked_rules_are_groundable()
    ensures rewritten { RewrittenLaw }
    ensures groundable { GroundableLaw }
{}
