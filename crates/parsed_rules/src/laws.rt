// What holds of the rules that a text parses to. The function's contract is the law, and its body is empty.
ghost use Rattle.parsed_rules.specs.Laws.{ParsedLaw};

/// Each rule that a text parses to passes the checks: no left side of a comparison is an interval, theory atoms stand where
/// they may, and its variables are numbered and at most 64.
pub fn parsed_rules_are_checked()
    ensures { ParsedLaw }
{}
