// What holds of the program of texts. Each function's contract is the law, and its body is empty.
ghost use Rattle.groundable_texts.specs.Laws.{RulesLaw, StatementsLaw};

/// Where every rule of the program of texts is fine, each can be grounded (`rules`); and so can each rule of the program
/// as it is rewritten, beside its variables in order, and it is a tree (`statements`).
pub fn rules_of_texts_are_groundable()
    ensures rules { RulesLaw }
    ensures statements { StatementsLaw }
{}
