// What holds of rows over possible atoms. Each function's contract is the law, and its body is empty.
ghost use Rattle.possible_laws.specs.Laws.{RowStandsLaw, StandsRowLaw, AtomLaw, ChoiceLaw, ClosedLaw, AtomCountLaw, RowCountLaw, RuleCountLaw, ChoiceCountLaw};

/// A row of a rule over possible atoms is a relevant instance of it (`stands`), and over all of them each relevant
/// instance is a row (`all`).
pub fn rows_are_relevant_instances()
    ensures stands { RowStandsLaw }
    ensures all { StandsRowLaw }
{}

/// The head of a relevant instance is a possible atom (`atom`), and so is the atom of an element of its choice at a
/// row of it over possible atoms (`choice`). Possible atoms among which all these are, are all possible atoms
/// (`closed`).
pub fn rows_give_possible_atoms()
    ensures atom { AtomLaw }
    ensures choice { ChoiceLaw }
    ensures closed { ClosedLaw }
{}

/// The ground count exceeds a limit where there are more possible atoms than it (`atoms`), more relevant instances
/// of rules (`rows`) or of one rule (`rule`), or more rows of an element of one instance's choice over possible atoms (`choice`).
pub fn found_things_are_counted()
    ensures atoms { AtomCountLaw }
    ensures rows { RowCountLaw }
    ensures rule { RuleCountLaw }
    ensures choice { ChoiceCountLaw }
{}
