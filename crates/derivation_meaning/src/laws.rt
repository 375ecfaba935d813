// What follows from the definitions. Each function's contract is a law, and its body is empty.
ghost use Rattle.derivation_meaning.specs.Laws.{
  AcceptanceLaw,
  CheaperLaw,
  FittingLaw,
  FoundLaw,
  GivenLaw,
  JoinLaw,
  SoundLaw,
  VerdictLaw,
};

/// After valid lines each live nogood is met by each constraint stable model that remains.
pub fn live_nogoods_are_met()
    ensures { SoundLaw }
{}

/// What an accepted derivation claims of a ground program holds of its constraint stable models and of the
/// answers that the lines give, and it is a claim that fits the program and these answers.
pub fn accepted_claims_hold()
    ensures holds { AcceptanceLaw }
    ensures fits { FittingLaw }
{}

/// Valid lines give different constraint stable models, with an objective improving ones, and the state has them.
pub fn valid_lines_give_models()
    ensures found { FoundLaw }
    ensures given { GivenLaw }
{}

/// Lines after lines are valid in turn, and lead and give as one list.
pub fn lines_are_joined()
    ensures { JoinLaw }
{}

/// A reason that is valid after a cost is valid after a smaller one.
pub fn reasons_stay_valid()
    ensures { CheaperLaw }
{}

/// A line is valid or refused for one cause: not both, not for two, and not neither.
pub fn lines_have_one_verdict()
    ensures { VerdictLaw }
{}
