// The completion law. Each function's contract is the law, and its body is empty.
ghost use Rattle.completion.specs.Laws.{CompletionLaw, TightLaw, ReasonLaw};

/// A world meets all input nogoods and all loop nogoods exactly where it is a constraint stable model.
pub fn nogoods_have_the_stable_models()
    ensures { CompletionLaw }
{}

/// For a tight program the input nogoods alone have the constraint stable models.
pub fn tight_programs_need_no_loops()
    ensures { TightLaw }
{}

/// A constraint stable model meets each list that a valid step shows, loops too.
pub fn stable_models_meet_reasons()
    ensures { ReasonLaw }
{}
