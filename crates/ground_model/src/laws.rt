// What follows from the definitions. Each function's contract is the law, and its body is empty.
ghost use Rattle.ground_model.specs.Laws.{RanksLaw, LeastLaw, DeterminedLaw, DefiniteLaw, TestsLaw, ShareLaw};

/// What is derivable at a rank is derivable at every larger one.
pub fn ranks_do_not_matter()
    ensures { RanksLaw }
{}

/// A set is a stable model exactly where each head holds whose body is true, and the set is the least that is
/// closed under its reduct (Gelfond and Lifschitz).
pub fn stable_models_are_least()
    ensures { LeastLaw }
{}

/// A stable model is determined by what its reduct keeps.
pub fn reducts_determine_models()
    ensures { DeterminedLaw }
{}

/// A program of facts and definite rules has exactly one constraint stable model.
pub fn definite_programs_have_one_model()
    ensures { DefiniteLaw }
{}

/// The tests of derivability and of duties say exactly when a world is a stable model.
pub fn tests_decide_models()
    ensures { TestsLaw }
{}

/// Two spans overlap exactly where some integer lies in both.
pub fn spans_share_integers()
    ensures { ShareLaw }
{}
