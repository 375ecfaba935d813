// What follows from the definitions. Each function's contract is the law, and its body is empty.
ghost use Rattle.program_meaning.specs.Laws.{OneLaw, PossibleLaw, SameModelsLaw, DownLaw, UpLaw, ObjectiveLaw, CountLaw, TuplesLaw, VariablesLaw, ClosedLaw, GivesLaw, GrowsLaw, LevelLaw, FallLaw, SearchLaw, PreparedLaw, StartLaw, LeafLaw, SafeLaw, MeetsLaw, SafeConditionLaw, StartWithLaw, StartsLaw, LocalsLaw, LeafElementLaw, MeetsElementLaw, MeetsChoiceLaw, CollectedLaw, OrdinaryLaw, FormLaw, SoundTermLaw, SoundTuplesLaw, FewVariablesLaw, SoundRelationLaw, SoundValuesLaw};

/// Two canonical ground programs of a program are equal, each id read as its symbol.
pub fn canonical_programs_are_one()
    ensures { OneLaw }
{}

/// A model of a program has possible atoms alone.
pub fn models_are_possible()
    ensures { PossibleLaw }
{}

/// A program and its canonical ground program have the same constraint stable models, with the same objective.
///
/// An answer says of numbers what a set of symbols with values says of them. Each constraint stable model of
/// the program is said by one of the ground program (`down`), each of the ground program says one of the
/// program (`up`), and where an answer and a set with values say the same, both are or neither is (`both`).
pub fn grounding_keeps_models()
    ensures both { SameModelsLaw }
    ensures down { DownLaw }
    ensures up { UpLaw }
    ensures objective { ObjectiveLaw }
{}

/// Where all of them are listed once, there are more than the limit exactly where the list is longer: of what
/// the ground count counts, of the tuples of a theory atom, and of the integer variables of a program.
pub fn lists_decide_limits()
    ensures count { CountLaw }
    ensures tuples { TuplesLaw }
    ensures variables { VariablesLaw }
{}

/// A set of atoms that is closed under all rules has all possible atoms (`all`), what an instance can give whose
/// positive atoms are possible is possible (`gives`), and a set that grows stays closed under a rule that reads
/// none of the atoms that it gets (`grows`).
pub fn closed_sets_have_possible_atoms()
    ensures all { ClosedLaw }
    ensures gives { GivesLaw }
    ensures grows { GrowsLaw }
{}

/// The level of a predicate is how many of the given predicates it is or depends on. Levels do not rise along
/// the steps of rules (`steps`), and fall at each step of a rule that is not recursive (`falls`).
pub fn levels_fall()
    ensures steps { LevelLaw }
    ensures falls { FallLaw }
{}

/// A search for the instances of a rule or an element takes its steps one by one: some atom of a list for each
/// positive literal, then by `=` a value for a variable that none of them binds, in an order in which the
/// other side is bound. It finds exactly the values that meet all steps, each once (`search`), and what its
/// steps bind is bound at the nodes that it finds, and nothing else (`prepared`); it may start
/// where nothing is bound (`start`); and a node at which all variables are bound stands for one substitution
/// (`leaf`). A rule whose body binds its global variables has such steps (`safe`), and
/// each of its relevant instances meets them over the possible atoms (`meets`).
///
/// A variable that a positive atom binds must not be bound by `=`: where the other side is over, such a
/// comparison does not fail.
pub fn searches_find_each_once()
    ensures search { SearchLaw }
    ensures prepared { PreparedLaw }
    ensures start { StartLaw }
    ensures leaf { LeafLaw }
    ensures safe { SafeLaw }
    ensures meets { MeetsLaw }
{}

/// The same of the elements of a theory atom or a choice, whose conditions bind their local variables. A
/// search may start where some variables have values (`start`), as those of an element do where the global
/// variables have the values of an instance of its rule, and there it stands for each instance of the element under them (`stands`). A
/// condition that binds its local variables has steps of its own, ready in their order from there (`safe`), and
/// each relevant instance of an element meets them over the possible atoms (`element`, `choice`). By the law
/// above each of them is then found once: global and local variables are different ones (`locals`), and a node
/// at which they are all bound stands for one instance (`leaf`).
pub fn elements_are_searched_alike()
    ensures start { StartWithLaw }
    ensures stands { StartsLaw }
    ensures safe { SafeConditionLaw }
    ensures locals { LocalsLaw }
    ensures leaf { LeafElementLaw }
    ensures element { MeetsElementLaw }
    ensures choice { MeetsChoiceLaw }
{}

/// A term that has a collected form comes to the value of this form, whatever values the integer variables
/// have (`value`), and the value that is collected with it is its value as an ordinary term (`ordinary`). The
/// form has each variable once, in the order of symbols, and small numbers (`form`), and so it is a sound linear
/// term of a ground program over the numbers of its variables (`sound`).
pub fn collecting_keeps_values()
    ensures value { CollectedLaw }
    ensures ordinary { OrdinaryLaw }
    ensures form { FormLaw }
    ensures sound { SoundTermLaw }
{}

/// The tuples of a theory atom that has at most 65,536 of them are sound in a ground program, in order and over
/// the numbers of its variables: each of them, all different, and not too many (`tuples`); and where it has at
/// most 65,536 variables, no more stand in them (`variables`). So a relation whose total minus the right side
/// is not too large is sound (`relation`), and so are tuples of `&distinct` and `&disjoint` whose values over
/// the ends are not (`values`).
pub fn tuples_are_sound()
    ensures tuples { SoundTuplesLaw }
    ensures variables { FewVariablesLaw }
    ensures relation { SoundRelationLaw }
    ensures values { SoundValuesLaw }
{}
