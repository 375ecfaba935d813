// Ground rules are sound. Each function's contract is the law, and its body is empty.
ghost use Rattle.ground_rule_laws.specs.Laws.{SoundRuleLaw, SoundRulesLaw, SoundObjectiveLaw, FewAtomsLaw};

/// Over the numbers of the possible atoms and the program's variables, the rule of a relevant instance that is
/// not outside is a sound rule of a ground program (`rule`), and so are all rules where no instance is
/// outside (`rules`). The tuples of a program whose objective is not too large are a sound objective
/// (`objective`).
pub fn rules_are_sound()
    ensures rule { SoundRuleLaw }
    ensures rules { SoundRulesLaw }
    ensures objective { SoundObjectiveLaw }
{}

/// Different possible atoms are given by different instances that the ground count counts: where the count
/// is within the limit, there are no more possible atoms than the limit.
pub fn atoms_are_counted()
    ensures { FewAtomsLaw }
{}
