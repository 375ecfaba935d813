// What holds of the parts of ground programs. Each function's contract is the law, and its body is empty.
ghost use Rattle.instance_laws.specs.Laws.{InstancesLaw, TheoriesLaw, ToldLaw, GuardedLaw, RelationLaw, DutyLaw, AtomVariablesLaw, InstanceVariablesLaw, ProgramVariablesLaw, DirectedLaw};

/// The rules that relevant instances give, in the order of the instances and without directives, are the rules of the
/// ground program.
pub fn instances_give_rules()
    ensures { InstancesLaw }
{}

/// The theory atoms of a rule are those of its body's theory literals, and that of its head (`theories`); relations of the
/// former are the theory literals of the ground body (`told`). A theory atom in collected form has its guard (`guarded`),
/// and gives a relation (`relation`) or a head (`duty`).
pub fn collected_atoms_give_parts()
    ensures theories { TheoriesLaw }
    ensures told { ToldLaw }
    ensures guarded { GuardedLaw }
    ensures relation { RelationLaw }
    ensures duty { DutyLaw }
{}

/// The integer variables of a theory atom stand in its collected form (`atom`), those of an instance in those of its
/// theory atoms (`instance`), and those of a program in those of its relevant instances (`program`).
pub fn variables_are_collected()
    ensures atom { AtomVariablesLaw }
    ensures instance { InstanceVariablesLaw }
    ensures program { ProgramVariablesLaw }
{}

/// The tuples of a directive are those of the directives of relevant instances.
pub fn directives_are_collected()
    ensures { DirectedLaw }
{}
