// Objectives are judged. The function's contract is the law, and its body is empty.
ghost use Rattle.objective_laws.specs.Laws.{SmallObjectiveLaw, LargeObjectiveLaw};

/// Over the numbers of the program's variables, tuples that are a sound objective show that the program's is not
/// too large (`small`), and those that are not show that it is (`large`).
pub fn objectives_are_judged()
    ensures small { SmallObjectiveLaw }
    ensures large { LargeObjectiveLaw }
{}
