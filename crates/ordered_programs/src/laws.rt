// What holds of programs in order. Each function's contract is the law, and its body is empty.
ghost use Rattle.ordered_programs.specs.Laws.{FitLaw, OrderedLaw, ReorderedLaw};

/// A program rewritten can be put in order where its text's rules can be grounded (`fit`). Its rules then are those of
/// the text in order (`ordered`), which differ from them in their order alone (`reordered`).
pub fn ordered_programs_are_reordered()
    ensures fit { FitLaw }
    ensures ordered { OrderedLaw }
    ensures reordered { ReorderedLaw }
{}
