// What the ways of rules mean. Each function's contract is the law, and its body is empty.
ghost use Rattle.predicate_order.specs.Laws.{BlockedLaw, RecursiveLaw};

/// A predicate is reached by what blocks exactly where it is found to be no domain predicate (`blocked`), and a rule
/// turns in the steps of all rules exactly where it is recursive (`recursive`).
pub fn ways_mean()
    ensures blocked { BlockedLaw }
    ensures recursive { RecursiveLaw }
{}
