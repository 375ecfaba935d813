// What holds of rules that can be grounded. Each function's contract is the law, and its body is empty.
ghost use Rattle.body_orders.specs.Laws.{BodyLaw, ChoiceLaw, ElementLaw};

/// The body of a rule that can be grounded has an order (`body`), and so has the condition of each element of its
/// choice (`choice`) and of its theory atoms (`element`).
pub fn safe_bodies_have_orders()
    ensures body { BodyLaw }
    ensures choice { ChoiceLaw }
    ensures element { ElementLaw }
{}
