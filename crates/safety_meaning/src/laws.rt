// What holds of programs of texts. Each function's contract is the law, and its body is empty.
ghost use Rattle.safety_meaning.specs.Laws.{ReadLaw, OneFailureLaw, FineLaw, OneBodyLaw, OneConditionLaw, PossibleLaw, RelevantLaw, CountLaw, OutsideLaw, VariableLaw, ObjectiveLaw, LimitsLaw, OrderedLaw, GroundsLaw};

/// The program that statements stand for is that of the statements rewritten, with the orders that go with them.
pub fn text_programs()
    ensures { ReadLaw }
{}

/// Statements have one first failure at most (`one`), and none where every rule is fine (`none`).
pub fn one_failure()
    ensures one { OneFailureLaw }
    ensures none { FineLaw }
{}

/// A body has one order at most (`body`), and so has a condition (`condition`). A rule with its body and its
/// conditions in order differs in their order alone (`same`).
pub fn one_order()
    ensures body { OneBodyLaw }
    ensures condition { OneConditionLaw }
    ensures same { OrderedLaw }
{}

/// Rules in another order of their bodies and conditions have the same possible atoms (`possible`), the same
/// relevant instances (`relevant`), ground counts that exceed the same limits (`count`), and the same first
/// instance that is outside, by the same cause (`outside`).
pub fn reordered_rules()
    ensures possible { PossibleLaw }
    ensures relevant { RelevantLaw }
    ensures count { CountLaw }
    ensures outside { OutsideLaw }
{}

/// Rules in another order of their bodies and conditions have the same integer variables (`variables`), the same
/// objective under values of these (`objective`), and are within the same limits (`limits`).
pub fn reordered_programs()
    ensures variables { VariableLaw }
    ensures objective { ObjectiveLaw }
    ensures limits { LimitsLaw }
{}

/// Rules in another order of their bodies and conditions have the same canonical ground program.
pub fn reordered_grounds()
    ensures { GroundsLaw }
{}
