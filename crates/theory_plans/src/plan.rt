// Plans of theory atoms.
use instance_plans::Plan;
use symbols::Listed;
use syntax_tree::TheoryAtom;

/// How the values of each element's local variables are searched, made once for a theory atom of a rule.
#[derive(Drop)]
pub struct TheoryPlan<'a> {
    pub theory: &'a TheoryAtom,
    /// A plan without steps: the rule's global variables are given, and no other has a value.
    pub start: Plan<'a>,
    /// The plans of the elements, in order.
    pub elements: Listed<Plan<'a>>,
}
