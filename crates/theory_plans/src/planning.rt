// Plans of the theory atoms of a rule.
ghost use Rattle.std.specs.Prelude.{◌≡◌, ◌++◌, ℕ, [], map, slice_get, Some, IfOk, OnOk, IsTrue};
ghost use Rattle.std.specs.List.{AllByRecursion, AllZip, list_all, flat_map};
ghost use Rattle.syntax_tree.specs.declared.literal.TheoryElement.{TheoryElement as SpecElement};
ghost use Rattle.syntax_tree.specs.Literals.{is_literal, is_theory_atom, is_theory_element};
ghost use Rattle.syntax_tree.specs.Statements.{is_head, is_rule};
ghost use Rattle.ground_model.specs.Members.{IsMember};
ghost use Rattle.program_meaning.specs.Read.{literal_read, theory_read, head_read, rule_read};
ghost use Rattle.program_meaning.specs.Tuples as tuples;
ghost use Rattle.program_meaning.specs.Variables as variables;
ghost use Rattle.groundable_rules.specs.Groundable.{IsGroundable};
ghost use Rattle.instance_plans.specs.Plans.{IsElementPlan, element_read};
ghost use Rattle.instance_plans.specs.Terms.{AreTerms};
ghost use Rattle.rule_plans.specs.Elements.{IsElementOf};
ghost use Rattle.theory_plans.specs.Planned.{IsTheoryPlan};

use crate::plan::TheoryPlan;
use instance_plans::Plan;
use rule_plans::element_plan;
use std::alloc::Global;
use symbols::{Listed, Memory};
use syntax_tree::{Head, Literal, Rule, TheoryAtom, TheoryElement};

// Puts the theory atom of a literal behind others.
fn push_told<'a>(literal: &'a Literal, found: &mut Listed<&'a TheoryAtom>) -> Result<(), Memory>
    requires tree { IsTrue (is_literal literal.now) }
    ensures read { OnOk result (map (λ theory. theory_read theory.now) found.new ≡ map (λ theory. theory_read theory.now) found.old ++ tuples.told_in (literal_read literal.now)) }
    ensures trees { OnOk result (AllByRecursion (λ theory. IsTrue (is_theory_atom theory.now)) found.old → AllByRecursion (λ theory. IsTrue (is_theory_atom theory.now)) found.new) }
{
    match literal {
        Literal::Theory(theory, _) => found.push(theory),
        Literal::Atom(_, _) | Literal::Compare(_, _, _) => Ok(()),
    }
}

// Puts the theory atom of a head behind others.
fn push_duty<'a>(head: &'a Head, found: &mut Listed<&'a TheoryAtom>) -> Result<(), Memory>
    requires tree { IsTrue (is_head head.now) }
    ensures read { OnOk result (map (λ theory. theory_read theory.now) found.new ≡ map (λ theory. theory_read theory.now) found.old ++ tuples.duty_in (head_read head.now)) }
    ensures trees { OnOk result (AllByRecursion (λ theory. IsTrue (is_theory_atom theory.now)) found.old → AllByRecursion (λ theory. IsTrue (is_theory_atom theory.now)) found.new) }
{
    match head {
        Head::Theory(theory) => found.push(theory),
        Head::Nothing | Head::Atom(_) | Head::Choice(_) => Ok(()),
    }
}

// The theory atoms among the literals of a body, in order.
fn told<'a>(alloc: Global, body: &'a [Literal]) -> Result<Listed<&'a TheoryAtom>, Memory>
    requires trees { IsTrue (list_all is_literal body.now) }
    ensures read { IfOk result (λ found. map (λ theory. theory_read theory.now) found ≡ flat_map tuples.told_in (map literal_read body.now)) }
    ensures trees { IfOk result (AllByRecursion (λ theory. IsTrue (is_theory_atom theory.now))) }
{
    let mut found = Listed::new(alloc);
    for literal in body {
        push_told(literal, &mut found)?;
    }
    Ok(found)
}

// The theory atoms of a rule: those of its body in order, and that of its head.
fn theories<'a>(alloc: Global, rule: &'a Rule) -> Result<Listed<&'a TheoryAtom>, Memory>
    requires tree { IsTrue (is_rule rule.now) }
    ensures read { IfOk result (λ found. map (λ theory. theory_read theory.now) found ≡ tuples.theories (rule_read rule.now [])) }
    ensures trees { IfOk result (AllByRecursion (λ theory. IsTrue (is_theory_atom theory.now))) }
{
    let mut found = told(alloc, rule.body.items())?;
    push_duty(&rule.head, &mut found)?;
    Ok(found)
}

// The plans of elements of a rule's theory atoms.
fn element_plans<'a>(
    alloc: Global,
    rule: &'a Rule,
    order: &[u32],
    elements: &'a [TheoryElement],
) -> Result<Listed<Plan<'a>>, Memory>
    requires groundable { IsGroundable (rule_read rule.now order.now) }
    requires members { (at : ℕ) (element : SpecElement) → slice_get elements.now at ≡ Some element → IsElementOf (rule_read rule.now order.now) (element_read element) }
    requires trees { IsTrue (list_all is_theory_element elements.now) }
    ensures plans { IfOk result (AllZip (IsElementPlan (rule_read rule.now order.now)) (map element_read elements.now)) }
    ensures terms { IfOk result (AllByRecursion AreTerms) }
{
    let mut plans = Listed::new(alloc);
    for element in elements {
        plans.push(element_plan(alloc, rule, order, element)?)?;
    }
    Ok(plans)
}

// The plan of one of a rule's theory atoms.
fn theory_plan<'a>(
    alloc: Global,
    rule: &'a Rule,
    order: &[u32],
    globals: &[u32],
    theory: &'a TheoryAtom,
) -> Result<TheoryPlan<'a>, Memory>
    requires groundable { IsGroundable (rule_read rule.now order.now) }
    requires globals { globals.now ≡ variables.globals (rule_read rule.now order.now) }
    requires member { IsMember (tuples.theories (rule_read rule.now order.now)) (theory_read theory.now) }
    requires tree { IsTrue (is_theory_atom theory.now) }
    ensures { IfOk result (IsTheoryPlan (rule_read rule.now order.now) (theory_read theory.now)) }
{
    let given = Listed::from_slice(alloc, globals)?;
    let elements = element_plans(alloc, rule, order, theory.elements.as_slice())?;
    let start = Plan {
        count: order.len(),
        given,
        variables: Listed::new(alloc),
        steps: Listed::new(alloc),
        tests: Listed::new(alloc),
    };
    Ok(TheoryPlan {
        theory,
        start,
        elements,
    })
}

// The plans of some of a rule's theory atoms.
fn plans_of<'a>(
    alloc: Global,
    rule: &'a Rule,
    order: &[u32],
    globals: &[u32],
    found: &[&'a TheoryAtom],
) -> Result<Listed<TheoryPlan<'a>>, Memory>
    requires groundable { IsGroundable (rule_read rule.now order.now) }
    requires globals { globals.now ≡ variables.globals (rule_read rule.now order.now) }
    requires members { map (λ theory. theory_read theory.now) found.now ≡ tuples.theories (rule_read rule.now order.now) }
    requires trees { AllByRecursion (λ theory. IsTrue (is_theory_atom theory.now)) found.now }
    ensures { IfOk result (AllZip (IsTheoryPlan (rule_read rule.now order.now)) (tuples.theories (rule_read rule.now order.now))) }
{
    let mut plans = Listed::new(alloc);
    for theory in found {
        plans.push(theory_plan(alloc, rule, order, globals, theory)?)?;
    }
    Ok(plans)
}

/// The plans of all theory atoms of a rule: those of its body in order, and that of its head. `order` are the rule's
/// variables in the order of its text, and `globals` those of its plan.
pub fn theory_plans<'a>(
    alloc: Global,
    rule: &'a Rule,
    order: &[u32],
    globals: &[u32],
) -> Result<Listed<TheoryPlan<'a>>, Memory>
    requires groundable { IsGroundable (rule_read rule.now order.now) }
    requires tree { IsTrue (is_rule rule.now) }
    requires globals { globals.now ≡ variables.globals (rule_read rule.now order.now) }
    ensures { IfOk result (AllZip (IsTheoryPlan (rule_read rule.now order.now)) (tuples.theories (rule_read rule.now order.now))) }
{
    let found = theories(alloc, rule)?;
    plans_of(alloc, rule, order, globals, found.items())
}
