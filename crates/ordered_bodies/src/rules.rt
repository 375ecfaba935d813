// Rules with their bodies and conditions in order.
ghost use Rattle.std.specs.Prelude.{◌≡◌, [], map, IfOk};
ghost use Rattle.std.specs.List.{AllByRecursion, AllZip};
ghost use Rattle.program_meaning.specs.Read.{ReadRule, literal_read, choice_read, head_read, rule_read, plains};
ghost use Rattle.groundable_rules.specs.Groundable.{IsGroundable};
ghost use Rattle.safety_meaning.specs.Ordered.{IsOrderedChoice, IsOrderedHead, IsOrderedRule};
ghost use Rattle.ordered_bodies.specs.inner.Orderable.{IsOrderable};
ghost use Rattle.ordered_bodies.specs.inner.Parts.{AreOrderableIn, AreOrderableInHead, AreGlobal, IsOrderedWhole};

use crate::ordering::ordered;
use crate::theories::{ordered_literals, ordered_theory};
use rule_variables::globals;
use sqlite_items::Items;
use std::alloc::Global;
use symbols::{Listed, Memory};
use syntax_tree::{Choice, ChoiceElement, Head, Literal, Rule};

// An element of a choice with its condition in order.
fn ordered_element(
    alloc: Global,
    element: ChoiceElement,
    order: &[u32],
    given: &[u32],
) -> Result<ChoiceElement, Memory>
    requires { IsOrderable order.now given.now (choice_read element).condition }
    ensures { IfOk result (λ done. (rule : ReadRule) → AreGlobal rule order.now given.now → IsOrderedChoice rule (choice_read element) (choice_read done)) }
{
    let ChoiceElement { atom, condition } = element;
    let condition = ordered(alloc, Items::from_vec(condition.into_vec()), order, given)?;
    Ok(ChoiceElement { atom, condition })
}

// Elements of a choice with their conditions in order.
fn ordered_elements(
    alloc: Global,
    mut left: Listed<ChoiceElement>,
    order: &[u32],
    given: &[u32],
) -> Result<Listed<ChoiceElement>, Memory>
    requires { AllByRecursion (λ element. IsOrderable order.now given.now element.condition) (map choice_read left) }
    ensures { IfOk result (λ done. (rule : ReadRule) → AreGlobal rule order.now given.now → AllZip (IsOrderedChoice rule) (map choice_read left) (map choice_read done)) }
{
    let mut done = Listed::new(alloc);
    while let Some(element) = left.pop() {
        let element = ordered_element(alloc, element, order, given)?;
        done.push(element)?;
    }
    done.reverse();
    Ok(done)
}

// A head with its conditions in order.
fn ordered_head(alloc: Global, head: Head, order: &[u32], given: &[u32]) -> Result<Head, Memory>
    requires { AreOrderableInHead order.now given.now (head_read head) }
    ensures { IfOk result (λ done. (rule : ReadRule) → AreGlobal rule order.now given.now → IsOrderedHead rule (head_read head) (head_read done)) }
{
    match head {
        Head::Nothing => Ok(Head::Nothing),
        Head::Atom(atom) => Ok(Head::Atom(atom)),
        Head::Theory(theory) => {
            let theory = ordered_theory(alloc, theory, order, given)?;
            Ok(Head::Theory(theory))
        }
        Head::Choice(choice) => {
            let Choice {
                left,
                elements,
                right,
            } = choice;
            let elements = ordered_elements(alloc, elements, order, given)?;
            Ok(Head::Choice(Choice {
                left,
                elements,
                right,
            }))
        }
    }
}

// A body in order, with its conditions in order.
fn ordered_body(
    alloc: Global,
    body: Listed<Literal>,
    order: &[u32],
    given: &[u32],
) -> Result<Listed<Literal>, Memory>
    requires plain { IsOrderable order.now [] (plains (map literal_read body)) }
    requires told { AllByRecursion (AreOrderableIn order.now given.now) (map literal_read body) }
    ensures { IfOk result (λ done. (rule : ReadRule) → AreGlobal rule order.now given.now → IsOrderedWhole rule (map literal_read body) (map literal_read done)) }
{
    let plain = ordered(alloc, Items::from_vec(body.into_vec()), order, &[])?;
    let done = ordered_literals(alloc, plain, order, given)?;
    Ok(done)
}

/// The rule, whose variables in the order of its text are `order`, with its body and its conditions in order; a
/// refusal drops it.
///
/// Goes over a body once for each literal that comes before all variables are bound, and once more.
pub fn ordered_rule(alloc: Global, rule: Rule, order: &[u32]) -> Result<Rule, Memory>
    requires { IsGroundable (rule_read rule order.now) }
    ensures { IfOk result (λ done. IsOrderedRule (rule_read rule order.now) (rule_read done order.now)) }
{
    let given = globals(alloc, &rule, order)?;
    let Rule {
        head,
        body,
        arrow,
        names,
        places,
    } = rule;
    let body = ordered_body(alloc, body, order, given.items())?;
    let head = ordered_head(alloc, head, order, given.items())?;
    Ok(Rule {
        head,
        body,
        arrow,
        names,
        places,
    })
}
