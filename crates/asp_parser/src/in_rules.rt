// Statements with their constants replaced.
ghost use Rattle.std.specs.Prelude.{◌≡◌, map, IfOk};
ghost use Rattle.std.specs.Option.{unwrap_or};
ghost use Rattle.syntax_tree.specs.declared.statement.Statement.TheVariants.{Rule as RuleStatement};
ghost use Rattle.asp_parser.specs.Replacement as spec;

use crate::constant_table::ConstantTable;
use crate::in_literals::{replaced_guard, replaced_literals, replaced_theory};
use crate::in_terms::{copied, replaced_atom};
use crate::kept_rules::is_rule_kept;
use std::alloc::Global;
use symbols::{Listed, Memory};
use syntax_tree::{Choice, ChoiceElement, Head, Name, Rule, Statement};

// A statement with its constants replaced, if that changes it.
pub(crate) fn changed(
    alloc: Global,
    statement: &Statement,
    constants: &ConstantTable,
) -> Result<Option<Statement>, Memory>
    ensures { IfOk result (λ new. unwrap_or new statement.now ≡ spec.replaced_statement constants.now statement.now) }
{
    match statement {
        Statement::Rule(rule) => changed_rule(alloc, rule, constants),
        _ => Ok(None),
    }
}

// A rule with its constants replaced, if one stands in it.
fn changed_rule(
    alloc: Global,
    rule: &Rule,
    constants: &ConstantTable,
) -> Result<Option<Statement>, Memory>
    ensures { IfOk result (λ new. unwrap_or new (RuleStatement rule.now) ≡ RuleStatement (spec.replaced_rule constants.now rule.now)) }
{
    if is_rule_kept(rule, constants) {
        return Ok(None);
    }
    Ok(Some(Statement::Rule(replaced_rule(alloc, rule, constants)?)))
}

// A rule with its constants replaced.
fn replaced_rule(alloc: Global, rule: &Rule, constants: &ConstantTable) -> Result<Rule, Memory>
    ensures { IfOk result (λ new. new ≡ spec.replaced_rule constants.now rule.now) }
{
    let head = replaced_head(alloc, &rule.head, constants)?;
    let body = replaced_literals(alloc, rule.body.items(), constants)?;
    let names = copied_names(alloc, rule.names.items())?;
    let places = Listed::from_slice(alloc, rule.places.items())?;
    Ok(Rule {
        head,
        body,
        arrow: rule.arrow,
        names,
        places,
    })
}

// A copy of the names of variables.
fn copied_names(alloc: Global, names: &[Name]) -> Result<Listed<Name>, Memory>
    ensures { IfOk result (λ copy. copy ≡ names.now) }
{
    let mut copy = Listed::new(alloc);
    for name in names {
        let text = copied(alloc, &name.text)?;
        copy.push(Name { text })?;
    }
    Ok(copy)
}

// A head with its constants replaced.
fn replaced_head(alloc: Global, head: &Head, constants: &ConstantTable) -> Result<Head, Memory>
    ensures { IfOk result (λ new. new ≡ spec.replaced_head constants.now head.now) }
{
    match head {
        Head::Nothing => Ok(Head::Nothing),
        Head::Atom(atom) => Ok(Head::Atom(replaced_atom(alloc, atom, constants)?)),
        Head::Theory(atom) => Ok(Head::Theory(replaced_theory(alloc, atom, constants)?)),
        Head::Choice(choice) => Ok(Head::Choice(replaced_choice(alloc, choice, constants)?)),
    }
}

// A choice with its constants replaced.
fn replaced_choice(
    alloc: Global,
    choice: &Choice,
    constants: &ConstantTable,
) -> Result<Choice, Memory>
    ensures { IfOk result (λ new. new ≡ spec.replaced_choice constants.now choice.now) }
{
    let left = replaced_guard(alloc, &choice.left, constants)?;
    let elements = replaced_elements(alloc, choice.elements.items(), constants)?;
    let right = replaced_guard(alloc, &choice.right, constants)?;
    Ok(Choice {
        left,
        elements,
        right,
    })
}

fn replaced_elements(
    alloc: Global,
    elements: &[ChoiceElement],
    constants: &ConstantTable,
) -> Result<Listed<ChoiceElement>, Memory>
    ensures { IfOk result (λ new. new ≡ map (spec.replaced_choice_element constants.now) elements.now) }
{
    let mut done = Listed::new(alloc);
    for element in elements {
        done.push(replaced_element(alloc, element, constants)?)?;
    }
    Ok(done)
}

fn replaced_element(
    alloc: Global,
    element: &ChoiceElement,
    constants: &ConstantTable,
) -> Result<ChoiceElement, Memory>
    ensures { IfOk result (λ new. new ≡ spec.replaced_choice_element constants.now element.now) }
{
    let atom = replaced_atom(alloc, &element.atom, constants)?;
    let condition = replaced_literals(alloc, element.condition.items(), constants)?;
    Ok(ChoiceElement { atom, condition })
}
