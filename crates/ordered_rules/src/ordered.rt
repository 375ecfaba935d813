// Rules beside their variables in order.
ghost use Rattle.std.specs.Prelude.{◌≡◌, ◌++◌, map, IfOk, OnOk};
ghost use Rattle.std.specs.List.{AllByRecursion, AllZip};
ghost use Rattle.program_meaning.specs.Read.{rules_read};
ghost use Rattle.groundable_texts.specs.Statements.{IsGroundableStatement};
ghost use Rattle.ordered_rules.specs.Ordered.{read_of, IsGroundableOrdered};
ghost use Rattle.ordered_rules.specs.inner.Adding.{rule_there};

use rewriting::RewrittenProgram;
use std::alloc::Global;
use symbols::{Listed, Memory};
use syntax_tree::{Rule, Statement};

/// A rule of a rewritten program, and its variables in the order in which they first occur in its text.
#[derive(Clone, Copy)]
pub struct OrderedRule<'a> {
    pub rule: &'a Rule,
    pub order: &'a [u32],
}

/// The rules of a rewritten program that can be grounded, in order, each beside its variables.
pub fn ordered_rules<'a>(
    alloc: Global,
    program: &'a RewrittenProgram,
) -> Result<Listed<OrderedRule<'a>>, Memory>
    requires { AllZip IsGroundableStatement program.now.program.statements program.now.orders }
    ensures rules { IfOk result (λ rules. map read_of rules ≡ rules_read program.now.program.statements program.now.orders) }
    ensures groundable { IfOk result (AllByRecursion IsGroundableOrdered) }
{
    let rules = rules_of(
        alloc,
        program.program.statements.items(),
        program.orders.items(),
    )?;
    Ok(rules)
}

fn rules_of<'a>(
    alloc: Global,
    statements: &'a [Statement],
    orders: &'a [Listed<u32>],
) -> Result<Listed<OrderedRule<'a>>, Memory>
    requires { AllZip IsGroundableStatement statements.now orders.now }
    ensures rules { IfOk result (λ rules. map read_of rules ≡ rules_read statements.now orders.now) }
    ensures groundable { IfOk result (AllByRecursion IsGroundableOrdered) }
{
    let mut rules = Listed::new(alloc);
    for at in 0..statements.len() {
        add_rule(&statements[at], orders[at].items(), &mut rules)?;
    }
    Ok(rules)
}

fn add_rule<'a>(
    statement: &'a Statement,
    order: &'a [u32],
    rules: &mut Listed<OrderedRule<'a>>,
) -> Result<(), Memory>
    requires { IsGroundableStatement statement.now order.now }
    ensures rules { OnOk result (map read_of rules.new ≡ map read_of rules.old ++ rule_there statement.now order.now) }
    ensures groundable { OnOk result (AllByRecursion IsGroundableOrdered rules.old → AllByRecursion IsGroundableOrdered rules.new) }
{
    match statement {
        Statement::Rule(rule) => rules.push(OrderedRule { rule, order }),
        Statement::Constant(_, _, _) => Ok(()),
        Statement::ShowNothing => Ok(()),
        Statement::Show(_, _) => Ok(()),
    }
}
