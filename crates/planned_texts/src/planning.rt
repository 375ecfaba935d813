// The rules of a rewritten program with their plans.
ghost use Rattle.std.specs.Prelude.{◌≡◌, ◌∷◌, ◌++◌, [], ℕ, List, map, IfOk, OnOk};
ghost use Rattle.std.specs.List.{AllZip};
ghost use Rattle.syntax_tree.specs.declared.statement.Program.{Program};
ghost use Rattle.rewriting.specs.Rewriting.{IsRewriting};
ghost use Rattle.program_meaning.specs.Read.{rule_read, rules_read};
ghost use Rattle.safety_meaning.specs.Program.{rules_of};
ghost use Rattle.groundable_texts.specs.Statements.{IsGroundableRule, IsGroundableStatement};
ghost use Rattle.planned_rules.specs.Planned.{rule_of};
ghost use Rattle.fine_texts.specs.Fine.{AreFineTexts};
ghost use Rattle.planned_texts.specs.Ready.{IsReady};

use groundable_texts::rules_of_texts_are_groundable;
use planned_rules::PlannedRule;
use rewriting::RewrittenProgram;
use rule_planning::planned_rule;
use std::alloc::Global;
use symbols::{Listed, Memory};
use syntax_tree::{Rule, Statement};
use theory_plans::{TheoryPlan, theory_plans};

/// The rules of texts in order, and for each of them the plans of its theory atoms, those of its body in order and then
/// that of its head.
#[derive(Drop)]
pub struct PlannedTexts<'a> {
    pub rules: Listed<PlannedRule<'a>>,
    pub plans: Listed<Listed<TheoryPlan<'a>>>,
}

fn add_rule<'a>(
    alloc: Global,
    rule: &'a Rule,
    order: &'a [u32],
    rules: &mut Listed<PlannedRule<'a>>,
    plans: &mut Listed<Listed<TheoryPlan<'a>>>,
) -> Result<(), Memory>
    requires { IsGroundableRule rule.now order.now }
    ensures rules { OnOk result (map rule_of rules.new ≡ map rule_of rules.old ++ rule_read rule.now order.now ∷ []) }
    ensures ready { OnOk result (AllZip IsReady rules.old plans.old → AllZip IsReady rules.new plans.new) }
{
    let planned = planned_rule(alloc, rule, order)?;
    let of_theories = theory_plans(alloc, rule, order, planned.plan.variables.items())?;
    rules.push(planned)?;
    plans.push(of_theories)?;
    Ok(())
}

fn add_statement<'a>(
    alloc: Global,
    statement: &'a Statement,
    order: &'a [u32],
    rules: &mut Listed<PlannedRule<'a>>,
    plans: &mut Listed<Listed<TheoryPlan<'a>>>,
) -> Result<(), Memory>
    requires { IsGroundableStatement statement.now order.now }
    ensures rules { OnOk result (map rule_of rules.new ≡ map rule_of rules.old ++ rules_read (statement.now ∷ []) (order.now ∷ [])) }
    ensures ready { OnOk result (AllZip IsReady rules.old plans.old → AllZip IsReady rules.new plans.new) }
{
    match statement {
        Statement::Rule(rule) => add_rule(alloc, rule, order, rules, plans),
        Statement::Constant(_, _, _) => Ok(()),
        Statement::ShowNothing => Ok(()),
        Statement::Show(_, _) => Ok(()),
    }
}

fn planned_statements<'a>(
    alloc: Global,
    statements: &'a [Statement],
    orders: &'a [Listed<u32>],
) -> Result<PlannedTexts<'a>, Memory>
    requires { AllZip IsGroundableStatement statements.now orders.now }
    ensures rules { IfOk result (λ planned. map rule_of planned.rules ≡ rules_read statements.now orders.now) }
    ensures ready { IfOk result (λ planned. AllZip IsReady planned.rules planned.plans) }
{
    let mut rules = Listed::new(alloc);
    let mut plans = Listed::new(alloc);
    for at in 0..statements.len() {
        add_statement(
            alloc,
            &statements[at],
            orders[at].items(),
            &mut rules,
            &mut plans,
        )?;
    }
    Ok(PlannedTexts { rules, plans })
}

/// The rules of the program of texts in which every rule is fine, with all their plans.
pub fn planned_texts<'a>(
    alloc: Global,
    program: &'a RewrittenProgram,
) -> Result<PlannedTexts<'a>, Memory>
    requires { (texts : List (List ℕ)) × AreFineTexts texts program.now }
    ensures rules { IfOk result (λ planned. (old : Program) → IsRewriting old program.now → map rule_of planned.rules ≡ rules_of old.statements) }
    ensures ready { IfOk result (λ planned. AllZip IsReady planned.rules planned.plans) }
{
    rules_of_texts_are_groundable();
    planned_statements(
        alloc,
        program.program.statements.items(),
        program.orders.items(),
    )
}
