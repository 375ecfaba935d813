// The first rule of a program that fails.
ghost use Rattle.std.specs.Prelude.{◌≡◌, ◌+◌, ◌<◌, ◌^◌, List, map, length, IfOk};
ghost use Rattle.std.specs.List.{AllZip};
ghost use Rattle.syntax_tree.specs.declared.statement.Statement.{Statement as WrittenStatement};
ghost use Rattle.syntax_tree.specs.declared.statement.Program.{Program};
ghost use Rattle.rewriting.specs.Rewritten.{rewritten_statement};
ghost use Rattle.rewriting.specs.Order.{order_of_statement, sights_of_statement};
ghost use Rattle.rewriting.specs.Rewriting.{IsRewriting};
ghost use Rattle.program_meaning.specs.Read.{ReadRule};
ghost use Rattle.predicate_order.specs.Ways.{NamedWay, bare_rules, blocking_ways, step_ways};
ghost use Rattle.predicate_order.specs.Judged.{AreWays, Judges};
ghost use Rattle.safety_meaning.specs.Program.{rule_in, rules_of};
ghost use Rattle.safety.specs.Judgement.{IsJudgement};
ghost use Rattle.safety.specs.inner.Rules.{IsTwin, IsStep, IsNextWithin};

use crate::failure::{FirstFailure, Step};
use crate::judging::judge;
use predicate_order::{Ways, blocking, steps};
use rewriting::{RewrittenProgram, Sight};
use std::alloc::Global;
use symbols::{Listed, Memory};
use syntax_tree::Statement;

/// The first rule of a rewritten program that may not be grounded, and what it fails by; `None` where every rule is fine.
///
/// Linear in the program, but for the tests of recursion: each rule with variables takes a pass over the steps of all
/// rules for each predicate in its head.
pub fn first_failure(
    alloc: Global,
    program: &RewrittenProgram,
) -> Result<Option<FirstFailure>, Memory>
    requires { (old : Program) × IsRewriting old program.now }
    ensures { IfOk result (λ found. (old : Program) → IsRewriting old program.now → IsJudgement old.statements found) }
{
    let statements = program.program.statements.items();
    let ways = blocking(alloc, statements)?;
    let flags = ways.flags(alloc)?;
    let mut steps = steps(alloc, statements)?;
    let found = search(
        alloc,
        &ways,
        flags.items(),
        &mut steps,
        statements,
        program.orders.items(),
        program.sights.items(),
    )?;
    Ok(found)
}

fn search(
    alloc: Global,
    ways: &Ways,
    flags: &[bool],
    steps: &mut Ways,
    statements: &[Statement],
    orders: &[Listed<u32>],
    sights: &[Listed<Sight>],
) -> Result<Option<FirstFailure>, Memory>
    requires steps { (named : List NamedWay) × AreWays named steps.old }
    requires orders { length orders.now ≡ length statements.now }
    requires sights { length sights.now ≡ length statements.now }
    ensures { IfOk result (λ found. (bare : List ReadRule) (all : List WrittenStatement) → Judges ways.now.table.keys flags.now (blocking_ways bare) → AreWays (step_ways bare) steps.old → AllZip IsTwin bare (rules_of all) → statements.now ≡ map rewritten_statement all → orders.now ≡ map order_of_statement all → sights.now ≡ map sights_of_statement all → IsJudgement all found) }
{
    let mut place = 0;
    for index in 0..statements.len() {
        let step = judge_statement(
            alloc,
            ways,
            flags,
            steps,
            &statements[index],
            orders[index].items(),
            sights[index].items(),
            place,
        )?;
        match step {
            Step::Next(next) => place = next,
            Step::Failed(found) => return Ok(Some(found)),
        }
    }
    Ok(None)
}

fn judge_statement(
    alloc: Global,
    ways: &Ways,
    flags: &[bool],
    steps: &mut Ways,
    statement: &Statement,
    order: &[u32],
    sights: &[Sight],
    place: usize,
) -> Result<Step, Memory>
    requires steps { (named : List NamedWay) × AreWays named steps.old }
    requires room { place + 1 < 2 ^ 64 }
    ensures step { IfOk result (λ step. (bare rules : List ReadRule) (old : WrittenStatement) → Judges ways.now.table.keys flags.now (blocking_ways bare) → AreWays (step_ways bare) steps.old → AllZip IsTwin bare rules → statement.now ≡ rewritten_statement old → order.now ≡ order_of_statement old → sights.now ≡ sights_of_statement old → IsStep rules place (rule_in old) step) }
    ensures next { IfOk result (IsNextWithin place) }
    ensures kept { (named : List NamedWay) → AreWays named steps.old → AreWays named steps.new }
{
    match statement {
        Statement::Rule(rule) => match judge(alloc, ways, flags, steps, rule, order, sights)? {
            Some(failure) => Ok(Step::Failed(FirstFailure {
                rule: place,
                failure,
            })),
            None => Ok(Step::Next(place + 1)),
        },
        Statement::Constant(_, _, _) => Ok(Step::Next(place)),
        Statement::ShowNothing => Ok(Step::Next(place)),
        Statement::Show(_, _) => Ok(Step::Next(place)),
    }
}
