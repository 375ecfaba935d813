// The ways of all rules of a program.
ghost use Rattle.std.specs.Prelude.{◌≡◌, ◌++◌, List, IfOk, OnOk};
ghost use Rattle.std.specs.List.{flat_map};
ghost use Rattle.predicate_order.specs.Ways.{NamedWay, ways_of, bare_rule, bare_rules, blocking_ways, step_ways};
ghost use Rattle.predicate_order.specs.Judged.{AreWays};

use crate::reading::Reads;
use crate::reads::{blocking_reads, step_reads};
use crate::ways::Ways;
use std::alloc::Global;
use symbols::{Listed, Memory};
use syntax_tree::Statement;

/// What keeps predicates from being domain predicates, in all rules of these statements.
pub fn blocking(alloc: Global, statements: &[Statement]) -> Result<Ways, Memory>
    ensures { IfOk result (AreWays (blocking_ways (bare_rules statements.now))) }
{
    let mut ways = Ways::new(alloc);
    for statement in statements {
        add_blocking(alloc, statement, &mut ways)?;
    }
    Ok(ways)
}

fn add_blocking(alloc: Global, statement: &Statement, ways: &mut Ways) -> Result<(), Memory>
    ensures { OnOk result ((before : List NamedWay) → AreWays before ways.old → AreWays (before ++ blocking_ways (bare_rule statement.now)) ways.new) }
{
    match statement {
        Statement::Rule(rule) => {
            let all = blocking_reads(alloc, rule)?;
            add_all(all, ways)?;
            Ok(())
        }
        Statement::Constant(_, _, _) => Ok(()),
        Statement::ShowNothing => Ok(()),
        Statement::Show(_, _) => Ok(()),
    }
}

/// On what predicates depend, in all rules of these statements.
pub fn steps(alloc: Global, statements: &[Statement]) -> Result<Ways, Memory>
    ensures { IfOk result (AreWays (step_ways (bare_rules statements.now))) }
{
    let mut ways = Ways::new(alloc);
    for statement in statements {
        add_steps(alloc, statement, &mut ways)?;
    }
    Ok(ways)
}

fn add_steps(alloc: Global, statement: &Statement, ways: &mut Ways) -> Result<(), Memory>
    ensures { OnOk result ((before : List NamedWay) → AreWays before ways.old → AreWays (before ++ step_ways (bare_rule statement.now)) ways.new) }
{
    match statement {
        Statement::Rule(rule) => {
            let all = step_reads(alloc, rule)?;
            add_all(all, ways)?;
            Ok(())
        }
        Statement::Constant(_, _, _) => Ok(()),
        Statement::ShowNothing => Ok(()),
        Statement::Show(_, _) => Ok(()),
    }
}

fn add_all(all: Listed<Reads>, ways: &mut Ways) -> Result<(), Memory>
    ensures { OnOk result ((before : List NamedWay) → AreWays before ways.old → AreWays (before ++ flat_map ways_of all) ways.new) }
{
    for reads in all.into_vec() {
        ways.push(reads)?;
    }
    Ok(())
}
