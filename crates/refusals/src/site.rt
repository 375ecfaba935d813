// Where the rules of rewritten texts stand.
ghost use Rattle.std.specs.Prelude.{◌≡◌, ◌<◌, ℕ, List, map, length, slice_get, Some, IfOk};
ghost use Rattle.syntax_tree.specs.declared.rule.Rule.{Rule as WrittenRule};
ghost use Rattle.syntax_tree.specs.declared.statement.Program.{Program};
ghost use Rattle.syntax_tree.specs.declared.statement.Statement.TheVariants as statement;
ghost use Rattle.safety_meaning.specs.Program.{written_rules};
ghost use Rattle.load_meaning.specs.Lines.{before_true as spec_before};
ghost use Rattle.refusals.specs.Sites.{AreRewritten, HasRule};
ghost use Rattle.refusals.specs.inner.Rows as spec;
ghost use Rattle.refusals.specs.inner.Rows.{IsRow, IsSiteAt, IsSiteOf};

use crate::flags::before_true;
use rewriting::{RewrittenProgram, Sight};
use std::alloc::Global;
use symbols::{Listed, Memory};
use syntax_tree::{Rule, Statement};

/// A rule of rewritten texts, and where it stands.
#[derive(Clone, Copy)]
pub(crate) struct Site<'a> {
    pub rule: &'a Rule,
    /// Its variables in the order in which they first occur in its text.
    pub order: &'a [u32],
    /// What has a place in its text, in order.
    pub sights: &'a [Sight],
    /// The name of its text.
    pub name: &'a str,
    /// The bytes of its text.
    pub text: &'a [u8],
}

fn is_rule(statement: &Statement) -> bool
    ensures { result ≡ spec.is_rule statement.now }
{
    match statement {
        Statement::Rule(_) => true,
        Statement::Constant(_, _, _) => false,
        Statement::ShowNothing => false,
        Statement::Show(_, _) => false,
    }
}

fn rule_flags(alloc: Global, statements: &[Statement]) -> Result<Listed<bool>, Memory>
    ensures { IfOk result (λ flags. flags ≡ map spec.is_rule statements.now) }
{
    let mut flags = Listed::new(alloc);
    for statement in statements {
        flags.push(is_rule(statement))?;
    }
    Ok(flags)
}

// The number of the statement that is the rule with this number, both from 0.
fn rule_statement(alloc: Global, statements: &[Statement], place: usize) -> Result<usize, Memory>
    ensures { IfOk result (λ at. at ≡ spec_before place (map spec.is_rule statements.now)) }
{
    let flags = rule_flags(alloc, statements)?;
    Ok(before_true(place, flags.items()))
}

fn rule_at<'a>(statements: &'a [Statement], at: usize) -> &'a Rule
    requires { (rule : WrittenRule) × (slice_get statements.now at ≡ Some (statement.Rule rule)) }
    ensures { slice_get statements.now at ≡ Some (statement.Rule result.now) }
{
    match &statements[at] {
        Statement::Rule(rule) => rule,
        _ => unreachable!(),
    }
}

fn numbers_at<'a>(lists: &'a [Listed<u32>], at: usize) -> &'a [u32]
    requires { at < length lists.now }
    ensures { slice_get lists.now at ≡ Some result.now }
{
    lists[at].items()
}

fn sights_at<'a>(lists: &'a [Listed<Sight>], at: usize) -> &'a [Sight]
    requires { at < length lists.now }
    ensures { slice_get lists.now at ≡ Some result.now }
{
    lists[at].items()
}

fn bytes_at<'a>(lists: &'a [Listed<u8>], at: usize) -> &'a [u8]
    requires { at < length lists.now }
    ensures { slice_get lists.now at ≡ Some result.now }
{
    lists[at].items()
}

fn name_at<'a>(names: &[&'a str], at: usize) -> &'a str
    requires { at < length names.now }
    ensures { slice_get (map (λ name. name.now) names.now) at ≡ Some result.now }
{
    names[at]
}

fn number_at(numbers: &[u32], at: usize) -> u32
    requires { at < length numbers.now }
    ensures { slice_get numbers.now at ≡ Some result }
{
    numbers[at]
}

// What belongs to the statement with this number.
fn site_at<'a>(
    names: &[&'a str],
    texts: &'a [Listed<u8>],
    program: &'a RewrittenProgram,
    at: usize,
) -> Site<'a>
    requires named { length texts.now ≡ length names.now }
    requires row { IsRow (length texts.now) program.now at }
    ensures { IsSiteAt (map (λ name. name.now) names.now) texts.now program.now at result }
{
    let file = number_at(program.program.files.items(), at) as usize;
    Site {
        rule: rule_at(program.program.statements.items(), at),
        order: numbers_at(program.orders.items(), at),
        sights: sights_at(program.sights.items(), at),
        name: name_at(names, file),
        text: bytes_at(texts, file),
    }
}

/// The site of the rule with this number, from 0.
pub(crate) fn rule_site<'a>(
    alloc: Global,
    names: &[&'a str],
    texts: &'a [Listed<u8>],
    program: &'a RewrittenProgram,
    place: usize,
) -> Result<Site<'a>, Memory>
    requires named { length texts.now ≡ length names.now }
    requires here { HasRule texts.now program.now place }
    ensures { IfOk result (λ site. (old : Program) (rule : WrittenRule) → AreRewritten texts.now program.now old → slice_get (written_rules old.statements) place ≡ Some rule → IsSiteOf (map (λ name. name.now) names.now) texts.now old place rule site) }
{
    match rule_statement(alloc, program.program.statements.items(), place) {
        Ok(at) => Ok(site_at(names, texts, program, at)),
        Err(_) => Err(Memory),
    }
}
