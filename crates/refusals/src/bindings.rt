// The line of an instance that is outside.
ghost use Rattle.std.specs.Prelude.{◌≡◌, ◌++◌, ◌∷◌, [], ℕ, Some, length, map, slice_get, codes, IfOk, OnOk};
ghost use Rattle.std.specs.List.{AllByRecursion};
ghost use Rattle.syntax_tree.specs.Outcome.{IsKnown};
ghost use Rattle.syntax_tree.specs.declared.rule.Rule.{Rule as WrittenRule};
ghost use Rattle.syntax_tree.specs.declared.statement.Program.{Program};
ghost use Rattle.program_meaning.specs.Said.{value_in};
ghost use Rattle.program_meaning.specs.Outside.{Cause};
ghost use Rattle.program_meaning.specs.Variables.{globals};
ghost use Rattle.safety_meaning.specs.Program.{rule_of, written_rules};
ghost use Rattle.load_meaning.specs.Lines as spec;
ghost use Rattle.load_meaning.specs.Lines.{IsOutsideLine};
ghost use Rattle.refusals.specs.Sites.{AreRewritten, HasRule};

use crate::lines::{line_in, name_of};
use crate::places::place_at;
use crate::site::{Site, rule_site};
use rewriting::RewrittenProgram;
use std::alloc::Global;
use symbols::{Listed, Memory, SymbolTable};
use syntax_tree::{Rule, Value};

fn write_value(value: Value, symbols: &SymbolTable, out: &mut Listed<u8>) -> Result<(), Memory>
    requires { IsKnown (length symbols.now) (Some value) }
    ensures { OnOk result (out.new ≡ out.old ++ spec.value_text (value_in symbols.now value)) }
{
    match value {
        Value::Symbol(id) => symbols.write_symbol(id, out),
        Value::Over => out.append(b"over"),
    }
}

// A variable with its value, and nothing where it has no name.
fn write_bound(
    rule: &Rule,
    variable: u32,
    value: Value,
    symbols: &SymbolTable,
    out: &mut Listed<u8>,
) -> Result<(), Memory>
    requires { IsKnown (length symbols.now) (Some value) }
    ensures { OnOk result (out.new ≡ out.old ++ spec.bound_text rule.now variable (value_in symbols.now value)) }
{
    if variable as usize > rule.names.len() {
        return Ok(());
    }
    out.push(b' ')?;
    out.append(name_of(rule, variable))?;
    out.push(b'=')?;
    write_value(value, symbols, out)
}

fn write_bindings(
    rule: &Rule,
    variables: &[u32],
    values: &[Value],
    symbols: &SymbolTable,
    out: &mut Listed<u8>,
) -> Result<(), Memory>
    requires { AllByRecursion (λ value. IsKnown (length symbols.now) (Some value)) values.now }
    ensures { OnOk result (out.new ≡ out.old ++ spec.bindings_text rule.now variables.now (map (value_in symbols.now) values.now)) }
{
    for at in 0..variables.len() {
        if at >= values.len() {
            return Ok(());
        }
        write_bound(rule, variables[at], values[at], symbols, out)?;
    }
    Ok(())
}

// The values of variables behind ` at`, and nothing for no variables.
fn append_at(bound: &[u8], out: &mut Listed<u8>) -> Result<(), Memory>
    ensures { OnOk result (out.new ≡ out.old ++ spec.at_text bound.now) }
{
    if bound.is_empty() {
        return Ok(());
    }
    out.append(b" at")?;
    out.append(bound)
}

fn site_line(alloc: Global, site: &Site<'_>, said: &str, bound: &[u8]) -> Result<Listed<u8>, Memory>
    ensures { IfOk result (λ printed. printed ≡ spec.line_in site.now.name.now site.now.text.now (spec.place_at site.now.rule.now 0) (said.now ++ spec.at_text bound.now)) }
{
    let mut why = Listed::from_slice(alloc, said.as_bytes())?;
    append_at(bound, &mut why)?;
    line_in(
        alloc,
        site.name,
        site.text,
        place_at(site.rule, 0),
        why.items(),
    )
}

fn bound_line(
    alloc: Global,
    site: &Site<'_>,
    said: &str,
    variables: &[u32],
    values: &[Value],
    symbols: &SymbolTable,
) -> Result<Listed<u8>, Memory>
    requires { AllByRecursion (λ value. IsKnown (length symbols.now) (Some value)) values.now }
    ensures { IfOk result (λ printed. printed ≡ spec.line_in site.now.name.now site.now.text.now (spec.place_at site.now.rule.now 0) (said.now ++ spec.at_text (spec.bindings_text site.now.rule.now variables.now (map (value_in symbols.now) values.now)))) }
{
    let mut bound = Listed::new(alloc);
    write_bindings(site.rule, variables, values, symbols, &mut bound)?;
    site_line(alloc, site, said, bound.items())
}

/// The line of an instance that is outside: what is said of its cause, and the values of its rule's named variables.
/// The rule is told by its number among the rules of the texts, from 0, and its global variables stand in order.
pub fn outside_line(
    alloc: Global,
    names: &[&str],
    texts: &[Listed<u8>],
    program: &RewrittenProgram,
    place: usize,
    said: &str,
    variables: &[u32],
    values: &[Value],
    symbols: &SymbolTable,
) -> Result<Listed<u8>, Memory>
    requires named { length texts.now ≡ length names.now }
    requires here { HasRule texts.now program.now place }
    requires known { AllByRecursion (λ value. IsKnown (length symbols.now) (Some value)) values.now }
    ensures { IfOk result (λ printed. (old : Program) (rule : WrittenRule) (cause : Cause) → AreRewritten texts.now program.now old → slice_get (written_rules old.statements) place ≡ Some rule → variables.now ≡ globals (rule_of rule) → said.now ≡ spec.outside_text cause → IsOutsideLine (map (λ name. name.now) names.now) texts.now old (record { place = place; values = map (value_in symbols.now) values.now }) cause printed) }
{
    match rule_site(alloc, names, texts, program, place) {
        Ok(site) => bound_line(alloc, &site, said, variables, values, symbols),
        Err(_) => Err(Memory),
    }
}
