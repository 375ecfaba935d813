// The atoms of statements, numbered in the order of their symbols.
ghost use Rattle.std.specs.Prelude.{◌≡◌, ◌<◌, ◌^◌, length, map, replicate, true, All, IfOk};
ghost use Rattle.symbols.specs.Table.{IsOnce};
ghost use Rattle.first_form.specs.Form.{HaveKnown};
ghost use Rattle.clingcon_app.specs.Numbering.{ids_of, AreDifferent, AreNumbered, IsNumbered, IsNumbering, numbered_body, numbered_rule};

use first_form::DefiniteStatement;
use ground_model::{BodyLit, GroundHead, GroundRule};
use std::alloc::Global;
use symbols::{Listed, Memory, SymbolId, SymbolTable, sorted_ids};

/// The atoms of statements by their ids, in the order of their symbols, and the statements as rules over
/// their numbers, which count from 1.
#[derive(Drop)]
pub(crate) struct Numbering {
    pub(crate) atoms: Listed<SymbolId>,
    pub(crate) rules: Listed<GroundRule>,
}

/// Numbers the atoms of statements.
pub(crate) fn numbered(
    alloc: Global,
    symbols: &SymbolTable,
    statements: &[DefiniteStatement],
) -> Result<Numbering, Memory>
    requires once { IsOnce symbols.now }
    requires known { HaveKnown symbols.now statements.now }
    ensures { IfOk result (λ numbering. AreNumbered symbols.now statements.now numbering.atoms numbering.rules) }
{
    let occurring = occurring_ids(alloc, statements)?;
    let atoms = sorted_ids(alloc, symbols, occurring.items())?;
    let numbers = atom_numbers(alloc, symbols.len(), atoms.items())?;
    let rules = numbered_rules(alloc, &numbers, statements)?;
    Ok(Numbering { atoms, rules })
}

// The id of each occurrence of an atom: of each statement its head and then its body.
fn occurring_ids(
    alloc: Global,
    statements: &[DefiniteStatement],
) -> Result<Listed<SymbolId>, Memory>
    ensures { IfOk result (λ ids. ids ≡ ids_of statements.now) }
{
    let mut ids = Listed::new(alloc);
    for statement in statements {
        ids.push(statement.head)?;
        ids.append(statement.body.items())?;
    }
    Ok(ids)
}

// For each symbol of a table the number of the atom that it is, counted from 1; 0 for any other symbol.
fn atom_numbers(alloc: Global, symbols: usize, atoms: &[SymbolId]) -> Result<Vec<u32>, Memory>
    requires known { All (λ id. id < symbols) atoms.now }
    requires different { AreDifferent atoms.now }
    requires few { length atoms.now < 2 ^ 32 }
    ensures len { IfOk result (λ numbers. length numbers.items ≡ symbols) }
    ensures numbers { IfOk result (λ numbers. IsNumbering atoms.now numbers.items) }
{
    let mut numbers = vec![in alloc; 0u32; symbols]?;
    for (place, id) in atoms.iter().enumerate() {
        numbers[id.place()] = place as u32 + 1;
    }
    Ok(numbers)
}

// The statements as rules over numbered atoms.
fn numbered_rules(
    alloc: Global,
    numbers: &[u32],
    statements: &[DefiniteStatement],
) -> Result<Listed<GroundRule>, Memory>
    requires { All (IsNumbered (length numbers.now)) statements.now }
    ensures { IfOk result (λ rules. rules ≡ map (numbered_rule numbers.now) statements.now) }
{
    let mut rules = Listed::new(alloc);
    for statement in statements {
        rules.push(rule_of(alloc, numbers, statement)?)?;
    }
    Ok(rules)
}

fn rule_of(
    alloc: Global,
    numbers: &[u32],
    statement: &DefiniteStatement,
) -> Result<GroundRule, Memory>
    requires head { statement.now.head < length numbers.now }
    requires body { All (λ id. id < length numbers.now) statement.now.body }
    ensures { IfOk result (λ rule. rule ≡ numbered_rule numbers.now statement.now) }
{
    Ok(GroundRule {
        body: body_of(alloc, numbers, statement.body.items())?,
        head: GroundHead::Atom(numbers[statement.head.place()]),
    })
}

fn body_of(alloc: Global, numbers: &[u32], ids: &[SymbolId]) -> Result<Listed<BodyLit>, Memory>
    requires { All (λ id. id < length numbers.now) ids.now }
    ensures { IfOk result (λ body. body ≡ numbered_body numbers.now ids.now) }
{
    let mut body = Vec::with_capacity(alloc, ids.len())?;
    for id in ids {
        body.push(BodyLit::Atom(numbers[id.place()], true))?;
    }
    Ok(Listed::from_vec(body))
}

/// So many flags, all true.
pub(crate) fn all_shown(alloc: Global, count: usize) -> Result<Listed<bool>, Memory>
    ensures { IfOk result (λ flags. flags ≡ replicate count true) }
{
    Ok(Listed::from_vec(vec![in alloc; true; count]?))
}
