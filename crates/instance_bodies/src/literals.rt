// The atoms of literals.
ghost use Rattle.std.specs.Prelude.{◌≡◌, ◌<◌, ◌++◌, length, map, All, IfOk, IsTrue, OnOk, Some};
ghost use Rattle.std.specs.List.{AllByRecursion, flat_map};
ghost use Rattle.symbols.specs.Table.{IsFront};
ghost use Rattle.syntax_tree.specs.Literals.{is_literal};
ghost use Rattle.syntax_tree.specs.Outcome.{IsKnown, bound_in, outcome_of};
ghost use Rattle.syntax_tree.specs.Tree.{is_term};
ghost use Rattle.syntax_tree.specs.Value.{value_of};
ghost use Rattle.program_meaning.specs.Ground.{atom_as, plain_as, AtomsAs};
ghost use Rattle.program_meaning.specs.Read.{plain_of, plains, literal_read};
ghost use Rattle.symbol_rules.specs.Reading.{literal_in, HasLiterals};

use crate::sorting::sorted;
use std::alloc::Global;
use symbols::{Listed, Memory, SymbolId, SymbolTable};
use syntax_tree::{Binding, Literal, Term, Value, evaluate};

/// The different atoms of literals where the variables have these values, in the order of symbols, the true one before
/// the false one. An atom that is over or undefined is left out, and so are comparisons and theory atoms.
///
/// O(n log n) comparisons. The table gets the symbols of the atoms.
pub fn ground_literals(
    alloc: Global,
    literals: &[Literal],
    binding: &Binding,
    symbols: &mut SymbolTable,
) -> Result<Listed<(SymbolId, bool)>, Memory>
    requires literals { AllByRecursion (λ literal. IsTrue (is_literal literal)) literals.now }
    requires binding { All (IsKnown (length symbols.old)) binding.now.values }
    ensures atoms { IfOk result (λ atoms. AtomsAs (bound_in symbols.old binding.now.values) (plains (map literal_read literals.now)) (map (literal_in symbols.new) atoms)) }
    ensures known { IfOk result (HasLiterals (length symbols.new)) }
    ensures kept { IsFront symbols.old symbols.new }
{
    let mut found = Listed::new(alloc);
    match add_literals(alloc, literals, binding, &mut found, symbols) {
        Ok(()) => Ok(sorted(found, symbols)),
        Err(memory) => Err(memory),
    }
}

// Adds the atoms of literals, as they stand in the text.
fn add_literals(
    alloc: Global,
    literals: &[Literal],
    binding: &Binding,
    found: &mut Listed<(SymbolId, bool)>,
    symbols: &mut SymbolTable,
) -> Result<(), Memory>
    requires literals { AllByRecursion (λ literal. IsTrue (is_literal literal)) literals.now }
    requires binding { All (IsKnown (length symbols.old)) binding.now.values }
    requires found { HasLiterals (length symbols.old) found.old }
    ensures adds { OnOk result (map (literal_in symbols.new) found.new ≡ map (literal_in symbols.old) found.old ++ flat_map (plain_as (bound_in symbols.old binding.now.values)) (plains (map literal_read literals.now))) }
    ensures known { OnOk result (HasLiterals (length symbols.new) found.new) }
    ensures kept { IsFront symbols.old symbols.new }
{
    for place in 0..literals.len() {
        match add_literal(alloc, &literals[place], binding, found, symbols) {
            Ok(()) => {}
            Err(memory) => return Err(memory),
        }
    }
    Ok(())
}

// Adds the atom of a literal, if it has one.
fn add_literal(
    alloc: Global,
    literal: &Literal,
    binding: &Binding,
    found: &mut Listed<(SymbolId, bool)>,
    symbols: &mut SymbolTable,
) -> Result<(), Memory>
    requires literal { IsTrue (is_literal literal.now) }
    requires binding { All (IsKnown (length symbols.old)) binding.now.values }
    requires found { HasLiterals (length symbols.old) found.old }
    ensures adds { OnOk result (map (literal_in symbols.new) found.new ≡ map (literal_in symbols.old) found.old ++ flat_map (plain_as (bound_in symbols.old binding.now.values)) (plain_of (literal_read literal.now))) }
    ensures known { OnOk result (HasLiterals (length symbols.new) found.new) }
    ensures kept { IsFront symbols.old symbols.new }
{
    match literal {
        Literal::Atom(term, sign) => add_atom(alloc, term, *sign, binding, found, symbols),
        Literal::Compare(_, _, _) => Ok(()),
        Literal::Theory(_, _) => Ok(()),
    }
}

// Adds an atom with a sign, if it is a symbol.
fn add_atom(
    alloc: Global,
    term: &Term,
    sign: bool,
    binding: &Binding,
    found: &mut Listed<(SymbolId, bool)>,
    symbols: &mut SymbolTable,
) -> Result<(), Memory>
    requires term { IsTrue (is_term term.now) }
    requires binding { All (IsKnown (length symbols.old)) binding.now.values }
    requires found { HasLiterals (length symbols.old) found.old }
    ensures adds { OnOk result (map (literal_in symbols.new) found.new ≡ map (literal_in symbols.old) found.old ++ atom_as (value_of (bound_in symbols.old binding.now.values) term.now) sign) }
    ensures known { OnOk result (HasLiterals (length symbols.new) found.new) }
    ensures kept { IsFront symbols.old symbols.new }
{
    match evaluate(alloc, term, binding, symbols) {
        Ok(value) => add_outcome(value, sign, found, symbols),
        Err(memory) => Err(memory),
    }
}

fn add_outcome(
    value: Option<Value>,
    sign: bool,
    found: &mut Listed<(SymbolId, bool)>,
    symbols: &SymbolTable,
) -> Result<(), Memory>
    requires value { IsKnown (length symbols.now) value }
    requires found { HasLiterals (length symbols.now) found.old }
    ensures adds { OnOk result (map (literal_in symbols.now) found.new ≡ map (literal_in symbols.now) found.old ++ atom_as (outcome_of symbols.now value) sign) }
    ensures known { OnOk result (HasLiterals (length symbols.now) found.new) }
{
    match value {
        Some(value) => add_value(value, sign, found, symbols),
        None => Ok(()),
    }
}

fn add_value(
    value: Value,
    sign: bool,
    found: &mut Listed<(SymbolId, bool)>,
    symbols: &SymbolTable,
) -> Result<(), Memory>
    requires value { IsKnown (length symbols.now) (Some value) }
    requires found { HasLiterals (length symbols.now) found.old }
    ensures adds { OnOk result (map (literal_in symbols.now) found.new ≡ map (literal_in symbols.now) found.old ++ atom_as (outcome_of symbols.now (Some value)) sign) }
    ensures known { OnOk result (HasLiterals (length symbols.now) found.new) }
{
    let _ = symbols;
    match value {
        Value::Symbol(id) => found.push((id, sign)),
        Value::Over => Ok(()),
    }
}
