// Which atoms are shown.
ghost use Rattle.std.specs.Prelude.{◌≡◌, ◌<◌, length, map, IfOk};
ghost use Rattle.std.specs.List.{AllByRecursion, flat_map, list_any};
ghost use Rattle.symbols.specs.Table.{symbol_at};
ghost use Rattle.program_meaning.specs.Read.{show_read};
ghost use Rattle.program_meaning.specs.Canonical.{is_of_predicate as predicate_test, shows_atom};
ghost use Rattle.shown_flags.specs.inner.Shows.{is_show as show_test, names as names_test, is_shown as shown_test};

use std::alloc::Global;
use symbols::{Listed, Memory, SymbolId, SymbolTable, SymbolView};
use syntax_tree::Statement;

/// For each atom whether it is shown: all are where no statement is a `#show`, and else those whose predicate
/// one names.
pub fn shown_atoms(
    alloc: Global,
    statements: &[Statement],
    atoms: &[SymbolId],
    symbols: &SymbolTable,
) -> Result<Listed<bool>, Memory>
    requires { AllByRecursion (λ id. id < length symbols.now) atoms.now }
    ensures { IfOk result (λ flags. flags ≡ map (shows_atom (flat_map show_read statements.now)) (map (symbol_at symbols.now) atoms.now)) }
{
    let mut flags = Listed::new(alloc);
    for atom in atoms {
        flags.push(is_shown(statements, *atom, symbols))?;
    }
    Ok(flags)
}

// Whether an atom is shown.
#[tactic(auto, using(crate::proofs::ShowLemmas::shown_same))]
fn is_shown(statements: &[Statement], atom: SymbolId, symbols: &SymbolTable) -> bool
    requires { atom < length symbols.now }
    ensures { result ≡ shows_atom (flat_map show_read statements.now) (symbol_at symbols.now atom) }
{
    !has_show(statements) || is_named(statements, atom, symbols)
}

// Whether one of the statements is a `#show`.
fn has_show(statements: &[Statement]) -> bool
    ensures { result ≡ list_any show_test statements.now }
{
    statements.iter().any(|statement| is_show(statement))
}

// Whether a statement is a `#show`.
fn is_show(statement: &Statement) -> bool
    ensures { result ≡ show_test statement.now }
{
    match statement {
        Statement::ShowNothing => true,
        Statement::Show(_, _) => true,
        Statement::Rule(_) => false,
        Statement::Constant(_, _, _) => false,
    }
}

// Whether one of the statements names an atom's predicate.
fn is_named(statements: &[Statement], atom: SymbolId, symbols: &SymbolTable) -> bool
    requires { atom < length symbols.now }
    ensures { result ≡ list_any (names_test (symbol_at symbols.now atom)) statements.now }
{
    for statement in statements {
        if names(statement, atom, symbols) {
            return true;
        }
    }
    false
}

// Whether a statement names an atom's predicate.
fn names(statement: &Statement, atom: SymbolId, symbols: &SymbolTable) -> bool
    requires { atom < length symbols.now }
    ensures { result ≡ names_test (symbol_at symbols.now atom) statement.now }
{
    match statement {
        Statement::Show(name, arity) => is_of_predicate(name.items(), *arity, atom, symbols),
        Statement::ShowNothing => false,
        Statement::Rule(_) => false,
        Statement::Constant(_, _, _) => false,
    }
}

// Whether an atom has this name and this number of arguments.
#[tactic(auto, using(crate::proofs::ShowLemmas::arity_of))]
fn is_of_predicate(name: &[u8], arity: u32, atom: SymbolId, symbols: &SymbolTable) -> bool
    requires { atom < length symbols.now }
    ensures { result ≡ predicate_test name.now arity (symbol_at symbols.now atom) }
{
    match symbols.view(atom) {
        SymbolView::Number(_) => false,
        SymbolView::Text(_) => false,
        SymbolView::Identifier(other) => name == other.as_bytes() && arity == 0,
        SymbolView::Function(other, args) => {
            name == other.as_bytes() && arity as usize == args.len()
        }
    }
}
