// Values that are symbols, and those that are numbers.
ghost use Rattle.std.specs.Prelude.{◌≡◌, ◌<◌, length, true, false, All, IfOk, IsTrue, Some};
ghost use Rattle.symbols.specs.Symbol.{Number};
ghost use Rattle.symbols.specs.Table.{IsFront, symbol_at};
ghost use Rattle.syntax_tree.specs.Tree.{is_term};
ghost use Rattle.syntax_tree.specs.Outcome.{IsKnown, IsSymbol, bound_in, outcome_of};
ghost use Rattle.syntax_tree.specs.Value.{value_of};
ghost use Rattle.program_meaning.specs.Theory.{is_defined, is_over};
ghost use Rattle.program_meaning.specs.Instance.{is_bound};

use std::alloc::Global;
use symbols::{Memory, SymbolId, SymbolTable, SymbolView};
use syntax_tree::{Binding, Term, Value, evaluate};

// The symbol that a term is, which is neither undefined nor over.
pub(crate) fn symbol_of(
    alloc: Global,
    term: &Term,
    binding: &Binding,
    symbols: &mut SymbolTable,
) -> Result<SymbolId, Memory>
    requires term { IsTrue (is_term term.now) }
    requires binding { All (IsKnown (length symbols.old)) binding.now.values }
    requires defined { is_defined (value_of (bound_in symbols.old binding.now.values) term.now) ≡ true }
    requires inside { is_over (value_of (bound_in symbols.old binding.now.values) term.now) ≡ false }
    ensures symbol { IfOk result (λ id. value_of (bound_in symbols.old binding.now.values) term.now ≡ IsSymbol (symbol_at symbols.new id)) }
    ensures known { IfOk result (λ id. id < length symbols.new) }
    ensures kept { IsFront symbols.old symbols.new }
{
    match evaluate(alloc, term, binding, symbols) {
        Ok(value) => Ok(symbol_in(value, symbols)),
        Err(memory) => Err(memory),
    }
}

fn symbol_in(value: Option<Value>, symbols: &SymbolTable) -> SymbolId
    requires known { IsKnown (length symbols.now) value }
    requires defined { is_defined (outcome_of symbols.now value) ≡ true }
    requires inside { is_over (outcome_of symbols.now value) ≡ false }
    ensures symbol { outcome_of symbols.now value ≡ IsSymbol (symbol_at symbols.now result) }
    ensures known { result < length symbols.now }
{
    match value {
        Some(value) => symbol_at_value(value, symbols),
        None => unreachable!(),
    }
}

fn symbol_at_value(value: Value, symbols: &SymbolTable) -> SymbolId
    requires known { IsKnown (length symbols.now) (Some value) }
    requires inside { is_over (outcome_of symbols.now (Some value)) ≡ false }
    ensures symbol { outcome_of symbols.now (Some value) ≡ IsSymbol (symbol_at symbols.now result) }
    ensures known { result < length symbols.now }
{
    let _ = symbols;
    match value {
        Value::Symbol(id) => id,
        Value::Over => unreachable!(),
    }
}

// The number that a term is, which bounds a count and is not over.
pub(crate) fn number_of(
    alloc: Global,
    term: &Term,
    binding: &Binding,
    symbols: &mut SymbolTable,
) -> Result<i32, Memory>
    requires term { IsTrue (is_term term.now) }
    requires binding { All (IsKnown (length symbols.old)) binding.now.values }
    requires bound { is_bound (value_of (bound_in symbols.old binding.now.values) term.now) ≡ true }
    requires inside { is_over (value_of (bound_in symbols.old binding.now.values) term.now) ≡ false }
    ensures number { IfOk result (λ n. value_of (bound_in symbols.old binding.now.values) term.now ≡ IsSymbol (Number n)) }
    ensures kept { IsFront symbols.old symbols.new }
{
    match evaluate(alloc, term, binding, symbols) {
        Ok(value) => Ok(number_in(value, symbols)),
        Err(memory) => Err(memory),
    }
}

fn number_in(value: Option<Value>, symbols: &SymbolTable) -> i32
    requires known { IsKnown (length symbols.now) value }
    requires bound { is_bound (outcome_of symbols.now value) ≡ true }
    requires inside { is_over (outcome_of symbols.now value) ≡ false }
    ensures { outcome_of symbols.now value ≡ IsSymbol (Number result) }
{
    match value {
        Some(value) => number_at_value(value, symbols),
        None => unreachable!(),
    }
}

fn number_at_value(value: Value, symbols: &SymbolTable) -> i32
    requires known { IsKnown (length symbols.now) (Some value) }
    requires bound { is_bound (outcome_of symbols.now (Some value)) ≡ true }
    requires inside { is_over (outcome_of symbols.now (Some value)) ≡ false }
    ensures { outcome_of symbols.now (Some value) ≡ IsSymbol (Number result) }
{
    match value {
        Value::Symbol(id) => number_at_symbol(id, symbols),
        Value::Over => unreachable!(),
    }
}

fn number_at_symbol(id: SymbolId, symbols: &SymbolTable) -> i32
    requires known { id < length symbols.now }
    requires bound { is_bound (IsSymbol (symbol_at symbols.now id)) ≡ true }
    ensures { symbol_at symbols.now id ≡ Number result }
{
    match symbols.view(id) {
        SymbolView::Number(n) => n,
        SymbolView::Identifier(_) => unreachable!(),
        SymbolView::Text(_) => unreachable!(),
        SymbolView::Function(_, _) => unreachable!(),
    }
}
