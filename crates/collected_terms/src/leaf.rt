// Terms that stand for a value.
ghost use Rattle.std.specs.Prelude.{◌≡◌, ◌<◌, List, [], ◌∷◌, length, pos, true, false, Some, IfOk};
ghost use Rattle.symbols.specs.Table.{symbol_at};
ghost use Rattle.symbols.specs.Symbol.{Symbol, Number as NumberSymbol};
ghost use Rattle.syntax_tree.specs.Outcome.{IsKnown, IsUndefined, outcome_of};
ghost use Rattle.program_meaning.specs.Collected.{symbol_collected, worth_collected};
ghost use Rattle.collected_terms.specs.Found.{IsTermOf, IsKnownForm};

use crate::collected_term::{CollectedTerm, LinearForm};
use program_meaning::SymbolLinear;
use std::alloc::Global;
use symbols::{Listed, Memory, SymbolId, SymbolTable, SymbolView};
use syntax_tree::Value;

// A number.
pub(crate) fn number(alloc: Global, n: i32) -> CollectedTerm
    ensures found { (symbols : List Symbol) → IsTermOf symbols result (symbol_collected (NumberSymbol n)) }
    ensures known { (symbols : List Symbol) → IsKnownForm symbols result.form }
{
    CollectedTerm {
        undefined: false,
        over: false,
        form: LinearForm::Small(SymbolLinear {
            pairs: Listed::new(alloc),
            constant: i64::from(n),
        }),
    }
}

// A string or a tuple, which is not linear.
pub(crate) fn bent() -> CollectedTerm
    ensures { result ≡ record { undefined = false; over = false; form = LinearForm.NotLinear } }
{
    CollectedTerm {
        undefined: false,
        over: false,
        form: LinearForm::NotLinear,
    }
}

// An integer variable.
fn variable(alloc: Global, id: SymbolId) -> Result<CollectedTerm, Memory>
    ensures { IfOk result (λ found. found ≡ record { undefined = false; over = false; form = LinearForm.Small (record { pairs = (id, pos 1) ∷ []; constant = pos 0 }) }) }
{
    let mut pairs = Listed::new(alloc);
    pairs.push((id, 1))?;
    Ok(CollectedTerm {
        undefined: false,
        over: false,
        form: LinearForm::Small(SymbolLinear { pairs, constant: 0 }),
    })
}

// What has no value, or one that is over.
fn empty(alloc: Global, undefined: bool, over: bool) -> CollectedTerm
    ensures { result ≡ record { undefined = undefined; over = over; form = LinearForm.Small (record { pairs = []; constant = pos 0 }) } }
{
    CollectedTerm {
        undefined,
        over,
        form: LinearForm::Small(SymbolLinear {
            pairs: Listed::new(alloc),
            constant: 0,
        }),
    }
}

// A symbol: a number is a constant, an identifier and a name with arguments are variables.
fn by_symbol(alloc: Global, id: SymbolId, symbols: &SymbolTable) -> Result<CollectedTerm, Memory>
    requires { id < length symbols.now }
    ensures found { IfOk result (λ found. IsTermOf symbols.now found (symbol_collected (symbol_at symbols.now id))) }
    ensures known { IfOk result (λ found. IsKnownForm symbols.now found.form) }
{
    match symbols.view(id) {
        SymbolView::Number(n) => Ok(number(alloc, n)),
        SymbolView::Text(_) => Ok(bent()),
        SymbolView::Identifier(_) => variable(alloc, id),
        SymbolView::Function(name, _) => {
            if name.is_empty() {
                Ok(bent())
            } else {
                variable(alloc, id)
            }
        }
    }
}

// A term by its value, where `None` is undefined.
pub(crate) fn by_value(
    alloc: Global,
    value: Option<Value>,
    symbols: &SymbolTable,
) -> Result<CollectedTerm, Memory>
    requires { IsKnown (length symbols.now) value }
    ensures found { IfOk result (λ found. IsTermOf symbols.now found (worth_collected (outcome_of symbols.now value))) }
    ensures known { IfOk result (λ found. IsKnownForm symbols.now found.form) }
{
    match value {
        None => Ok(empty(alloc, true, false)),
        Some(value) => by_some_value(alloc, value, symbols),
    }
}

// The same, where it has a value.
fn by_some_value(
    alloc: Global,
    value: Value,
    symbols: &SymbolTable,
) -> Result<CollectedTerm, Memory>
    requires { IsKnown (length symbols.now) (Some value) }
    ensures found { IfOk result (λ found. IsTermOf symbols.now found (worth_collected (outcome_of symbols.now (Some value)))) }
    ensures known { IfOk result (λ found. IsKnownForm symbols.now found.form) }
{
    match value {
        Value::Over => Ok(empty(alloc, false, true)),
        Value::Symbol(id) => by_symbol(alloc, id, symbols),
    }
}

// What has no value.
pub(crate) fn undefined(alloc: Global) -> CollectedTerm
    ensures found { (symbols : List Symbol) → IsTermOf symbols result (worth_collected IsUndefined) }
    ensures known { (symbols : List Symbol) → IsKnownForm symbols result.form }
{
    empty(alloc, true, false)
}
