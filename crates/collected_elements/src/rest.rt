// Further places.
ghost use Rattle.std.specs.Prelude.{◌≡◌, length, All, IfOk, IsTrue, Err, Some};
ghost use Rattle.std.specs.List.{AllByRecursion, list_any};
ghost use Rattle.symbols.specs.Table.{IsFront};
ghost use Rattle.syntax_tree.specs.Outcome.{IsKnown, bound_in, outcome_of};
ghost use Rattle.syntax_tree.specs.Tree.{is_term};
ghost use Rattle.syntax_tree.specs.Value.{value_of};
ghost use Rattle.program_meaning.specs.Theory.{is_over};
ghost use Rattle.collected_elements.specs.inner.Places.{IsRestOf, IsWithPlace, IsKnownRest};

use crate::judged::ElementStop;
use std::alloc::Global;
use symbols::{Listed, SymbolId, SymbolTable};
use syntax_tree::{Binding, Term, Value, evaluate};

// The further places of an element, if none is undefined.
pub(crate) fn judge_rest(
    alloc: Global,
    rest: &[Term],
    binding: &Binding,
    symbols: &mut SymbolTable,
) -> Result<Option<Listed<SymbolId>>, ElementStop>
    requires rest { AllByRecursion (λ term. IsTrue (is_term term)) rest.now }
    requires binding { All (IsKnown (length symbols.old)) binding.now.values }
    ensures rest { IfOk result (IsRestOf symbols.new (bound_in symbols.old binding.now.values) rest.now) }
    ensures known { IfOk result (IsKnownRest (length symbols.new)) }
    ensures over { result ≡ Err ElementStop.Over → IsTrue (list_any (λ term. is_over (value_of (bound_in symbols.old binding.now.values) term)) rest.now) }
    ensures kept { IsFront symbols.old symbols.new }
{
    let mut found = Some(Listed::new(alloc));
    for place in 0..rest.len() {
        match evaluate(alloc, &rest[place], binding, symbols) {
            Err(_) => return Err(ElementStop::Memory),
            Ok(value) => match with_place(found, value) {
                Err(stop) => return Err(stop),
                Ok(more) => found = more,
            },
        }
    }
    Ok(found)
}

// The places so far with one more.
fn with_place(
    found: Option<Listed<SymbolId>>,
    value: Option<Value>,
) -> Result<Option<Listed<SymbolId>>, ElementStop>
    ensures more { IfOk result (IsWithPlace found value) }
    ensures over { result ≡ Err ElementStop.Over → value ≡ Some Value.Over }
{
    match value {
        None => Ok(None),
        Some(value) => with_value(found, value),
    }
}

fn with_value(
    found: Option<Listed<SymbolId>>,
    value: Value,
) -> Result<Option<Listed<SymbolId>>, ElementStop>
    ensures more { IfOk result (IsWithPlace found (Some value)) }
    ensures over { result ≡ Err ElementStop.Over → value ≡ Value.Over }
{
    match value {
        Value::Over => Err(ElementStop::Over),
        Value::Symbol(id) => with_symbol(found, id),
    }
}

fn with_symbol(
    found: Option<Listed<SymbolId>>,
    id: SymbolId,
) -> Result<Option<Listed<SymbolId>>, ElementStop>
    ensures more { IfOk result (IsWithPlace found (Some (Value.Symbol id))) }
    ensures over { result ≡ Err ElementStop.Over → ⊥ }
{
    match found {
        None => Ok(None),
        Some(mut ids) => match ids.push(id) {
            Ok(()) => Ok(Some(ids)),
            Err(_) => Err(ElementStop::Memory),
        },
    }
}
