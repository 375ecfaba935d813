// What a term is worth.
ghost use Rattle.std.specs.Prelude.{◌≡◌, ◌<◌, length, IfOk, IsTrue, All};
ghost use Rattle.symbols.specs.Table.{IsFront, IsOnce};
ghost use Rattle.syntax_tree.specs.Tree.{is_term};
ghost use Rattle.syntax_tree.specs.Outcome.{IsKnown, bound_in, outcome_of};
ghost use Rattle.syntax_tree.specs.inner.Worth.{IsHeld, outcome};
ghost use Rattle.syntax_tree.specs.Value.{value_of as value, plain};

use crate::amount::Amount;
use crate::binding::{Binding, Value};
use crate::term::Term;
use crate::worth::{Worth, value_of};
use std::alloc::Global;
use symbols::{Memory, SymbolTable};

/// The value of a term whose variables have these values, or `None` where it is undefined.
///
/// A variable that is not bound, `_` and an interval have no value, so a term with one of them is
/// undefined. The work is linear in the term but for the table's; only functions, tuples, identifiers,
/// strings and the result itself are kept in the table. The recursion is as deep as the term nests.
pub fn evaluate(
    alloc: Global,
    term: &Term,
    binding: &Binding,
    symbols: &mut SymbolTable,
) -> Result<Option<Value>, Memory>
    requires term { IsTrue (is_term term.now) }
    requires binding { All (IsKnown (length symbols.old)) binding.now.values }
    ensures value { IfOk result (λ found. outcome_of symbols.new found ≡ value (bound_in symbols.old binding.now.values) term.now) }
    ensures known { IfOk result (IsKnown (length symbols.new)) }
    ensures kept { IsFront symbols.old symbols.new }
    ensures once { IsOnce symbols.old → IsOnce symbols.new }
{
    match value_of(alloc, term, binding, symbols) {
        Ok(worth) => answered(worth, symbols),
        Err(stop) => Err(stop),
    }
}

// A value as it is answered, a number by its id.
fn answered(worth: Worth, symbols: &mut SymbolTable) -> Result<Option<Value>, Memory>
    requires { IsHeld (length symbols.old) worth }
    ensures value { IfOk result (λ found. outcome_of symbols.new found ≡ outcome symbols.old worth) }
    ensures known { IfOk result (IsKnown (length symbols.new)) }
    ensures kept { IsFront symbols.old symbols.new }
    ensures once { IsOnce symbols.old → IsOnce symbols.new }
{
    match worth {
        Worth::Symbol(id) => Ok(Some(Value::Symbol(id))),
        Worth::Plain(amount) => settled(amount, symbols),
    }
}

// What arithmetic gives, a number by its id.
fn settled(amount: Amount, symbols: &mut SymbolTable) -> Result<Option<Value>, Memory>
    ensures value { IfOk result (λ found. outcome_of symbols.new found ≡ plain amount) }
    ensures known { IfOk result (IsKnown (length symbols.new)) }
    ensures kept { IsFront symbols.old symbols.new }
    ensures once { IsOnce symbols.old → IsOnce symbols.new }
{
    match amount {
        Amount::Number(n) => match symbols.number(n) {
            Ok(id) => Ok(Some(Value::Symbol(id))),
            Err(stop) => Err(stop),
        },
        Amount::Over => Ok(Some(Value::Over)),
        Amount::Undefined => Ok(None),
    }
}
