// The bounds on the count of a choice.
ghost use Rattle.std.specs.Prelude.{◌≡◌, length, true, false, All, IfOk, IsTrue};
ghost use Rattle.symbols.specs.Table.{IsFront};
ghost use Rattle.syntax_tree.specs.Literals.{is_none_or, is_guard};
ghost use Rattle.syntax_tree.specs.Outcome.{IsKnown, bound_in};
ghost use Rattle.program_meaning.specs.Instance.{bound_stands};
ghost use Rattle.program_meaning.specs.Ground.{BoundAs, turned as turned_round};
ghost use Rattle.program_meaning.specs.Outside.{bound_over};

use crate::atom::number_of;
use ground_model::Bound;
use std::alloc::Global;
use symbols::{Memory, Rel, SymbolTable};
use syntax_tree::{Binding, Guard};

// The left bound, turned round.
pub(crate) fn left_bound(
    alloc: Global,
    guard: &Option<Guard>,
    binding: &Binding,
    symbols: &mut SymbolTable,
) -> Result<Option<Bound>, Memory>
    requires tree { IsTrue (is_none_or is_guard guard.now) }
    requires binding { All (IsKnown (length symbols.old)) binding.now.values }
    requires stands { bound_stands (bound_in symbols.old binding.now.values) guard.now ≡ true }
    requires inside { bound_over (bound_in symbols.old binding.now.values) guard.now ≡ false }
    ensures bound { IfOk result (BoundAs turned_round (bound_in symbols.old binding.now.values) guard.now) }
    ensures kept { IsFront symbols.old symbols.new }
{
    match guard {
        None => Ok(None),
        Some(one) => match number_of(alloc, &one.right, binding, symbols) {
            Ok(value) => Ok(Some(Bound {
                rel: turned(one.rel),
                value,
            })),
            Err(memory) => Err(memory),
        },
    }
}

// The right bound.
pub(crate) fn right_bound(
    alloc: Global,
    guard: &Option<Guard>,
    binding: &Binding,
    symbols: &mut SymbolTable,
) -> Result<Option<Bound>, Memory>
    requires tree { IsTrue (is_none_or is_guard guard.now) }
    requires binding { All (IsKnown (length symbols.old)) binding.now.values }
    requires stands { bound_stands (bound_in symbols.old binding.now.values) guard.now ≡ true }
    requires inside { bound_over (bound_in symbols.old binding.now.values) guard.now ≡ false }
    ensures bound { IfOk result (BoundAs (λ rel. rel) (bound_in symbols.old binding.now.values) guard.now) }
    ensures kept { IsFront symbols.old symbols.new }
{
    match guard {
        None => Ok(None),
        Some(one) => match number_of(alloc, &one.right, binding, symbols) {
            Ok(value) => Ok(Some(Bound {
                rel: one.rel,
                value,
            })),
            Err(memory) => Err(memory),
        },
    }
}

// A relation read from its other side.
fn turned(rel: Rel) -> Rel
    ensures { result ≡ turned_round rel }
{
    match rel {
        Rel::Equal => Rel::Equal,
        Rel::NotEqual => Rel::NotEqual,
        Rel::Less => Rel::Greater,
        Rel::LessEqual => Rel::GreaterEqual,
        Rel::Greater => Rel::Less,
        Rel::GreaterEqual => Rel::LessEqual,
    }
}
