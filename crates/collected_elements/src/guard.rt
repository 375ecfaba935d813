// Guards of theory atoms.
ghost use Rattle.std.specs.Prelude.{◌≡◌, List, length, All, IfOk, IsTrue, Err, Some};
ghost use Rattle.symbols.specs.Symbol.{Symbol};
ghost use Rattle.symbols.specs.Table.{IsFront};
ghost use Rattle.syntax_tree.specs.Outcome.{Outcome, IsKnown, bound_in};
ghost use Rattle.syntax_tree.specs.Tree.{is_term};
ghost use Rattle.program_meaning.specs.Collected.{collected};
ghost use Rattle.program_meaning.specs.Theory.{guard_over, guard_not_linear};
ghost use Rattle.collected_elements.specs.Judged.{IsJudgedBy, IsKnownTerm};

use crate::judged::{ElementStop, JudgedTerm};
use crate::term::{judge_term, only_variable};
use std::alloc::Global;
use symbols::SymbolTable;
use syntax_tree::{Binding, Guard, TheoryName};

/// What the right side of a guard comes to; that of `&dom` is to be one variable.
///
/// Names with arguments and identifiers are kept in the table. A guard that holds something undefined is taken for the
/// number 0.
pub fn judge_guard(
    alloc: Global,
    name: TheoryName,
    guard: &Guard,
    binding: &Binding,
    symbols: &mut SymbolTable,
) -> Result<JudgedTerm, ElementStop>
    requires guard { IsTrue (is_term guard.now.right) }
    requires binding { All (IsKnown (length symbols.old)) binding.now.values }
    ensures judged { IfOk result (λ judged. IsJudgedBy symbols.new judged (collected (bound_in symbols.old binding.now.values) guard.now.right) (guard_not_linear name (bound_in symbols.old binding.now.values) (Some guard.now))) }
    ensures known { IfOk result (IsKnownTerm symbols.new) }
    ensures over { result ≡ Err ElementStop.Over → IsTrue (guard_over (bound_in symbols.old binding.now.values) (Some guard.now)) }
    ensures kept { IsFront symbols.old symbols.new }
{
    match judge_term(alloc, &guard.right, binding, symbols) {
        Err(stop) => Err(stop),
        Ok(judged) => Ok(as_guard(name, judged)),
    }
}

fn as_guard(name: TheoryName, judged: JudgedTerm) -> JudgedTerm
    ensures judged { (symbols : List Symbol) (bound : List Outcome) (guard : Guard) → IsJudgedBy symbols judged (collected bound guard.right) (collected bound guard.right).not_linear → IsJudgedBy symbols result (collected bound guard.right) (guard_not_linear name bound (Some guard)) }
    ensures known { (symbols : List Symbol) → IsKnownTerm symbols judged → IsKnownTerm symbols result }
{
    match name {
        TheoryName::Dom => only_variable(judged),
        TheoryName::Sum => judged,
        TheoryName::Diff => judged,
        TheoryName::Distinct => judged,
        TheoryName::Disjoint => judged,
        TheoryName::Minimize => judged,
        TheoryName::Maximize => judged,
        TheoryName::Show => judged,
        TheoryName::Unknown => judged,
    }
}
