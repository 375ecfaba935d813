// Linear terms of theory atoms.
ghost use Rattle.std.specs.Prelude.{◌≡◌, ◌||◌, Bool, List, length, map, All, IfOk, IsTrue, Err};
ghost use Rattle.symbols.specs.Symbol.{Symbol};
ghost use Rattle.symbols.specs.Table.{IsFront};
ghost use Rattle.syntax_tree.specs.Outcome.{IsKnown, bound_in};
ghost use Rattle.syntax_tree.specs.Tree.{is_term};
ghost use Rattle.program_meaning.specs.Collected.{Collected, collected};
ghost use Rattle.program_meaning.specs.Said.{pair_in, linear_in};
ghost use Rattle.program_meaning.specs.Theory as spec;
ghost use Rattle.collected_terms.specs.Found.{IsTermOf, IsKnownForm};
ghost use Rattle.collected_elements.specs.Judged.{IsJudgedBy, IsKnownTerm};
ghost use Rattle.collected_elements.specs.inner.Places.{is_one_pair};

use crate::judged::{ElementStop, JudgedTerm};
use collected_terms::{CollectedTerm, LinearForm, collect_term};
use program_meaning::SymbolLinear;
use std::alloc::Global;
use symbols::{SymbolId, SymbolTable};
use syntax_tree::{Binding, Term};

// A linear term.
pub(crate) fn judge_term(
    alloc: Global,
    term: &Term,
    binding: &Binding,
    symbols: &mut SymbolTable,
) -> Result<JudgedTerm, ElementStop>
    requires term { IsTrue (is_term term.now) }
    requires binding { All (IsKnown (length symbols.old)) binding.now.values }
    ensures judged { IfOk result (λ judged. IsJudgedBy symbols.new judged (collected (bound_in symbols.old binding.now.values) term.now) (collected (bound_in symbols.old binding.now.values) term.now).not_linear) }
    ensures known { IfOk result (IsKnownTerm symbols.new) }
    ensures over { result ≡ Err ElementStop.Over → IsTrue (collected (bound_in symbols.old binding.now.values) term.now).over }
    ensures kept { IsFront symbols.old symbols.new }
{
    match collect_term(alloc, term, binding, symbols) {
        Ok(found) => by_form(found),
        Err(_) => Err(ElementStop::Memory),
    }
}

fn by_form(found: CollectedTerm) -> Result<JudgedTerm, ElementStop>
    ensures judged { (symbols : List Symbol) (term : Collected) → IsTermOf symbols found term → IfOk result (λ judged. IsJudgedBy symbols judged term term.not_linear) }
    ensures known { (symbols : List Symbol) → IsKnownForm symbols found.form → IfOk result (IsKnownTerm symbols) }
    ensures over { result ≡ Err ElementStop.Over → IsTrue found.over }
{
    if found.over {
        return Err(ElementStop::Over);
    }
    match found.form {
        LinearForm::NotLinear => Ok(JudgedTerm::NotLinear),
        LinearForm::Large(_) => Ok(JudgedTerm::Large),
        LinearForm::Small(linear) => Ok(JudgedTerm::Form(linear)),
    }
}

// A term that is to be one variable.
pub(crate) fn only_variable(judged: JudgedTerm) -> JudgedTerm
    ensures judged { (symbols : List Symbol) (term : Collected) → IsJudgedBy symbols judged term term.not_linear → IsJudgedBy symbols result term (term.not_linear || spec.is_no_variable term) }
    ensures known { (symbols : List Symbol) → IsKnownTerm symbols judged → IsKnownTerm symbols result }
{
    match judged {
        JudgedTerm::NotLinear => JudgedTerm::NotLinear,
        JudgedTerm::Large => JudgedTerm::Large,
        JudgedTerm::Form(linear) => form_of_variable(linear),
    }
}

fn form_of_variable(linear: SymbolLinear) -> JudgedTerm
    ensures judged { (symbols : List Symbol) (term : Collected) → spec.HasForm term (linear_in symbols linear) → IsJudgedBy symbols result term (term.not_linear || spec.is_no_variable term) }
    ensures known { (symbols : List Symbol) → IsKnownTerm symbols (JudgedTerm.Form linear) → IsKnownTerm symbols result }
{
    if is_one_variable(&linear) {
        JudgedTerm::Form(linear)
    } else {
        JudgedTerm::NotLinear
    }
}

// Whether a form is one variable with coefficient 1.
pub(crate) fn is_one_variable(linear: &SymbolLinear) -> bool
    ensures { (symbols : List Symbol) → result ≡ spec.is_one_variable (linear_in symbols linear.now) }
{
    is_one(linear.pairs.items()) && linear.constant == 0
}

fn is_one(pairs: &[(SymbolId, i64)]) -> bool
    ensures { (symbols : List Symbol) → result ≡ is_one_pair (map (pair_in symbols) pairs.now) }
{
    pairs.len() == 1 && pairs[0].1 == 1
}
