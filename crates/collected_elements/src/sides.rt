// The first places of `&diff`.
ghost use Rattle.std.specs.Prelude.{◌≡◌, ◌||◌, ◌&&◌, not, Bool, true, false, List, length, All, IfOk, IsTrue, Err};
ghost use Rattle.symbols.specs.Symbol.{Symbol};
ghost use Rattle.symbols.specs.Table.{IsFront};
ghost use Rattle.syntax_tree.specs.Outcome.{IsKnown, bound_in};
ghost use Rattle.syntax_tree.specs.Tree.{is_term, is_part};
ghost use Rattle.syntax_tree.specs.declared.literal.TheoryName.TheVariants as name;
ghost use Rattle.program_meaning.specs.Collected.{Collected, collected, holds_variable};
ghost use Rattle.program_meaning.specs.Said.{linear_in};
ghost use Rattle.program_meaning.specs.Theory as spec;
ghost use Rattle.collected_terms.specs.Found.{IsTermOf};
ghost use Rattle.collected_elements.specs.Judged.{IsJudgedBy, IsKnownTerm};
ghost use Rattle.collected_elements.specs.inner.Places.{is_bad, has_bad};

use crate::judged::{ElementStop, JudgedTerm};
use crate::term::{is_one_variable, judge_term};
use collected_terms::{CollectedTerm, LinearForm, collect_term};
use program_meaning::SymbolLinear;
use std::alloc::Global;
use symbols::{Memory, SymbolTable};
use syntax_tree::{Binding, Part, Term};

// The first place of an element of `&diff`.
pub(crate) fn judge_difference(
    alloc: Global,
    term: &Term,
    binding: &Binding,
    symbols: &mut SymbolTable,
) -> Result<JudgedTerm, ElementStop>
    requires term { IsTrue (is_term term.now) }
    requires binding { All (IsKnown (length symbols.old)) binding.now.values }
    ensures judged { IfOk result (λ judged. IsJudgedBy symbols.new judged (collected (bound_in symbols.old binding.now.values) term.now) (spec.first_not_linear name.Diff (bound_in symbols.old binding.now.values) term.now)) }
    ensures known { IfOk result (IsKnownTerm symbols.new) }
    ensures over { result ≡ Err ElementStop.Over → IsTrue (collected (bound_in symbols.old binding.now.values) term.now).over }
    ensures kept { IsFront symbols.old symbols.new }
{
    match has_bad_side(alloc, term, binding, symbols) {
        Err(_) => Err(ElementStop::Memory),
        Ok(bad) => match judge_term(alloc, term, binding, symbols) {
            Err(stop) => Err(stop),
            Ok(judged) => Ok(unless_bad(judged, bad)),
        },
    }
}

fn unless_bad(judged: JudgedTerm, bad: bool) -> JudgedTerm
    ensures judged { (symbols : List Symbol) (term : Collected) → IsJudgedBy symbols judged term term.not_linear → IsJudgedBy symbols result term (term.not_linear || bad) }
    ensures known { (symbols : List Symbol) → IsKnownTerm symbols judged → IsKnownTerm symbols result }
{
    if bad {
        return not_linear(judged);
    }
    judged
}

fn not_linear(judged: JudgedTerm) -> JudgedTerm
    ensures judged { (symbols : List Symbol) (term : Collected) → IsJudgedBy symbols judged term term.not_linear → IsJudgedBy symbols result term (term.not_linear || true) }
    ensures known { (symbols : List Symbol) → IsKnownTerm symbols result }
{
    match judged {
        JudgedTerm::NotLinear => JudgedTerm::NotLinear,
        JudgedTerm::Large => JudgedTerm::NotLinear,
        JudgedTerm::Form(_) => JudgedTerm::NotLinear,
    }
}

// Whether a side is something else than one variable or an integer.
fn has_bad_side(
    alloc: Global,
    term: &Term,
    binding: &Binding,
    symbols: &mut SymbolTable,
) -> Result<bool, Memory>
    requires term { IsTrue (is_term term.now) }
    requires binding { All (IsKnown (length symbols.old)) binding.now.values }
    ensures bad { IfOk result (λ bad. ((collected (bound_in symbols.old binding.now.values) term.now).not_linear || bad) ≡ spec.first_not_linear name.Diff (bound_in symbols.old binding.now.values) term.now) }
    ensures kept { IsFront symbols.old symbols.new }
{
    match term {
        Term::Sum(parts) => has_bad_part(alloc, parts.as_slice(), binding, symbols),
        _ => Ok(false),
    }
}

fn has_bad_part(
    alloc: Global,
    parts: &[Part],
    binding: &Binding,
    symbols: &mut SymbolTable,
) -> Result<bool, Memory>
    requires parts { All (λ part. IsTrue (is_part part).1) parts.now }
    requires binding { All (IsKnown (length symbols.old)) binding.now.values }
    ensures bad { IfOk result (λ bad. bad ≡ has_bad (bound_in symbols.old binding.now.values) parts.now) }
    ensures kept { IsFront symbols.old symbols.new }
{
    let mut bad = false;
    for part in parts {
        bad = either(bad, is_bad_part(alloc, &part.term, binding, symbols)?);
    }
    Ok(bad)
}

fn either(one: bool, other: bool) -> bool
    ensures { result ≡ one || other }
{
    one || other
}

fn is_bad_part(
    alloc: Global,
    term: &Term,
    binding: &Binding,
    symbols: &mut SymbolTable,
) -> Result<bool, Memory>
    requires term { IsTrue (is_term term.now) }
    requires binding { All (IsKnown (length symbols.old)) binding.now.values }
    ensures bad { IfOk result (λ bad. bad ≡ is_bad (collected (bound_in symbols.old binding.now.values) term.now)) }
    ensures kept { IsFront symbols.old symbols.new }
{
    match collect_term(alloc, term, binding, symbols) {
        Ok(found) => Ok(is_bad_term(&found)),
        Err(memory) => Err(memory),
    }
}

fn is_bad_term(found: &CollectedTerm) -> bool
    ensures { (symbols : List Symbol) (term : Collected) → IsTermOf symbols found.now term → result ≡ is_bad term }
{
    match &found.form {
        LinearForm::NotLinear => true,
        LinearForm::Large(_) => false,
        LinearForm::Small(linear) => is_bad_form(linear),
    }
}

// Whether a form holds a variable and is not one variable alone.
fn is_bad_form(linear: &SymbolLinear) -> bool
    ensures { (symbols : List Symbol) → result ≡ (holds_variable (linear_in symbols linear.now) && not (spec.is_one_variable (linear_in symbols linear.now))) }
{
    holds(linear) && !is_one_variable(linear)
}

fn holds(linear: &SymbolLinear) -> bool
    ensures { (symbols : List Symbol) → result ≡ holds_variable (linear_in symbols linear.now) }
{
    !linear.pairs.is_empty()
}
