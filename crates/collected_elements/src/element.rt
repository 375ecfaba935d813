// Elements of theory atoms.
ghost use Rattle.std.specs.Prelude.{◌≡◌, ℕ, List, Option as Maybe, length, All, IfOk, IsTrue, Err};
ghost use Rattle.symbols.specs.Symbol.{Symbol};
ghost use Rattle.symbols.specs.Table.{IsFront};
ghost use Rattle.syntax_tree.specs.Literals.{is_theory_element};
ghost use Rattle.syntax_tree.specs.Outcome.{Outcome, IsKnown, bound_in};
ghost use Rattle.syntax_tree.specs.Tree.{is_term};
ghost use Rattle.syntax_tree.specs.declared.literal.TheoryName.TheVariants as theory_name;
ghost use Rattle.syntax_tree.specs.declared.literal.TheoryName.{TheoryName as Kind};
ghost use Rattle.program_meaning.specs.Collected.{collected};
ghost use Rattle.program_meaning.specs.Read.{ReadElement};
ghost use Rattle.program_meaning.specs.Theory as spec;
ghost use Rattle.instance_plans.specs.Plans.{element_read};
ghost use Rattle.collected_elements.specs.Judged.{IsJudged, IsJudgedBy, IsKnownTerm, IsKnownElement};
ghost use Rattle.collected_elements.specs.inner.Places.{IsDurationOf, IsRestOf, IsSpanOf, IsKnownRest};

use crate::domain::judge_span;
use crate::duration::judge_duration;
use crate::judged::{ElementStop, JudgedElement, JudgedTerm};
use crate::rest::judge_rest;
use crate::sides::judge_difference;
use crate::term::{judge_term, only_variable};
use program_meaning::{CollectedPlace, SymbolLinear};
use std::alloc::Global;
use symbols::{Listed, SymbolId, SymbolTable};
use syntax_tree::{Binding, Term, TheoryElement, TheoryName};

/// What an element of a theory atom comes to, where the variables have these values.
///
/// Names with arguments, identifiers and values are kept in the table. Its condition is not looked at.
pub fn judge_element(
    alloc: Global,
    name: TheoryName,
    element: &TheoryElement,
    binding: &Binding,
    symbols: &mut SymbolTable,
) -> Result<JudgedElement, ElementStop>
    requires element { IsTrue (is_theory_element element.now) }
    requires binding { All (IsKnown (length symbols.old)) binding.now.values }
    ensures judged { IfOk result (IsJudged symbols.new name (bound_in symbols.old binding.now.values) (element_read element.now)) }
    ensures known { IfOk result (IsKnownElement symbols.new) }
    ensures over { result ≡ Err ElementStop.Over → IsTrue (spec.element_over name (bound_in symbols.old binding.now.values) (element_read element.now)) }
    ensures kept { IsFront symbols.old symbols.new }
{
    match name {
        TheoryName::Dom => judge_range(alloc, element, binding, symbols),
        _ => judge_tuple(alloc, name, element, binding, symbols),
    }
}

// An element of `&dom`.
fn judge_range(
    alloc: Global,
    element: &TheoryElement,
    binding: &Binding,
    symbols: &mut SymbolTable,
) -> Result<JudgedElement, ElementStop>
    requires element { IsTrue (is_theory_element element.now) }
    requires binding { All (IsKnown (length symbols.old)) binding.now.values }
    ensures judged { IfOk result (IsJudged symbols.new theory_name.Dom (bound_in symbols.old binding.now.values) (element_read element.now)) }
    ensures known { IfOk result (IsKnownElement symbols.new) }
    ensures over { result ≡ Err ElementStop.Over → IsTrue (spec.element_over theory_name.Dom (bound_in symbols.old binding.now.values) (element_read element.now)) }
    ensures kept { IsFront symbols.old symbols.new }
{
    match judge_duration(alloc, &element.duration, binding, symbols) {
        Err(stop) => Err(stop),
        Ok(duration) => match judge_span(alloc, &element.first, binding, symbols) {
            Err(stop) => Err(stop),
            Ok(span) => match judge_rest(alloc, element.rest.items(), binding, symbols) {
                Err(stop) => Err(stop),
                Ok(rest) => {
                    let_go(rest);
                    Ok(as_range(span, duration))
                }
            },
        },
    }
}

fn let_go(_rest: Option<Listed<SymbolId>>) {}

fn as_range(span: Option<(i32, i32)>, duration: Option<i32>) -> JudgedElement
    ensures judged { (symbols : List Symbol) (bound : List Outcome) (element : ReadElement) (rest : Maybe (List ℕ)) → IsSpanOf bound element.first span → IsDurationOf bound element.duration duration → IsRestOf symbols bound element.rest rest → IsJudged symbols theory_name.Dom bound element result }
    ensures known { (symbols : List Symbol) → IsKnownElement symbols result }
{
    match duration {
        None => JudgedElement::NotLinear,
        Some(_) => match span {
            None => JudgedElement::Nothing,
            Some(range) => JudgedElement::Range(range.0, range.1),
        },
    }
}

// An element of another theory atom.
fn judge_tuple(
    alloc: Global,
    name: TheoryName,
    element: &TheoryElement,
    binding: &Binding,
    symbols: &mut SymbolTable,
) -> Result<JudgedElement, ElementStop>
    requires name { name ≡ theory_name.Dom → ⊥ }
    requires element { IsTrue (is_theory_element element.now) }
    requires binding { All (IsKnown (length symbols.old)) binding.now.values }
    ensures judged { IfOk result (IsJudged symbols.new name (bound_in symbols.old binding.now.values) (element_read element.now)) }
    ensures known { IfOk result (IsKnownElement symbols.new) }
    ensures over { result ≡ Err ElementStop.Over → IsTrue (spec.element_over name (bound_in symbols.old binding.now.values) (element_read element.now)) }
    ensures kept { IsFront symbols.old symbols.new }
{
    match judge_duration(alloc, &element.duration, binding, symbols) {
        Err(stop) => Err(stop),
        Ok(duration) => match judge_first(alloc, name, &element.first, binding, symbols) {
            Err(stop) => Err(stop),
            Ok(first) => match judge_rest(alloc, element.rest.items(), binding, symbols) {
                Err(stop) => Err(stop),
                Ok(rest) => Ok(as_tuple(first, duration, rest)),
            },
        },
    }
}

// The first place.
fn judge_first(
    alloc: Global,
    name: TheoryName,
    term: &Term,
    binding: &Binding,
    symbols: &mut SymbolTable,
) -> Result<JudgedTerm, ElementStop>
    requires name { name ≡ theory_name.Dom → ⊥ }
    requires term { IsTrue (is_term term.now) }
    requires binding { All (IsKnown (length symbols.old)) binding.now.values }
    ensures judged { IfOk result (λ judged. IsJudgedBy symbols.new judged (collected (bound_in symbols.old binding.now.values) term.now) (spec.first_not_linear name (bound_in symbols.old binding.now.values) term.now)) }
    ensures known { IfOk result (IsKnownTerm symbols.new) }
    ensures over { result ≡ Err ElementStop.Over → IsTrue (collected (bound_in symbols.old binding.now.values) term.now).over }
    ensures kept { IsFront symbols.old symbols.new }
{
    match name {
        TheoryName::Show => judge_variable(alloc, term, binding, symbols),
        TheoryName::Diff => judge_difference(alloc, term, binding, symbols),
        _ => judge_term(alloc, term, binding, symbols),
    }
}

// The first place of `&show`.
fn judge_variable(
    alloc: Global,
    term: &Term,
    binding: &Binding,
    symbols: &mut SymbolTable,
) -> Result<JudgedTerm, ElementStop>
    requires term { IsTrue (is_term term.now) }
    requires binding { All (IsKnown (length symbols.old)) binding.now.values }
    ensures judged { IfOk result (λ judged. IsJudgedBy symbols.new judged (collected (bound_in symbols.old binding.now.values) term.now) (spec.first_not_linear theory_name.Show (bound_in symbols.old binding.now.values) term.now)) }
    ensures known { IfOk result (IsKnownTerm symbols.new) }
    ensures over { result ≡ Err ElementStop.Over → IsTrue (collected (bound_in symbols.old binding.now.values) term.now).over }
    ensures kept { IsFront symbols.old symbols.new }
{
    match judge_term(alloc, term, binding, symbols) {
        Err(stop) => Err(stop),
        Ok(judged) => Ok(only_variable(judged)),
    }
}

fn as_tuple(
    first: JudgedTerm,
    duration: Option<i32>,
    rest: Option<Listed<SymbolId>>,
) -> JudgedElement
    ensures judged { (symbols : List Symbol) (kind : Kind) (bound : List Outcome) (element : ReadElement) → (kind ≡ theory_name.Dom → ⊥) → IsJudgedBy symbols first (collected bound element.first) (spec.first_not_linear kind bound element.first) → IsDurationOf bound element.duration duration → IsRestOf symbols bound element.rest rest → IsJudged symbols kind bound element result }
    ensures known { (symbols : List Symbol) → IsKnownTerm symbols first → IsKnownRest (length symbols) rest → IsKnownElement symbols result }
{
    match first {
        JudgedTerm::NotLinear => JudgedElement::NotLinear,
        JudgedTerm::Large => large(duration),
        JudgedTerm::Form(linear) => with_form(linear, duration, rest),
    }
}

fn large(duration: Option<i32>) -> JudgedElement
    ensures judged { (symbols : List Symbol) (kind : Kind) (bound : List Outcome) (element : ReadElement) (rest : Maybe (List ℕ)) → (kind ≡ theory_name.Dom → ⊥) → IsJudgedBy symbols JudgedTerm.Large (collected bound element.first) (spec.first_not_linear kind bound element.first) → IsDurationOf bound element.duration duration → IsRestOf symbols bound element.rest rest → IsJudged symbols kind bound element result }
    ensures known { (symbols : List Symbol) → IsKnownElement symbols result }
{
    match duration {
        None => JudgedElement::NotLinear,
        Some(_) => JudgedElement::Large,
    }
}

fn with_form(
    linear: SymbolLinear,
    duration: Option<i32>,
    rest: Option<Listed<SymbolId>>,
) -> JudgedElement
    ensures judged { (symbols : List Symbol) (kind : Kind) (bound : List Outcome) (element : ReadElement) → (kind ≡ theory_name.Dom → ⊥) → IsJudgedBy symbols (JudgedTerm.Form linear) (collected bound element.first) (spec.first_not_linear kind bound element.first) → IsDurationOf bound element.duration duration → IsRestOf symbols bound element.rest rest → IsJudged symbols kind bound element result }
    ensures known { (symbols : List Symbol) → IsKnownTerm symbols (JudgedTerm.Form linear) → IsKnownRest (length symbols) rest → IsKnownElement symbols result }
{
    match duration {
        None => JudgedElement::NotLinear,
        Some(duration) => match rest {
            None => JudgedElement::Nothing,
            Some(rest) => JudgedElement::Tuple(CollectedPlace {
                linear,
                duration,
                rest,
            }),
        },
    }
}
