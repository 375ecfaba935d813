// Terms, collected.
ghost use Rattle.std.specs.Prelude.{List, Option, Some, length, map, All, IfOk, IsTrue};
ghost use Rattle.symbols.specs.Symbol.{Symbol};
ghost use Rattle.symbols.specs.Table.{IsFront};
ghost use Rattle.syntax_tree.specs.Outcome.{IsKnown, bound_in};
ghost use Rattle.syntax_tree.specs.Tree.{is_term, is_part};
ghost use Rattle.syntax_tree.specs.Value.{value_of};
ghost use Rattle.program_meaning.specs.Collected as spec;
ghost use Rattle.program_meaning.specs.Collected.{Collected};
ghost use Rattle.collected_terms.specs.Found.{IsTermOf, IsKnownForm};
ghost use Rattle.collected_terms.specs.inner.Merging.{part_collected, IsSoFar, IsKnownSoFar};

use crate::collected_term::{CollectedTerm, LinearForm};
use crate::leaf::{bent, by_value, number, undefined};
use crate::operation::{either, joined, turned_term};
use std::alloc::Global;
use symbols::{Memory, SymbolTable};
use syntax_tree::{Binding, Op, Part, Term, evaluate};

/// A term as it is collected, where the variables have these values.
///
/// Names with arguments, identifiers and values of variables are kept in the table. It takes time linear in
/// the term, and for each part of a sum in the integer variables of those before it. The recursion is as
/// deep as the term nests.
#[cycle(collect)]
pub fn collect_term(
    alloc: Global,
    term: &Term,
    binding: &Binding,
    symbols: &mut SymbolTable,
) -> Result<CollectedTerm, Memory>
    requires term { IsTrue (is_term term.now) }
    requires binding { All (IsKnown (length symbols.old)) binding.now.values }
    ensures found { IfOk result (λ found. IsTermOf symbols.new found (spec.collected (bound_in symbols.old binding.now.values) term.now)) }
    ensures known { IfOk result (λ found. IsKnownForm symbols.new found.form) }
    ensures kept { IsFront symbols.old symbols.new }
{
    match term {
        Term::Number(n) => Ok(number(alloc, *n)),
        Term::Text(_) => Ok(bent()),
        Term::Variable(_) => by_worth(alloc, term, binding, symbols),
        Term::Anonymous => by_worth(alloc, term, binding, symbols),
        Term::Function(_, _) => by_worth(alloc, term, binding, symbols),
        Term::Tuple(_) => by_worth(alloc, term, binding, symbols),
        Term::Sum(parts) => from_left(alloc, parts.as_slice(), binding, symbols),
        Term::Product(parts) => from_left(alloc, parts.as_slice(), binding, symbols),
        Term::Minus(inner) => minus(alloc, inner.get(), binding, symbols),
        Term::Interval(left, right) => match collect_term(alloc, left.get(), binding, symbols) {
            Err(memory) => Err(memory),
            Ok(first) => match collect_term(alloc, right.get(), binding, symbols) {
                Err(memory) => Err(memory),
                Ok(second) => Ok(spanned(&first, &second)),
            },
        },
    }
}

// A term that stands for its value.
fn by_worth(
    alloc: Global,
    term: &Term,
    binding: &Binding,
    symbols: &mut SymbolTable,
) -> Result<CollectedTerm, Memory>
    requires term { IsTrue (is_term term.now) }
    requires binding { All (IsKnown (length symbols.old)) binding.now.values }
    ensures found { IfOk result (λ found. IsTermOf symbols.new found (spec.worth_collected (value_of (bound_in symbols.old binding.now.values) term.now))) }
    ensures known { IfOk result (λ found. IsKnownForm symbols.new found.form) }
    ensures kept { IsFront symbols.old symbols.new }
{
    match evaluate(alloc, term, binding, symbols) {
        Ok(value) => by_value(alloc, value, symbols),
        Err(memory) => Err(memory),
    }
}

// The parts of a sum or a product, from the left.
#[cycle(collect)]
fn from_left(
    alloc: Global,
    parts: &[Part],
    binding: &Binding,
    symbols: &mut SymbolTable,
) -> Result<CollectedTerm, Memory>
    requires parts { All (λ part. IsTrue (is_part part).1) parts.now }
    requires binding { All (IsKnown (length symbols.old)) binding.now.values }
    ensures found { IfOk result (λ found. IsTermOf symbols.new found (spec.parts_collected (map (part_collected (bound_in symbols.old binding.now.values)) parts.now))) }
    ensures known { IfOk result (λ found. IsKnownForm symbols.new found.form) }
    ensures kept { IsFront symbols.old symbols.new }
{
    let mut so_far = None;
    for part in parts {
        so_far = Some(with_part(alloc, so_far, part, binding, symbols)?);
    }
    finished(alloc, so_far)
}

// The parts so far with one more.
#[cycle(collect)]
fn with_part(
    alloc: Global,
    so_far: Option<CollectedTerm>,
    part: &Part,
    binding: &Binding,
    symbols: &mut SymbolTable,
) -> Result<CollectedTerm, Memory>
    requires part { IsTrue (is_part part.now).1 }
    requires binding { All (IsKnown (length symbols.old)) binding.now.values }
    requires so_far { IsKnownSoFar symbols.old so_far }
    ensures found { IfOk result (λ found. (total : Option Collected) → IsSoFar symbols.old so_far total → IsSoFar symbols.new (Some found) (spec.part_joined total (part_collected (bound_in symbols.old binding.now.values) part.now))) }
    ensures known { IfOk result (λ found. IsKnownForm symbols.new found.form) }
    ensures kept { IsFront symbols.old symbols.new }
{
    match collect_term(alloc, &part.term, binding, symbols) {
        Err(memory) => Err(memory),
        Ok(next) => join(alloc, so_far, part.op, next, symbols),
    }
}

// The parts so far, joined with the next term.
fn join(
    alloc: Global,
    so_far: Option<CollectedTerm>,
    op: Op,
    next: CollectedTerm,
    symbols: &SymbolTable,
) -> Result<CollectedTerm, Memory>
    requires so_far { IsKnownSoFar symbols.now so_far }
    requires next { IsKnownForm symbols.now next.form }
    ensures found { IfOk result (λ found. (total : Option Collected) (term : Collected) → IsSoFar symbols.now so_far total → IsTermOf symbols.now next term → IsSoFar symbols.now (Some found) (spec.part_joined total (op, term))) }
    ensures known { IfOk result (λ found. IsKnownForm symbols.now found.form) }
{
    match so_far {
        None => Ok(next),
        Some(total) => joined(alloc, op, &total, &next, symbols),
    }
}

// The parts, where there is one.
fn finished(alloc: Global, so_far: Option<CollectedTerm>) -> Result<CollectedTerm, Memory>
    ensures found { IfOk result (λ found. (symbols : List Symbol) (total : Option Collected) → IsSoFar symbols so_far total → IsTermOf symbols found (spec.some_collected total)) }
    ensures known { IfOk result (λ found. (symbols : List Symbol) → IsKnownSoFar symbols so_far → IsKnownForm symbols found.form) }
{
    match so_far {
        Some(total) => Ok(total),
        None => Ok(undefined(alloc)),
    }
}

// A term with the other sign.
#[cycle(collect)]
fn minus(
    alloc: Global,
    inner: &Term,
    binding: &Binding,
    symbols: &mut SymbolTable,
) -> Result<CollectedTerm, Memory>
    requires inner { IsTrue (is_term inner.now) }
    requires binding { All (IsKnown (length symbols.old)) binding.now.values }
    ensures found { IfOk result (λ found. IsTermOf symbols.new found (spec.minus_collected (spec.collected (bound_in symbols.old binding.now.values) inner.now))) }
    ensures known { IfOk result (λ found. IsKnownForm symbols.new found.form) }
    ensures kept { IsFront symbols.old symbols.new }
{
    match collect_term(alloc, inner, binding, symbols) {
        Err(memory) => Err(memory),
        Ok(inner) => turned_term(alloc, &inner, symbols),
    }
}

// An interval, which has no form.
fn spanned(left: &CollectedTerm, right: &CollectedTerm) -> CollectedTerm
    ensures found { (old new : List Symbol) (x y : Collected) → IsTermOf old left.now x → IsTermOf new right.now y → IsTermOf new result (spec.interval_collected x y) }
    ensures known { (symbols : List Symbol) → IsKnownForm symbols result.form }
{
    CollectedTerm {
        undefined: either(left.undefined, right.undefined),
        over: either(left.over, right.over),
        form: LinearForm::NotLinear,
    }
}
