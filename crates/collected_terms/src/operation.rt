// Operations on linear forms.
ghost use Rattle.std.specs.Prelude.{◌≡◌, ◌||◌, ◌&&◌, not, false, true, List, IfOk};
ghost use Rattle.symbols.specs.Symbol.{Symbol};
ghost use Rattle.program_meaning.specs.Collected.{Collected, operation_collected, form_joined, minus_collected, holds_variable, is_small_form};
ghost use Rattle.program_meaning.specs.Said.{linear_in};
ghost use Rattle.syntax_tree.specs.Arithmetic as spec;
ghost use Rattle.syntax_tree.specs.declared.term.Op.TheVariants as o;
ghost use Rattle.collected_terms.specs.Found.{IsFormBy, IsFormOf, IsKnownForm, IsKnownLinear, IsTermOf};
ghost use Rattle.collected_terms.specs.inner.Merging.{is_crooked_by, is_crooked_with, holds_with};

use crate::collected_term::{CollectedTerm, LinearForm};
use crate::forms::{holds, plus, quotient, remainder, times, turned};
use program_meaning::SymbolLinear;
use std::alloc::Global;
use symbols::{Memory, SymbolTable};
use syntax_tree::Op;

// One of two truths holds.
pub(crate) fn either(a: bool, b: bool) -> bool
    ensures { result ≡ (a || b) }
{
    a || b
}

// Whether an operation has no form: whether each side holds a variable, and whether the second is 0.
fn is_crooked(op: Op, first: bool, second: bool, zero: bool) -> bool
    ensures { result ≡ is_crooked_with op first second zero }
{
    match op {
        Op::Plus => false,
        Op::Minus => false,
        Op::Times => first && second,
        Op::Divide => first || second || zero,
        Op::Remainder => first || second || zero,
    }
}

// Whether the form of an operation holds a variable.
fn holds_result(op: Op, first: bool, second: bool) -> bool
    ensures { result ≡ holds_with op first second }
{
    match op {
        Op::Plus => first || second,
        Op::Minus => first || second,
        Op::Times => first || second,
        Op::Divide => false,
        Op::Remainder => false,
    }
}

fn is_zero(n: i64) -> bool
    ensures { result ≡ spec.is_zero n }
{
    n == 0
}

// Two forms of which one is too large: whether each holds a variable, and whether the second is 0.
fn large_result(op: Op, first: bool, second: bool, zero: bool) -> LinearForm
    ensures found { (symbols : List Symbol) (a b : Collected) → a.not_linear ≡ false → b.not_linear ≡ false → (a.large || b.large) ≡ true → first ≡ holds_variable a.form → second ≡ holds_variable b.form → zero ≡ (not b.large && spec.is_zero b.form.constant) → IsFormOf symbols result (operation_collected op a b) }
    ensures known { (symbols : List Symbol) → IsKnownForm symbols result }
{
    if is_crooked(op, first, second, zero) {
        return LinearForm::NotLinear;
    }
    LinearForm::Large(holds_result(op, first, second))
}

// An operation on two small forms.
fn small_result(
    alloc: Global,
    op: Op,
    a: &SymbolLinear,
    b: &SymbolLinear,
    symbols: &SymbolTable,
) -> Result<LinearForm, Memory>
    requires a { IsKnownLinear symbols.now a.now }
    requires b { IsKnownLinear symbols.now b.now }
    ensures found { IfOk result (λ found. IsFormBy symbols.now found (is_crooked_by op (linear_in symbols.now a.now) (linear_in symbols.now b.now)) (not (is_small_form (form_joined op (linear_in symbols.now a.now) (linear_in symbols.now b.now)))) (form_joined op (linear_in symbols.now a.now) (linear_in symbols.now b.now))) }
    ensures known { IfOk result (IsKnownForm symbols.now) }
{
    match op {
        Op::Plus => plus(alloc, a, b, symbols),
        Op::Minus => minus(alloc, a, b, symbols),
        Op::Times => times(alloc, a, b, symbols),
        Op::Divide => Ok(quotient(alloc, a, b, symbols)),
        Op::Remainder => Ok(remainder(alloc, a, b, symbols)),
    }
}

// The difference of two small forms.
fn minus(
    alloc: Global,
    a: &SymbolLinear,
    b: &SymbolLinear,
    symbols: &SymbolTable,
) -> Result<LinearForm, Memory>
    requires a { IsKnownLinear symbols.now a.now }
    requires b { IsKnownLinear symbols.now b.now }
    ensures found { IfOk result (λ found. IsFormBy symbols.now found false (not (is_small_form (form_joined o.Minus (linear_in symbols.now a.now) (linear_in symbols.now b.now)))) (form_joined o.Minus (linear_in symbols.now a.now) (linear_in symbols.now b.now))) }
    ensures known { IfOk result (IsKnownForm symbols.now) }
{
    match turned(alloc, b, symbols) {
        Err(memory) => Err(memory),
        Ok(turned) => plus(alloc, a, &turned, symbols),
    }
}

// A small form and another one.
fn with_small(
    alloc: Global,
    op: Op,
    a: &SymbolLinear,
    b: &LinearForm,
    symbols: &SymbolTable,
) -> Result<LinearForm, Memory>
    requires a { IsKnownLinear symbols.now a.now }
    requires b { IsKnownForm symbols.now b.now }
    ensures found { IfOk result (λ found. (x y : Collected) → x.not_linear ≡ false → x.large ≡ false → linear_in symbols.now a.now ≡ x.form → IsFormOf symbols.now b.now y → IsFormOf symbols.now found (operation_collected op x y)) }
    ensures known { IfOk result (IsKnownForm symbols.now) }
{
    match b {
        LinearForm::NotLinear => Ok(LinearForm::NotLinear),
        LinearForm::Large(variable) => Ok(large_result(op, holds(a), *variable, false)),
        LinearForm::Small(b) => small_result(alloc, op, a, b, symbols),
    }
}

// A form that is too large and another one.
fn with_large(op: Op, first: bool, b: &LinearForm) -> LinearForm
    ensures found { (symbols : List Symbol) (x y : Collected) → x.not_linear ≡ false → x.large ≡ true → first ≡ holds_variable x.form → IsFormOf symbols b.now y → IsFormOf symbols result (operation_collected op x y) }
    ensures known { (symbols : List Symbol) → IsKnownForm symbols result }
{
    match b {
        LinearForm::NotLinear => LinearForm::NotLinear,
        LinearForm::Large(variable) => large_result(op, first, *variable, false),
        LinearForm::Small(b) => large_result(op, first, holds(b), is_zero(b.constant)),
    }
}

// An operation on two forms.
fn joined_forms(
    alloc: Global,
    op: Op,
    a: &LinearForm,
    b: &LinearForm,
    symbols: &SymbolTable,
) -> Result<LinearForm, Memory>
    requires a { IsKnownForm symbols.now a.now }
    requires b { IsKnownForm symbols.now b.now }
    ensures found { IfOk result (λ found. (x y : Collected) → IsFormOf symbols.now a.now x → IsFormOf symbols.now b.now y → IsFormOf symbols.now found (operation_collected op x y)) }
    ensures known { IfOk result (IsKnownForm symbols.now) }
{
    match a {
        LinearForm::NotLinear => Ok(LinearForm::NotLinear),
        LinearForm::Large(variable) => Ok(with_large(op, *variable, b)),
        LinearForm::Small(a) => with_small(alloc, op, a, b, symbols),
    }
}

// An operation on two terms.
pub(crate) fn joined(
    alloc: Global,
    op: Op,
    a: &CollectedTerm,
    b: &CollectedTerm,
    symbols: &SymbolTable,
) -> Result<CollectedTerm, Memory>
    requires a { IsKnownForm symbols.now a.now.form }
    requires b { IsKnownForm symbols.now b.now.form }
    ensures found { IfOk result (λ found. (x y : Collected) → IsTermOf symbols.now a.now x → IsTermOf symbols.now b.now y → IsTermOf symbols.now found (operation_collected op x y)) }
    ensures known { IfOk result (λ found. IsKnownForm symbols.now found.form) }
{
    match joined_forms(alloc, op, &a.form, &b.form, symbols) {
        Err(memory) => Err(memory),
        Ok(form) => Ok(CollectedTerm {
            undefined: either(a.undefined, b.undefined),
            over: either(a.over, b.over),
            form,
        }),
    }
}

// A form with the other sign.
fn turned_form(alloc: Global, a: &LinearForm, symbols: &SymbolTable) -> Result<LinearForm, Memory>
    requires { IsKnownForm symbols.now a.now }
    ensures found { IfOk result (λ found. (x : Collected) → IsFormOf symbols.now a.now x → IsFormOf symbols.now found (minus_collected x)) }
    ensures known { IfOk result (IsKnownForm symbols.now) }
{
    match a {
        LinearForm::NotLinear => Ok(LinearForm::NotLinear),
        LinearForm::Large(variable) => Ok(LinearForm::Large(*variable)),
        LinearForm::Small(a) => match turned(alloc, a, symbols) {
            Err(memory) => Err(memory),
            Ok(form) => Ok(LinearForm::Small(form)),
        },
    }
}

// A term with the other sign.
pub(crate) fn turned_term(
    alloc: Global,
    a: &CollectedTerm,
    symbols: &SymbolTable,
) -> Result<CollectedTerm, Memory>
    requires { IsKnownForm symbols.now a.now.form }
    ensures found { IfOk result (λ found. (x : Collected) → IsTermOf symbols.now a.now x → IsTermOf symbols.now found (minus_collected x)) }
    ensures known { IfOk result (λ found. IsKnownForm symbols.now found.form) }
{
    match turned_form(alloc, &a.form, symbols) {
        Err(memory) => Err(memory),
        Ok(form) => Ok(CollectedTerm {
            undefined: a.undefined,
            over: a.over,
            form,
        }),
    }
}
