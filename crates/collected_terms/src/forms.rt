// Operations on linear forms with small numbers.
ghost use Rattle.std.specs.Prelude.{◌≡◌, ◌||◌, not, false, negsuc, List, IfOk, IsTrue};
ghost use Rattle.symbols.specs.Symbol.{Symbol};
ghost use Rattle.ground_model.specs.Sound.{is_small as is_small_number};
ghost use Rattle.program_meaning.specs.Collected.{added, scaled as scaled_form, constant_form, form_joined, holds_variable, is_small_form};
ghost use Rattle.program_meaning.specs.Said.{linear_in};
ghost use Rattle.syntax_tree.specs.declared.term.Op.TheVariants as o;
ghost use Rattle.collected_terms.specs.Found.{IsFormBy, IsKnownForm, IsKnownLinear};
ghost use Rattle.collected_terms.specs.inner.Merging.{is_crooked_by};

use crate::collected_term::LinearForm;
use crate::numbers::{product, quotient as quotient_of, remainder as remainder_of, small, sum};
use crate::sums::{merged, multiplied, negated};
use program_meaning::SymbolLinear;
use std::alloc::Global;
use symbols::{Listed, Memory, SymbolTable};

// Whether a form holds a variable.
pub(crate) fn holds(a: &SymbolLinear) -> bool
    ensures { (symbols : List Symbol) → result ≡ holds_variable (linear_in symbols a.now) }
{
    !a.pairs.is_empty()
}

// Whether one of two forms does.
fn one_holds(a: &SymbolLinear, b: &SymbolLinear) -> bool
    ensures { (symbols : List Symbol) → result ≡ (holds_variable (linear_in symbols a.now) || holds_variable (linear_in symbols b.now)) }
{
    holds(a) || holds(b)
}

// Whether two forms have no quotient: one holds a variable, or the second is 0.
fn is_crooked(a: &SymbolLinear, b: &SymbolLinear) -> bool
    ensures { (symbols : List Symbol) → result ≡ is_crooked_by o.Divide (linear_in symbols a.now) (linear_in symbols b.now) }
{
    one_holds(a, b) || b.constant == 0
}

// The sum.
pub(crate) fn plus(
    alloc: Global,
    a: &SymbolLinear,
    b: &SymbolLinear,
    symbols: &SymbolTable,
) -> Result<LinearForm, Memory>
    requires a { IsKnownLinear symbols.now a.now }
    requires b { IsKnownLinear symbols.now b.now }
    ensures found { IfOk result (λ found. IsFormBy symbols.now found false (not (is_small_form (added (linear_in symbols.now a.now) (linear_in symbols.now b.now)))) (added (linear_in symbols.now a.now) (linear_in symbols.now b.now))) }
    ensures known { IfOk result (IsKnownForm symbols.now) }
{
    match merged(alloc, a.pairs.items(), b.pairs.items(), symbols)? {
        None => Ok(LinearForm::Large(one_holds(a, b))),
        Some(pairs) => match sum(a.constant, b.constant) {
            None => Ok(LinearForm::Large(one_holds(a, b))),
            Some(constant) => Ok(LinearForm::Small(SymbolLinear { pairs, constant })),
        },
    }
}

// So many times a form.
fn scaled(
    alloc: Global,
    by: i64,
    a: &SymbolLinear,
    symbols: &SymbolTable,
) -> Result<LinearForm, Memory>
    requires a { IsKnownLinear symbols.now a.now }
    requires by { IsTrue (is_small_number by) }
    ensures found { IfOk result (λ found. IsFormBy symbols.now found false (not (is_small_form (scaled_form by (linear_in symbols.now a.now)))) (scaled_form by (linear_in symbols.now a.now))) }
    ensures known { IfOk result (IsKnownForm symbols.now) }
{
    match multiplied(alloc, a.pairs.items(), by, symbols)? {
        None => Ok(LinearForm::Large(holds(a))),
        Some(pairs) => match product(by, a.constant) {
            None => Ok(LinearForm::Large(holds(a))),
            Some(constant) => Ok(LinearForm::Small(SymbolLinear { pairs, constant })),
        },
    }
}

// The form with the other sign.
pub(crate) fn turned(
    alloc: Global,
    a: &SymbolLinear,
    symbols: &SymbolTable,
) -> Result<SymbolLinear, Memory>
    requires a { IsKnownLinear symbols.now a.now }
    ensures found { IfOk result (λ found. linear_in symbols.now found ≡ scaled_form (negsuc 0) (linear_in symbols.now a.now)) }
    ensures known { IfOk result (IsKnownLinear symbols.now) }
{
    match negated(alloc, a.pairs.items(), symbols) {
        Err(memory) => Err(memory),
        Ok(pairs) => Ok(SymbolLinear {
            pairs,
            constant: -a.constant,
        }),
    }
}

// The product, of which one side must be a number.
pub(crate) fn times(
    alloc: Global,
    a: &SymbolLinear,
    b: &SymbolLinear,
    symbols: &SymbolTable,
) -> Result<LinearForm, Memory>
    requires a { IsKnownLinear symbols.now a.now }
    requires b { IsKnownLinear symbols.now b.now }
    ensures found { IfOk result (λ found. IsFormBy symbols.now found (is_crooked_by o.Times (linear_in symbols.now a.now) (linear_in symbols.now b.now)) (not (is_small_form (form_joined o.Times (linear_in symbols.now a.now) (linear_in symbols.now b.now)))) (form_joined o.Times (linear_in symbols.now a.now) (linear_in symbols.now b.now))) }
    ensures known { IfOk result (IsKnownForm symbols.now) }
{
    if !holds(a) {
        return scaled(alloc, a.constant, b, symbols);
    }
    if !holds(b) {
        return scaled(alloc, b.constant, a, symbols);
    }
    Ok(LinearForm::NotLinear)
}

// A number as a form.
fn number(alloc: Global, n: i64) -> LinearForm
    ensures found { (symbols : List Symbol) → IsFormBy symbols result false (not (is_small_form (constant_form n))) (constant_form n) }
    ensures known { (symbols : List Symbol) → IsKnownForm symbols result }
{
    match small(i128::from(n)) {
        None => LinearForm::Large(false),
        Some(constant) => LinearForm::Small(SymbolLinear {
            pairs: Listed::new(alloc),
            constant,
        }),
    }
}

// The quotient of two numbers, cut off towards zero.
pub(crate) fn quotient(
    alloc: Global,
    a: &SymbolLinear,
    b: &SymbolLinear,
    symbols: &SymbolTable,
) -> LinearForm
    requires a { IsKnownLinear symbols.now a.now }
    requires b { IsKnownLinear symbols.now b.now }
    ensures found { IsFormBy symbols.now result (is_crooked_by o.Divide (linear_in symbols.now a.now) (linear_in symbols.now b.now)) (not (is_small_form (form_joined o.Divide (linear_in symbols.now a.now) (linear_in symbols.now b.now)))) (form_joined o.Divide (linear_in symbols.now a.now) (linear_in symbols.now b.now)) }
    ensures known { IsKnownForm symbols.now result }
{
    let _ = symbols;
    if is_crooked(a, b) {
        return LinearForm::NotLinear;
    }
    number(alloc, quotient_of(a.constant, b.constant))
}

// The remainder that fits this quotient.
pub(crate) fn remainder(
    alloc: Global,
    a: &SymbolLinear,
    b: &SymbolLinear,
    symbols: &SymbolTable,
) -> LinearForm
    requires a { IsKnownLinear symbols.now a.now }
    requires b { IsKnownLinear symbols.now b.now }
    ensures found { IsFormBy symbols.now result (is_crooked_by o.Remainder (linear_in symbols.now a.now) (linear_in symbols.now b.now)) (not (is_small_form (form_joined o.Remainder (linear_in symbols.now a.now) (linear_in symbols.now b.now)))) (form_joined o.Remainder (linear_in symbols.now a.now) (linear_in symbols.now b.now)) }
    ensures known { IsKnownForm symbols.now result }
{
    let _ = symbols;
    if is_crooked(a, b) {
        return LinearForm::NotLinear;
    }
    number(alloc, remainder_of(a.constant, b.constant))
}
