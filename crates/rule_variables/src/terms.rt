// Which variables occur in terms.
ghost use Rattle.std.specs.Prelude.{◌≡◌, map};
ghost use Rattle.std.specs.List.{list_any};
ghost use Rattle.program_meaning.specs.Variables as spec;
ghost use Rattle.rule_variables.specs.inner.Occurring.{occurs_in_part};

use syntax_tree::{Guard, Part, Term};

/// Whether the variable occurs in the term.
#[cycle(occurring)]
pub fn occurs(number: u32, term: &Term) -> bool
    ensures { result ≡ spec.occurs number term.now }
{
    match term {
        Term::Number(_) => false,
        Term::Text(_) => false,
        Term::Variable(other) => *other == number,
        Term::Anonymous => false,
        Term::Function(_, args) => occurs_in_arguments(number, args.as_slice()),
        Term::Tuple(args) => occurs_in_arguments(number, args.as_slice()),
        Term::Sum(parts) => occurs_in_parts(number, parts.as_slice()),
        Term::Product(parts) => occurs_in_parts(number, parts.as_slice()),
        Term::Minus(inner) => occurs(number, inner.get()),
        Term::Interval(left, right) => occurs(number, left.get()) || occurs(number, right.get()),
    }
}

#[cycle(occurring)]
fn occurs_in_arguments(number: u32, args: &[Term]) -> bool
    ensures { result ≡ spec.any_true (map (spec.occurs number) args.now) }
{
    for arg in args {
        if occurs(number, arg) {
            return true;
        }
    }
    false
}

#[cycle(occurring)]
fn occurs_in_parts(number: u32, parts: &[Part]) -> bool
    ensures { result ≡ spec.any_true (map (occurs_in_part number) parts.now) }
{
    for part in parts {
        if has(number, part) {
            return true;
        }
    }
    false
}

#[cycle(occurring)]
fn has(number: u32, part: &Part) -> bool
    ensures { result ≡ occurs_in_part number part.now }
{
    occurs(number, &part.term)
}

// Whether it occurs in one of the terms.
pub(crate) fn occurs_in_some(number: u32, terms: &[Term]) -> bool
    ensures { result ≡ list_any (spec.occurs number) terms.now }
{
    for one in terms {
        if occurs(number, one) {
            return true;
        }
    }
    false
}

// Whether there is a term in which it occurs.
pub(crate) fn occurs_in_option(number: u32, term: &Option<Term>) -> bool
    ensures { result ≡ spec.occurs_in_option number term.now }
{
    match term {
        Some(one) => occurs(number, one),
        None => false,
    }
}

// Whether there is a guard in which it occurs.
pub(crate) fn occurs_in_guard(number: u32, guard: &Option<Guard>) -> bool
    ensures { result ≡ spec.occurs_in_guard number guard.now }
{
    match guard {
        Some(one) => occurs(number, &one.right),
        None => false,
    }
}

/// Whether the variable occurs in the term outside every arithmetic operation.
#[cycle(outside)]
pub fn occurs_outside(number: u32, term: &Term) -> bool
    ensures { result ≡ spec.occurs_outside number term.now }
{
    match term {
        Term::Number(_) => false,
        Term::Text(_) => false,
        Term::Variable(other) => *other == number,
        Term::Anonymous => false,
        Term::Function(_, args) => occurs_outside_in_arguments(number, args.as_slice()),
        Term::Tuple(args) => occurs_outside_in_arguments(number, args.as_slice()),
        Term::Sum(_) => false,
        Term::Product(_) => false,
        Term::Minus(_) => false,
        Term::Interval(_, _) => false,
    }
}

#[cycle(outside)]
fn occurs_outside_in_arguments(number: u32, args: &[Term]) -> bool
    ensures { result ≡ spec.any_true (map (spec.occurs_outside number) args.now) }
{
    for arg in args {
        if occurs_outside(number, arg) {
            return true;
        }
    }
    false
}

/// The number of the variable that the term is, if it is one.
pub fn plain_variable(term: &Term) -> Option<u32>
    ensures { result ≡ spec.plain_variable term.now }
{
    match term {
        Term::Number(_) => None,
        Term::Text(_) => None,
        Term::Variable(number) => Some(*number),
        Term::Anonymous => None,
        Term::Function(_, _) => None,
        Term::Tuple(_) => None,
        Term::Sum(_) => None,
        Term::Product(_) => None,
        Term::Minus(_) => None,
        Term::Interval(_, _) => None,
    }
}
