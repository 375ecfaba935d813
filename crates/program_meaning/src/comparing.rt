// Values in their order, and what comparisons of them come to.
ghost use Rattle.std.specs.Prelude.{◌≡◌, ◌<◌, Bool, List, length, Some};
ghost use Rattle.symbols.specs.declared.rel.Rel.{Rel as Relation};
ghost use Rattle.symbols.specs.Symbol.{Symbol};
ghost use Rattle.symbols.specs.Table.{symbol_at};
ghost use Rattle.syntax_tree.specs.Outcome.{IsKnown, IsSymbol, IsOver, IsUndefined, outcome_of};
ghost use Rattle.program_meaning.specs.Comparison as spec;
ghost use Rattle.program_meaning.specs.Said.{said, value_in};
ghost use Rattle.program_meaning.specs.Substitution.{SymbolValue, OverValue, value_cmp};

use std::cmp::Ordering;
use symbols::{Rel, SymbolId, SymbolTable};
use syntax_tree::Value;

/// What a comparison comes to.
#[derive(Clone, Copy, Debug, PartialEq, Eq)]
pub enum Truth {
    Is(bool),
    /// A side is over, and the comparison does not fail for it.
    Over,
    /// A side is undefined.
    Undefined,
}

/// How a value stands to another: symbols in their order, and over behind them all.
pub fn compare_values(left: Value, right: Value, symbols: &SymbolTable) -> Ordering
    requires left { IsKnown (length symbols.now) (Some left) }
    requires right { IsKnown (length symbols.now) (Some right) }
    ensures { result ≡ value_cmp (value_in symbols.now left) (value_in symbols.now right) }
{
    match left {
        Value::Symbol(a) => compare_symbol(a, right, symbols),
        Value::Over => compare_over(right),
    }
}

// How a symbol stands to a value.
fn compare_symbol(left: SymbolId, right: Value, symbols: &SymbolTable) -> Ordering
    requires left { left < length symbols.now }
    requires right { IsKnown (length symbols.now) (Some right) }
    ensures { result ≡ value_cmp (SymbolValue (symbol_at symbols.now left)) (value_in symbols.now right) }
{
    match right {
        Value::Symbol(b) => symbols.compare(left, b),
        Value::Over => Ordering::Less,
    }
}

// How over stands to a value.
fn compare_over(right: Value) -> Ordering
    ensures { (symbols : List Symbol) → result ≡ value_cmp OverValue (value_in symbols right) }
{
    match right {
        Value::Symbol(_) => Ordering::Greater,
        Value::Over => Ordering::Equal,
    }
}

/// What a comparison of two values comes to, where `None` is undefined.
///
/// `free` says that a side is a variable that no positive atom binds: then `=` fails where exactly one side
/// is over.
pub fn compare_worths(
    free: bool,
    rel: Rel,
    left: Option<Value>,
    right: Option<Value>,
    symbols: &SymbolTable,
) -> Truth
    requires left { IsKnown (length symbols.now) left }
    requires right { IsKnown (length symbols.now) right }
    ensures { said result ≡ spec.compared free rel (outcome_of symbols.now left) (outcome_of symbols.now right) }
{
    match left {
        Some(left) => compare_value(free, rel, left, right, symbols),
        None => Truth::Undefined,
    }
}

// The same, where the left side is defined.
fn compare_value(
    free: bool,
    rel: Rel,
    left: Value,
    right: Option<Value>,
    symbols: &SymbolTable,
) -> Truth
    requires left { IsKnown (length symbols.now) (Some left) }
    requires right { IsKnown (length symbols.now) right }
    ensures { said result ≡ spec.compared free rel (outcome_of symbols.now (Some left)) (outcome_of symbols.now right) }
{
    match right {
        Some(right) => compare_both(free, rel, left, right, symbols),
        None => never_with_none(left),
    }
}

// The same, where the right side is undefined.
fn never_with_none(left: Value) -> Truth
    ensures { (free : Bool) (rel : Relation) (symbols : List Symbol) → said result ≡ spec.compared free rel (outcome_of symbols (Some left)) IsUndefined }
{
    match left {
        Value::Symbol(_) => Truth::Undefined,
        Value::Over => Truth::Undefined,
    }
}

// The same, where both sides are defined.
fn compare_both(free: bool, rel: Rel, left: Value, right: Value, symbols: &SymbolTable) -> Truth
    requires left { IsKnown (length symbols.now) (Some left) }
    requires right { IsKnown (length symbols.now) (Some right) }
    ensures { said result ≡ spec.compared free rel (outcome_of symbols.now (Some left)) (outcome_of symbols.now (Some right)) }
{
    match left {
        Value::Symbol(a) => compare_with_symbol(free, rel, a, right, symbols),
        Value::Over => compare_with_over(free, rel, right),
    }
}

// The same, where the left side is a symbol.
fn compare_with_symbol(
    free: bool,
    rel: Rel,
    left: SymbolId,
    right: Value,
    symbols: &SymbolTable,
) -> Truth
    requires left { left < length symbols.now }
    requires right { IsKnown (length symbols.now) (Some right) }
    ensures { said result ≡ spec.compared free rel (IsSymbol (symbol_at symbols.now left)) (outcome_of symbols.now (Some right)) }
{
    match right {
        Value::Symbol(b) => Truth::Is(fits_order(rel, symbols.compare(left, b))),
        Value::Over => one_over(free, rel),
    }
}

// The same, where the left side is over.
fn compare_with_over(free: bool, rel: Rel, right: Value) -> Truth
    ensures { (symbols : List Symbol) → said result ≡ spec.compared free rel IsOver (outcome_of symbols (Some right)) }
{
    match right {
        Value::Symbol(_) => one_over(free, rel),
        Value::Over => Truth::Over,
    }
}

/// Whether a comparison holds or is over.
pub fn may_hold(truth: Truth) -> bool
    ensures { result ≡ spec.may_hold (said truth) }
{
    match truth {
        Truth::Is(holds) => holds,
        Truth::Over => true,
        Truth::Undefined => false,
    }
}

// Whether the order of two symbols fits a relation.
fn fits_order(rel: Rel, order: Ordering) -> bool
    ensures { result ≡ spec.fits_order rel order }
{
    match rel {
        Rel::Equal => order.is_eq(),
        Rel::NotEqual => !order.is_eq(),
        Rel::Less => order.is_lt(),
        Rel::LessEqual => order.is_le(),
        Rel::Greater => order.is_gt(),
        Rel::GreaterEqual => order.is_ge(),
    }
}

// What a comparison comes to of which exactly one side is over.
fn one_over(free: bool, rel: Rel) -> Truth
    ensures { said result ≡ spec.with_one_over free rel }
{
    match rel {
        Rel::Equal => equal_over(free),
        _ => Truth::Over,
    }
}

// The same of `=`.
fn equal_over(free: bool) -> Truth
    ensures { said result ≡ spec.one_over free }
{
    if free { Truth::Is(false) } else { Truth::Over }
}
