// The order of values, also of ids that are in no table: these are read as the number 0, so that a sort can call this
// at any rows.
ghost use Rattle.std.specs.Prelude.{◌≡◌, ◌<◌, List, length, pos};
ghost use Rattle.std.specs.Cmp.Lexicographic.{slice_cmp};
ghost use Rattle.symbols.specs.Symbol.{Symbol, Number};
ghost use Rattle.symbols.specs.Order.{symbol_cmp};
ghost use Rattle.symbols.specs.Table.{symbol_at};
ghost use Rattle.program_meaning.specs.Said.{value_in, id_order};
ghost use Rattle.program_meaning.specs.Substitution.{SymbolValue, OverValue, value_cmp};
ghost use Rattle.sorted_rows.specs.Orders.{value_order};

use std::cmp::Ordering;
use symbols::{SymbolId, SymbolTable, SymbolView};
use syntax_tree::Value;

// How values stand to others, from the left.
pub(crate) fn compare_rows(left: &[Value], right: &[Value], symbols: &SymbolTable) -> Ordering
    ensures { result ≡ slice_cmp (value_order symbols.now) left.now right.now }
{
    for (place, value) in left.iter().enumerate() {
        if place == right.len() {
            return Ordering::Greater;
        }
        match compare_values(*value, right[place], symbols) {
            Ordering::Equal => {}
            order => return order,
        }
    }
    left.len().cmp(&right.len())
}

// How a value stands to another.
fn compare_values(left: Value, right: Value, symbols: &SymbolTable) -> Ordering
    ensures { result ≡ value_order symbols.now left right }
{
    match left {
        Value::Symbol(id) => compare_symbol(id, right, symbols),
        Value::Over => compare_over(right),
    }
}

// How a symbol stands to a value.
fn compare_symbol(left: SymbolId, right: Value, symbols: &SymbolTable) -> Ordering
    ensures { result ≡ value_cmp (SymbolValue (symbol_at symbols.now left)) (value_in symbols.now right) }
{
    match right {
        Value::Symbol(id) => compare_ids(left, id, symbols),
        Value::Over => Ordering::Less,
    }
}

// How over stands to a value.
fn compare_over(right: Value) -> Ordering
    ensures { (symbols : List Symbol) → result ≡ value_cmp OverValue (value_in symbols right) }
{
    match right {
        Value::Symbol(_) => Ordering::Greater,
        Value::Over => Ordering::Equal,
    }
}

// How a symbol stands to another.
fn compare_ids(left: SymbolId, right: SymbolId, symbols: &SymbolTable) -> Ordering
    ensures { result ≡ id_order symbols.now left right }
{
    let has_left = left.place() < symbols.len();
    let has_right = right.place() < symbols.len();
    match (has_left, has_right) {
        (true, true) => symbols.compare(left, right),
        (true, false) => compare_to_zero(left, symbols),
        (false, true) => compare_to_zero(right, symbols).reverse(),
        (false, false) => Ordering::Equal,
    }
}

// How a symbol stands to the number 0.
fn compare_to_zero(id: SymbolId, symbols: &SymbolTable) -> Ordering
    requires { id < length symbols.now }
    ensures { result ≡ symbol_cmp (symbol_at symbols.now id) (Number (pos 0)) }
{
    match symbols.view(id) {
        SymbolView::Number(n) => n.cmp(&0),
        SymbolView::Identifier(_) => Ordering::Greater,
        SymbolView::Text(_) => Ordering::Greater,
        SymbolView::Function(_, _) => Ordering::Greater,
    }
}
