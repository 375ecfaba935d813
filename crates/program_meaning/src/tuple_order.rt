// The order of tuples in collected form.
ghost use Rattle.std.specs.Prelude.{◌≡◌, ◌<◌, length, pos};
ghost use Rattle.std.specs.Cmp.Lexicographic.{slice_cmp};
ghost use Rattle.symbols.specs.Symbol.{Number};
ghost use Rattle.symbols.specs.Order.{symbol_cmp};
ghost use Rattle.symbols.specs.Table.{symbol_at};
ghost use Rattle.program_meaning.specs.Said.{place_in, id_order, pair_order, behind_pairs};
ghost use Rattle.program_meaning.specs.Theory.{place_cmp};

use crate::collected::CollectedPlace;
use std::cmp::Ordering;
use symbols::{SymbolId, SymbolTable, SymbolView};

/// How a tuple stands to another: by their pairs from the left, then by constant, then by duration, then by
/// their further places.
///
/// Tuples of one collected form are level, whatever terms they were collected from. An id that is in no table
/// is read as the number 0, so that a sort can call this at any tuples.
pub fn compare_tuples(
    left: &CollectedPlace,
    right: &CollectedPlace,
    symbols: &SymbolTable,
) -> Ordering
    ensures { result ≡ place_cmp (place_in symbols.now left.now) (place_in symbols.now right.now) }
{
    match compare_pairs(
        left.linear.pairs.items(),
        right.linear.pairs.items(),
        symbols,
    ) {
        Ordering::Equal => compare_behind_pairs(left, right, symbols),
        order => order,
    }
}

// The same of tuples with the same pairs.
fn compare_behind_pairs(
    left: &CollectedPlace,
    right: &CollectedPlace,
    symbols: &SymbolTable,
) -> Ordering
    ensures { result ≡ behind_pairs symbols.now left.now right.now }
{
    let numbers = left.linear.constant.cmp(&right.linear.constant);
    match numbers.then(left.duration.cmp(&right.duration)) {
        Ordering::Equal => compare_rest(left.rest.items(), right.rest.items(), symbols),
        order => order,
    }
}

// How pairs stand to others, from the left.
fn compare_pairs(
    left: &[(SymbolId, i64)],
    right: &[(SymbolId, i64)],
    symbols: &SymbolTable,
) -> Ordering
    ensures { result ≡ slice_cmp (pair_order symbols.now) left.now right.now }
{
    for (place, pair) in left.iter().enumerate() {
        if place == right.len() {
            return Ordering::Greater;
        }
        match compare_pair(*pair, right[place], symbols) {
            Ordering::Equal => {}
            order => return order,
        }
    }
    left.len().cmp(&right.len())
}

// How a pair stands to another: by variable, then by coefficient.
fn compare_pair(left: (SymbolId, i64), right: (SymbolId, i64), symbols: &SymbolTable) -> Ordering
    ensures { result ≡ pair_order symbols.now left right }
{
    match compare_ids(left.0, right.0, symbols) {
        Ordering::Equal => left.1.cmp(&right.1),
        order => order,
    }
}

// How further places stand to others, from the left.
fn compare_rest(left: &[SymbolId], right: &[SymbolId], symbols: &SymbolTable) -> Ordering
    ensures { result ≡ slice_cmp (id_order symbols.now) left.now right.now }
{
    for (place, id) in left.iter().enumerate() {
        if place == right.len() {
            return Ordering::Greater;
        }
        match compare_ids(*id, right[place], symbols) {
            Ordering::Equal => {}
            order => return order,
        }
    }
    left.len().cmp(&right.len())
}

// How a symbol stands to another, also of ids that are in no table.
fn compare_ids(left: SymbolId, right: SymbolId, symbols: &SymbolTable) -> Ordering
    ensures { result ≡ id_order symbols.now left right }
{
    let has_left = left.place() < symbols.len();
    let has_right = right.place() < symbols.len();
    match (has_left, has_right) {
        (true, true) => symbols.compare(left, right),
        (true, false) => compare_to_zero(left, symbols),
        (false, true) => compare_to_zero(right, symbols).reverse(),
        (false, false) => Ordering::Equal,
    }
}

// How a symbol stands to the number 0.
fn compare_to_zero(id: SymbolId, symbols: &SymbolTable) -> Ordering
    requires { id < length symbols.now }
    ensures { result ≡ symbol_cmp (symbol_at symbols.now id) (Number (pos 0)) }
{
    match symbols.view(id) {
        SymbolView::Number(n) => n.cmp(&0),
        SymbolView::Identifier(_) => Ordering::Greater,
        SymbolView::Text(_) => Ordering::Greater,
        SymbolView::Function(_, _) => Ordering::Greater,
    }
}
