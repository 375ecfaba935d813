// The order of atoms with signs, also of ids that are in no table, so that a sort can call this at any of them.
ghost use Rattle.std.specs.Prelude.{◌≡◌};
ghost use Rattle.symbols.specs.inner.Sorted.{id_cmp};
ghost use Rattle.program_meaning.specs.Ground.{sign_cmp};
ghost use Rattle.instance_bodies.specs.inner.Ordering.{literal_order};

use std::cmp::Ordering;
use symbols::{SymbolId, SymbolTable};

// How an atom with a sign stands to another.
pub(crate) fn compare(a: (SymbolId, bool), b: (SymbolId, bool), symbols: &SymbolTable) -> Ordering
    ensures { result ≡ literal_order symbols.now a b }
{
    match compare_ids(a.0, b.0, symbols) {
        Ordering::Equal => compare_signs(a.1, b.1),
        order => order,
    }
}

// The order of two ids.
fn compare_ids(a: SymbolId, b: SymbolId, symbols: &SymbolTable) -> Ordering
    ensures { result ≡ id_cmp symbols.now a b }
{
    if a.place() < symbols.len() && b.place() < symbols.len() {
        match symbols.compare(a, b) {
            Ordering::Equal => a.place().cmp(&b.place()),
            order => order,
        }
    } else {
        a.place().cmp(&b.place())
    }
}

// The true one before the false one.
fn compare_signs(a: bool, b: bool) -> Ordering
    ensures { result ≡ sign_cmp a b }
{
    match (a, b) {
        (true, false) => Ordering::Less,
        (false, true) => Ordering::Greater,
        (true, true) => Ordering::Equal,
        (false, false) => Ordering::Equal,
    }
}
