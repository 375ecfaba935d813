// At which place a sum has the item that counts a variable or a constraint.
ghost use Rattle.std.specs.Prelude.{◌≡◌, ◌<◌, length, get_or, IsTrue, IfSome, IfNone};
ghost use Rattle.linear_normal.specs.declared.constraint.Item.{Item};
ghost use Rattle.sum_propagator.specs.Moves.{key_in, AreRising, Lacks};

use linear_normal::Item;

// A number of its own for each variable and each constraint.
fn key_of(item: Item) -> u64
    ensures { result ≡ key_in item }
{
    match item {
        Item::Value(x, _) => 2 * u64::from(x),
        Item::Truth(n, _) => 2 * u64::from(n) + 1,
    }
}

// The key of the item at this place.
fn key_at(items: &[Item], at: usize) -> u64
    requires { at < length items.now }
    ensures { (d : Item) → result ≡ key_in (get_or items.now at d) }
{
    key_of(items[at])
}

/// Whether the keys rise from item to item.
pub(crate) fn are_rising(items: &[Item]) -> bool
    ensures { IsTrue result → AreRising items.now }
{
    for at in 1..items.len() {
        let here = key_at(items, at);
        let before = key_at(items, at - 1);
        if here <= before {
            return false;
        }
    }
    true
}

/// Where the item with this key stands, if there is one.
pub(crate) fn place_of(items: &[Item], key: u64) -> Option<usize>
    requires { AreRising items.now }
    ensures some { IfSome result (λ at. (at < length items.now) × ((d : Item) → key_in (get_or items.now at d) ≡ key)) }
    ensures none { IfNone result (Lacks items.now key) }
{
    items.binary_search_by_key(&key, |item| key_of(*item)).ok()
}
