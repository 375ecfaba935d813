// Sums in relation to a number.
ghost use Rattle.std.specs.Prelude.{◌≡◌, ◌<◌, ◌≤◌, ◌^◌, unsigned_abs, map, IfOk};
ghost use Rattle.std.specs.List.{All};
ghost use Rattle.linear_normal.specs.inner.Tables.{IsSmallItem, opposite_item as turned_item, TakesCompared};

use crate::constraint::{Constraint, Item};
use crate::table::{add_both, add_either, put};
use indexmap::IndexSet;
use std::alloc::Global;
use symbols::{Listed, Memory, Rel};

// The item with the opposite coefficient.
fn opposite_item(item: Item) -> Item
    requires { IsSmallItem item }
    ensures { result ≡ turned_item item }
{
    match item {
        Item::Value(x, c) => Item::Value(x, -c),
        Item::Truth(n, c) => Item::Truth(n, -c),
    }
}

// The items with the opposite coefficients.
fn opposite_items(alloc: Global, items: &[Item]) -> Result<Listed<Item>, Memory>
    requires { All IsSmallItem items.now }
    ensures { IfOk result (λ other. other ≡ map turned_item items.now) }
{
    let mut other = Listed::new(alloc);
    for item in items {
        other.push(opposite_item(*item))?;
    }
    Ok(other)
}

// The number of a sum in relation to a number, which goes into the table with its parts.
pub(crate) fn add_compared(
    alloc: Global,
    keys: &mut IndexSet<Constraint>,
    items: Listed<Item>,
    rel: Rel,
    k: i64,
) -> Result<u32, Memory>
    requires items { All IsSmallItem items }
    requires number { unsigned_abs k < 2 ^ 62 }
    ensures counted { IfOk result (λ n. 1 ≤ n) }
    ensures takes { IfOk result (λ n. TakesCompared keys.old.keys items rel k keys.new.keys n) }
{
    match rel {
        Rel::LessEqual => put(keys, Constraint::AtMost(items, k)),
        Rel::Less => put(keys, Constraint::AtMost(items, k - 1)),
        Rel::GreaterEqual => {
            let other = opposite_items(alloc, items.items())?;
            put(keys, Constraint::AtMost(other, -k))
        }
        Rel::Greater => {
            let other = opposite_items(alloc, items.items())?;
            put(keys, Constraint::AtMost(other, -k - 1))
        }
        Rel::Equal => {
            let other = opposite_items(alloc, items.items())?;
            let one = Constraint::AtMost(items, k);
            add_both(keys, one, Constraint::AtMost(other, -k))
        }
        Rel::NotEqual => {
            let other = opposite_items(alloc, items.items())?;
            let one = Constraint::AtMost(items, k - 1);
            add_either(keys, one, Constraint::AtMost(other, -k - 1))
        }
    }
}
