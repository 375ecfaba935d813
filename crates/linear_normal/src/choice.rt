// Choices: their tallies and their bounds.
ghost use Rattle.std.specs.Prelude.{◌≡◌, ◌≤◌, ◌++◌, ◌∷◌, [], pos, map, option_to_list, vec_items, IfOk, OnOk};
ghost use Rattle.std.specs.List.{All};
ghost use Rattle.linear_normal.specs.Contents.{Counted, SomeTrue};
ghost use Rattle.linear_normal.specs.Numbering.{item_of};
ghost use Rattle.linear_normal.specs.inner.Tables.{Gives, IsSmallItem, TakesCompared, TakesBounds, tally_terms, bound_demands, bound_duties};

use crate::compared::add_compared;
use crate::constraint::{Constraint, Item};
use crate::numbered::Duty;
use crate::table::put;
use ground_model::Bound;
use indexmap::IndexSet;
use literals::Lit;
use std::alloc::Global;
use symbols::{Listed, Memory};

// The truth of a tally of these bodies, which goes into the table.
fn add_tally(alloc: Global, keys: &mut IndexSet<Constraint>, bodies: &[u32]) -> Result<Item, Memory>
    ensures small { IfOk result IsSmallItem }
    ensures gives { IfOk result (λ item. Gives keys.old.keys keys.new.keys (SomeTrue bodies.now ∷ []) (λ later. item ≡ item_of later (Counted bodies.now (pos 1)))) }
{
    let bodies = Listed::from_slice(alloc, bodies)?;
    let number = put(keys, Constraint::Tally(bodies))?;
    Ok(Item::Truth(number, 1))
}

// The truths of tallies of these rows of bodies.
fn add_tallies(
    alloc: Global,
    keys: &mut IndexSet<Constraint>,
    rows: &[Vec<u32>],
) -> Result<Listed<Item>, Memory>
    ensures small { IfOk result (λ items. All IsSmallItem items) }
    ensures gives { IfOk result (λ items. Gives keys.old.keys keys.new.keys (map SomeTrue (map vec_items rows.now)) (λ later. items ≡ map (item_of later) (tally_terms (map vec_items rows.now)))) }
{
    let mut items = Listed::new(alloc);
    for row in rows {
        let item = add_tally(alloc, keys, row)?;
        items.push(item)?;
    }
    Ok(items)
}

// The number of a bound on the sum of these items.
fn add_bound(
    alloc: Global,
    keys: &mut IndexSet<Constraint>,
    items: &[Item],
    bound: Bound,
) -> Result<u32, Memory>
    requires { All IsSmallItem items.now }
    ensures { IfOk result (λ n. TakesCompared keys.old.keys items.now bound.rel bound.value keys.new.keys n) }
{
    let items = Listed::from_slice(alloc, items)?;
    let number = add_compared(alloc, keys, items, bound.rel, i64::from(bound.value))?;
    Ok(number)
}

// Adds the duty of a bound, where there is one.
fn add_duty(
    alloc: Global,
    first: u32,
    keys: &mut IndexSet<Constraint>,
    items: &[Item],
    bound: Option<Bound>,
    duties: &mut Listed<Duty>,
) -> Result<(), Memory>
    requires { All IsSmallItem items.now }
    ensures { OnOk result (TakesBounds keys.old.keys items.now first (option_to_list bound) keys.new.keys duties.old duties.new) }
{
    match bound {
        Some(bound) => {
            let number = add_bound(alloc, keys, items, bound)?;
            let head = Some(Lit::Constraint(number, true));
            duties.push(Duty { body: first, head })?;
            Ok(())
        }
        None => Ok(()),
    }
}

// Adds the duties of both bounds, the left one first.
fn add_duties(
    alloc: Global,
    first: u32,
    keys: &mut IndexSet<Constraint>,
    items: &[Item],
    left: Option<Bound>,
    right: Option<Bound>,
    duties: &mut Listed<Duty>,
) -> Result<(), Memory>
    requires { All IsSmallItem items.now }
    ensures { OnOk result (TakesBounds keys.old.keys items.now first (option_to_list left ++ option_to_list right) keys.new.keys duties.old duties.new) }
{
    add_duty(alloc, first, keys, items, left, duties)?;
    add_duty(alloc, first, keys, items, right, duties)?;
    Ok(())
}

// Adds the tallies of the rows, and then the bounds with their duties.
pub(crate) fn add_bounds(
    alloc: Global,
    first: u32,
    keys: &mut IndexSet<Constraint>,
    rows: &[Vec<u32>],
    left: Option<Bound>,
    right: Option<Bound>,
    duties: &mut Listed<Duty>,
) -> Result<(), Memory>
    ensures { OnOk result (Gives keys.old.keys keys.new.keys
        (map SomeTrue (map vec_items rows.now) ++ bound_demands (map vec_items rows.now) (option_to_list left ++ option_to_list right))
        (λ later. duties.new ≡ duties.old ++ bound_duties later (map vec_items rows.now) first (option_to_list left ++ option_to_list right))) }
{
    let items = add_tallies(alloc, keys, rows)?;
    add_duties(alloc, first, keys, items.items(), left, right, duties)?;
    Ok(())
}
