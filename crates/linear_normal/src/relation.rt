// Relations and theory atoms by number.
ghost use Rattle.std.specs.Prelude.{◌≡◌, ◌≤◌, map, IfOk};
ghost use Rattle.linear_normal.specs.Demands.{relation_content, theory_content};
ghost use Rattle.linear_normal.specs.inner.Sums.{IsSoundOver};
ghost use Rattle.linear_normal.specs.inner.Tables.{IsSoundTheory, GivesNumber, value_item};

use crate::compared::add_compared;
use crate::constraint::{Constraint, Item};
use crate::copies::{copy_places, copy_set};
use crate::sums::relation_sum;
use crate::table::put;
use ground_model::{Relation, TheoryHead};
use indexmap::IndexSet;
use std::alloc::Global;
use symbols::{Listed, Memory};

// Variables with coefficients as items.
fn value_items(alloc: Global, pairs: &[(u32, i64)]) -> Result<Listed<Item>, Memory>
    ensures { IfOk result (λ items. items ≡ map value_item pairs.now) }
{
    let mut items = Listed::new(alloc);
    for pair in pairs {
        items.push(Item::Value(pair.0, pair.1))?;
    }
    Ok(items)
}

// The number of a relation, which goes into the table with its parts.
pub(crate) fn add_relation(
    alloc: Global,
    variables: usize,
    keys: &mut IndexSet<Constraint>,
    relation: &Relation,
) -> Result<u32, Memory>
    requires { IsSoundOver variables relation.now }
    ensures counted { IfOk result (λ n. 1 ≤ n) }
    ensures gives { IfOk result (λ n. GivesNumber keys.old.keys keys.new.keys (relation_content variables relation.now) n) }
{
    let sum = relation_sum(alloc, variables, relation)?;
    let items = value_items(alloc, sum.pairs.items())?;
    let number = add_compared(alloc, keys, items, relation.rel, sum.constant)?;
    Ok(number)
}

// The number of a theory atom, which goes into the table with its parts.
pub(crate) fn add_theory(
    alloc: Global,
    variables: usize,
    keys: &mut IndexSet<Constraint>,
    theory: &TheoryHead,
) -> Result<u32, Memory>
    requires { IsSoundTheory variables theory.now }
    ensures counted { IfOk result (λ n. 1 ≤ n) }
    ensures gives { IfOk result (λ n. GivesNumber keys.old.keys keys.new.keys (theory_content variables theory.now) n) }
{
    match theory {
        TheoryHead::Relation(relation) => {
            let number = add_relation(alloc, variables, keys, relation)?;
            Ok(number)
        }
        TheoryHead::Domain(numbers, variable) => {
            let numbers = copy_set(alloc, numbers)?;
            let number = put(keys, Constraint::Domain(*variable, numbers))?;
            Ok(number)
        }
        TheoryHead::Distinct(places) => {
            let places = copy_places(alloc, places.items())?;
            let number = put(keys, Constraint::Distinct(places))?;
            Ok(number)
        }
        TheoryHead::Disjoint(places) => {
            let places = copy_places(alloc, places.items())?;
            let number = put(keys, Constraint::Disjoint(places))?;
            Ok(number)
        }
    }
}
