// The numbering of a ground program.
ghost use Rattle.std.specs.Prelude.{◌≡◌, ◌<◌, ◌^◌, length, IfOk};
ghost use Rattle.linear_normal.specs.Numbering.{numbering as the_numbering};

use crate::constraint::Constraint;
use crate::numbered::Numbered;
use crate::rule::add_rule;
use crate::sums::objective_sum;
use crate::table::all_numbered;
use ground_model::GroundProgram;
use indexmap::IndexSet;
use std::alloc::Global;
use symbols::{Listed, Memory};

// The constraints of a table, by number.
fn listed(alloc: Global, keys: IndexSet<Constraint>) -> Result<Listed<Constraint>, Memory>
    ensures { IfOk result (λ constraints. constraints ≡ keys.keys) }
{
    let mut constraints = Listed::new(alloc);
    for key in keys {
        constraints.push(key)?;
    }
    Ok(constraints)
}

/// Numbers the bodies and the constraints of a ground program.
///
/// Every number is a `u32`: a program that needs a larger one is answered as a want of memory. Linear in the
/// program and in the numbered bodies, up to the sorting of each.
pub fn normalise(alloc: Global, ground: &GroundProgram) -> Result<Numbered, Memory>
    ensures numbering { IfOk result (λ numbered. numbered ≡ the_numbering ground.now) }
    ensures bodies { IfOk result (λ numbered. length numbered.bodies < 2 ^ 32) }
    ensures constraints { IfOk result (λ numbered. length numbered.constraints < 2 ^ 32) }
{
    let objective = objective_sum(alloc, ground)?;
    let variables = ground.variables.len();
    let mut keys = IndexSet::new(alloc);
    let mut bodies = Listed::new(alloc);
    let mut supports = Listed::new(alloc);
    let mut duties = Listed::new(alloc);
    for rule in ground.rules.items() {
        add_rule(
            alloc,
            variables,
            rule,
            &mut keys,
            &mut bodies,
            &mut supports,
            &mut duties,
        )?;
    }
    all_numbered(bodies.len())?;
    let constraints = listed(alloc, keys)?;
    Ok(Numbered {
        constraints,
        bodies,
        supports,
        duties,
        objective,
    })
}
