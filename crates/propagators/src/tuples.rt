// Constraints about tuples, which have no propagator yet.
ghost use Rattle.std.specs.Prelude.{◌≡◌};
ghost use Rattle.std.specs.List.{list_any};
ghost use Rattle.propagators.specs.Tuples as specs;

use linear_normal::{Constraint, Numbered};

// Whether the constraint is that tuples differ, or that they do not overlap.
fn is_about_tuples(constraint: &Constraint) -> bool
    ensures { result ≡ specs.is_about_tuples constraint.now }
{
    matches!(
        constraint,
        Constraint::Distinct(_) | Constraint::Disjoint(_)
    )
}

/// Whether one of the constraints is about tuples: that they differ, or that they do not overlap.
///
/// Linear in the number of constraints.
pub fn has_tuples(numbered: &Numbered) -> bool
    ensures { result ≡ list_any specs.is_about_tuples numbered.now.constraints }
{
    numbered.constraints.items().iter().any(is_about_tuples)
}
