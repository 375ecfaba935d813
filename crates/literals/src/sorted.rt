// Looking up in a sorted list of literals.
ghost use Rattle.std.specs.Prelude.{◌≡◌, true, false};
ghost use Rattle.std.specs.List.Sorted.{IsPartitionPoint};
ghost use Rattle.literals.specs.Nogoods.{is_before, Rises, has_lit, standing};
ghost use Rattle.literals.specs.Bounds.{lower_of, upper_of};
ghost use Rattle.literals.specs.Parts.{best_lower, best_upper};

use crate::lit::Lit;
use crate::order::{before, same};
use symbols::Ends;

// How many of the sorted literals stand before this one.
fn place_in(lits: &[Lit], lit: Lit) -> usize
    requires { Rises lits.now }
    ensures { IsPartitionPoint (λ x. is_before x lit ≡ true) (λ x. is_before x lit ≡ false) lits.now result }
{
    lits.partition_point(|x| before(*x, lit))
}

/// The one of the sorted literals that stands at the place of this one: the bound on the same side of the
/// same variable, or the literal itself. O(log n).
pub fn standing_at(lits: &[Lit], lit: Lit) -> Option<Lit>
    requires { Rises lits.now }
    ensures { result ≡ standing lits.now lit }
{
    let at = place_in(lits, lit);
    if at >= lits.len() {
        return None;
    }
    let found = lits[at];
    if before(lit, found) {
        None
    } else {
        Some(found)
    }
}

/// Whether the literal is among these sorted ones. O(log n).
pub fn has_sorted(lits: &[Lit], lit: Lit) -> bool
    requires { Rises lits.now }
    ensures { result ≡ has_lit lits.now lit }
{
    match standing_at(lits, lit) {
        Some(found) => same(found, lit),
        None => false,
    }
}

// The lower bound with a literal that may have been found.
fn with_lower(ends: Ends, found: Option<Lit>) -> i32
    ensures { result ≡ best_lower ends.min found }
{
    match found {
        Some(Lit::AtLeast(_, k)) => ends.min.max(k),
        _ => ends.min,
    }
}

// The upper bound with a literal that may have been found.
fn with_upper(ends: Ends, found: Option<Lit>) -> i32
    ensures { result ≡ best_upper ends.max found }
{
    match found {
        Some(Lit::AtMost(_, k)) => ends.max.min(k),
        _ => ends.max,
    }
}

/// The lower bound of the variable that these sorted literals and the ends name. O(log n).
pub fn lower_bound(ends: Ends, lits: &[Lit], variable: u32) -> i32
    requires { Rises lits.now }
    ensures { result ≡ lower_of ends lits.now variable }
{
    with_lower(ends, standing_at(lits, Lit::AtLeast(variable, 0)))
}

/// The upper bound of the variable that these sorted literals and the ends name. O(log n).
pub fn upper_bound(ends: Ends, lits: &[Lit], variable: u32) -> i32
    requires { Rises lits.now }
    ensures { result ≡ upper_of ends lits.now variable }
{
    with_upper(ends, standing_at(lits, Lit::AtMost(variable, 0)))
}
