// The bounds that a list of literals names.
ghost use Rattle.std.specs.Prelude.{◌≡◌};
ghost use Rattle.literals.specs.Nogoods.{Rises};
ghost use Rattle.linear_normal.specs.Bounds as spec;
ghost use Rattle.linear_normal.specs.Bounds.{bounds_named};

use literals::{Lit, lower_bound, upper_bound};
use symbols::Ends;

// What a constraint counts at least, after one more literal.
fn counted(constraint: u32, count: i32, lit: Lit) -> i32
    ensures { result ≡ spec.counted constraint count lit }
{
    match lit {
        Lit::Constraint(c, true) if c == constraint => 1,
        _ => count,
    }
}

// What a constraint counts at most, after one more literal.
fn discounted(constraint: u32, count: i32, lit: Lit) -> i32
    ensures { result ≡ spec.discounted constraint count lit }
{
    match lit {
        Lit::Constraint(c, false) if c == constraint => 0,
        _ => count,
    }
}

// The least value of a variable. It is found by halving.
pub(crate) fn low(ends: Ends, lits: &[Lit], variable: u32) -> i32
    requires sorted { Rises lits.now }
    ensures { result ≡ (bounds_named ends lits.now).low variable }
{
    lower_bound(ends, lits, variable)
}

// The greatest value of a variable. It is found by halving.
pub(crate) fn high(ends: Ends, lits: &[Lit], variable: u32) -> i32
    requires sorted { Rises lits.now }
    ensures { result ≡ (bounds_named ends lits.now).high variable }
{
    upper_bound(ends, lits, variable)
}

// What a constraint counts at least.
pub(crate) fn least(ends: Ends, lits: &[Lit], constraint: u32) -> i32
    ensures { result ≡ (bounds_named ends lits.now).least constraint }
{
    let mut count = 0;
    for lit in lits {
        count = counted(constraint, count, *lit);
    }
    count
}

// What a constraint counts at most.
pub(crate) fn greatest(ends: Ends, lits: &[Lit], constraint: u32) -> i32
    ensures { result ≡ (bounds_named ends lits.now).greatest constraint }
{
    let mut count = 1;
    for lit in lits {
        count = discounted(constraint, count, *lit);
    }
    count
}
