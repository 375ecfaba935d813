// The order of a nogood's literals.
ghost use Rattle.std.specs.Prelude.{◌≡◌};
ghost use Rattle.literals.specs.Lits.{same_lit};
ghost use Rattle.literals.specs.Nogoods.{kind_of, index_of, is_before, stronger, has_lit};

use crate::lit::{Lit, implies};

// Which kind of literal it is, in the order of a nogood.
#[inline]
fn kind(lit: Lit) -> u8
    ensures { result ≡ kind_of lit }
{
    match lit {
        Lit::Atom(..) => 0,
        Lit::Body(..) => 1,
        Lit::Constraint(..) => 2,
        Lit::AtMost(..) | Lit::AtLeast(..) => 3,
    }
}

// Where it stands among the literals of its kind.
#[inline]
fn index(lit: Lit) -> u64
    ensures { result ≡ index_of lit }
{
    match lit {
        Lit::Atom(n, sign) | Lit::Body(n, sign) | Lit::Constraint(n, sign) => 2 * u64::from(n)
            + u64::from(!sign),
        Lit::AtMost(x, _) => 2 * u64::from(x),
        Lit::AtLeast(x, _) => 2 * u64::from(x) + 1,
    }
}

/// Whether `a` stands before `b` in a nogood: atoms first, then bodies, constraints and bounds; within a
/// kind by number, the true one before the false one, an upper bound before a lower one.
#[inline]
pub fn before(a: Lit, b: Lit) -> bool
    ensures { result ≡ is_before a b }
{
    kind(a) < kind(b) || kind(a) == kind(b) && index(a) < index(b)
}

/// Whether the two are one literal.
#[inline]
pub fn same(a: Lit, b: Lit) -> bool
    ensures { result ≡ same_lit a b }
{
    implies(a, b) && implies(b, a)
}

/// Whether the literal is among these, which need not be sorted. O(n).
pub fn has(lits: &[Lit], lit: Lit) -> bool
    ensures { result ≡ has_lit lits.now lit }
{
    lits.iter().any(|x| same(*x, lit))
}

// The stronger of two literals of one place.
#[inline]
pub(crate) fn stronger_of(a: Lit, b: Lit) -> Lit
    ensures { result ≡ stronger a b }
{
    if implies(a, b) { a } else { b }
}
