// Lists of literals that are equal.
ghost use Rattle.std.specs.Prelude.{◌≡◌, ◌↔◌, length, IsTrue};
ghost use Rattle.std.specs.Cmp.Lexicographic.{pointwise};
ghost use Rattle.literals.specs.Lits as spec;

use literals::{Lit, implies};

// Whether the two are one literal.
fn same_lit(a: Lit, b: Lit) -> bool
    ensures { result ≡ spec.same_lit a b }
{
    implies(a, b) && implies(b, a)
}

// Whether two lists of one length have the same literals.
fn agree(a: &[Lit], b: &[Lit]) -> bool
    requires { length a.now ≡ length b.now }
    ensures { result ≡ pointwise spec.same_lit a.now b.now }
{
    for at in 0..a.len() {
        if !same_lit(a[at], b[at]) {
            return false;
        }
    }
    true
}

// Whether the two are one list.
#[tactic(auto, using(crate::proofs::SameLemmas::same_lists, crate::proofs::SameLemmas::equal_lists, crate::proofs::SameLemmas::equal_lengths))]
pub(crate) fn are_same(a: &[Lit], b: &[Lit]) -> bool
    ensures { IsTrue result ↔ (a.now ≡ b.now) }
{
    a.len() == b.len() && agree(a, b)
}
