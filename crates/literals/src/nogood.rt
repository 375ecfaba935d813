// Nogoods: lists of literals that are never all true, and resolution.
ghost use Rattle.std.specs.Prelude.{◌≡◌, IfOk, IfSome};
ghost use Rattle.std.specs.List.{All, find};
ghost use Rattle.std.specs.Cmp.Lexicographic.{pointwise, lists_per, lists_equiv};
ghost use Rattle.std.specs.Hash as fed;
ghost use Rattle.std.specs.Hash.{items_Alike};
ghost use Rattle.literals.specs.contracts.lit.LitPartialEq.TheImpl.{ghosts as of_lit};
ghost use Rattle.literals.specs.contracts.lit.LitPartialEq.TheImpl.Laws.{laws-law as lits_agree};
ghost use Rattle.literals.specs.contracts.lit.LitEq.TheImpl.Laws.{laws-law as lits_equal};
ghost use Rattle.literals.specs.contracts.lit.LitHash.TheImpl.{ghosts as hashed_lit};
ghost use Rattle.literals.specs.contracts.lit.LitHash.TheImpl.Laws.{respects_eq-law as hashes_agree};
ghost use Rattle.literals.specs.Truths.{Truths, all_true, Meets};
ghost use Rattle.literals.specs.Lits.{IsLit};
ghost use Rattle.literals.specs.Nogoods.{IsNogood, canonical, answers, resolvent};

use crate::lit::{Lit, complement, implies};
use crate::merge::{merge, sorted};
use crate::sorted::has_sorted;
use smallvec::SmallVec;
use std::alloc::Global;
use std::hash::{Hash, Hasher};
use std::marker::Model;
use symbols::Memory;

/// Literals that are never all true. Clauses see it as the list of them: sorted, and with at most one
/// bound on each side of a variable.
///
/// Up to four literals stand in the nogood itself.
#[derive(Debug, Drop)]
pub struct Nogood {
    items: SmallVec<Lit, 4>,
}

impl Model for Nogood {
    ghost use Rattle.std.specs.Prelude.{List};
    ghost use Rattle.literals.specs.declared.lit.Lit.{Lit};

    ghost Value = { List Lit };

    ghost use Rattle.literals.specs.Nogoods.{IsNogood};

    ghost view = { λ n. n.items.items };

    ghost invariant = { λ n. IsNogood n.items.items };
}

impl PartialEq for Nogood {
    ghost eq = { λ x y. pointwise of_lit.eq x y };

    ghost laws = { lists_per lits_agree };

    fn eq(&self, other: &Self) -> bool {
        self.items == other.items
    }
}

impl Eq for Nogood {
    ghost laws = { lists_equiv lits_equal };
}

impl Hash for Nogood {
    ghost hash_input = { λ x. fed.slice hashed_lit.hash_input x };

    ghost respects_eq = { (items_Alike (record { fed = hashes_agree })).fed };

    fn hash<H: Hasher>(&self, state: &mut H) {
        self.items.hash(state);
    }
}

// The literal whose opposite implies the pivot.
fn answer_to(lits: &[Lit], pivot: Lit) -> Option<Lit>
    requires { All IsLit lits.now }
    ensures { result ≡ find (answers pivot) lits.now }
{
    for q in lits {
        if implies(complement(*q), pivot) {
            return Some(*q);
        }
    }
    None
}

impl Nogood {
    /// The nogood of these literals. Of two bounds on one side of a variable it keeps the stronger.
    ///
    /// Linear where they are sorted, else O(n log n).
    pub fn from_lits(alloc: Global, lits: &[Lit]) -> Result<Nogood, Memory>
        requires { All IsLit lits.now }
        ensures value { IfOk result (λ n. n ≡ canonical lits.now) }
        ensures same { IfOk result (λ n. (t : Truths) → all_true t n ≡ all_true t lits.now) }
    {
        let items = sorted(alloc, lits)?;
        Ok(Nogood { items })
    }

    /// The literals, in order.
    #[inline]
    pub fn lits(&self) -> &[Lit]
        ensures value { result.now ≡ self.now }
        ensures nogood { IsNogood self.now }
    {
        self.items.as_slice()
    }
}

/// The two resolved at the pivot: `left` without it, joined with `right` without the literal whose
/// opposite implies it.
///
/// One merge: linear in the two lengths.
pub fn resolve(
    alloc: Global,
    left: &Nogood,
    pivot: Lit,
    right: &Nogood,
) -> Result<Option<Nogood>, Memory>
    ensures value { IfOk result (λ r. r ≡ resolvent left.now pivot right.now) }
    ensures sound { IfOk result (λ r. IfSome r (λ n. (t : Truths) → Meets t left.now → Meets t right.now → Meets t n)) }
{
    if !has_sorted(left.lits(), pivot) {
        return Ok(None);
    }
    let Some(q) = answer_to(right.lits(), pivot) else {
        return Ok(None);
    };
    let items = merge(alloc, left.lits(), Some(pivot), right.lits(), Some(q))?;
    Ok(Some(Nogood { items }))
}
