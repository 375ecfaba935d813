// The place of each literal in one flat table.
ghost use Rattle.std.specs.Prelude.{◌≡◌, ◌==◌, ◌<◌};
ghost use Rattle.literals.specs.declared.lit.Lit.{Lit};
ghost use Rattle.literals.specs.Nogoods.{same_place};
ghost use Rattle.literals.specs.Places.{IsCounted, place_of, places_of};

use crate::lit::Lit;
use std::marker::Model;

/// How many atoms, bodies, constraints and variables there are, each numbered from 1.
#[derive(Clone, Copy, Debug, PartialEq, Eq)]
pub struct Counts {
    pub atoms: u32,
    pub bodies: u32,
    pub constraints: u32,
    pub variables: u32,
}

/// Where each literal stands in a flat table, as of marks, truths or watches. Clauses see how many there
/// are of each kind.
///
/// Two places for each atom, body and constraint, the true literal before the false one; then two for
/// each variable, the upper bounds before the lower ones.
#[derive(Debug, Drop)]
pub struct Places {
    counts: Counts,
    bodies_from: usize,
    constraints_from: usize,
    bounds_from: usize,
    count: usize,
}

impl Model for Places {
    ghost use Rattle.std.specs.Prelude.{◌≡◌};
    ghost use Rattle.literals.specs.declared.places.Counts.{Counts};
    ghost use Rattle.literals.specs.Places as places;

    ghost Value = { Counts };

    ghost view = { λ p. p.counts };

    ghost invariant = { λ p. (p.bodies_from ≡ places.bodies_from p.counts) × (p.constraints_from ≡ places.constraints_from p.counts) × (p.bounds_from ≡ places.bounds_from p.counts) × (p.count ≡ places.places_of p.counts) };
}

impl Places {
    /// The places of the literals of so many atoms, bodies, constraints and variables.
    pub fn new(counts: Counts) -> Places
        ensures { result ≡ counts }
    {
        let bodies_from = 2 * (counts.atoms as usize + 1);
        let constraints_from = bodies_from + 2 * (counts.bodies as usize + 1);
        let bounds_from = constraints_from + 2 * (counts.constraints as usize + 1);
        let count = bounds_from + 2 * (counts.variables as usize + 1);
        Places {
            counts,
            bodies_from,
            constraints_from,
            bounds_from,
            count,
        }
    }

    /// How many places there are.
    #[inline]
    pub fn count(&self) -> usize
        ensures { result ≡ places_of self.now }
    {
        self.count
    }

    /// The place of the literal, counted from 0. O(1).
    #[inline]
    #[tactic(auto, using(crate::proofs::PlaceLaws::place_within, crate::proofs::PlaceLaws::places_same))]
    pub fn place(&self, lit: Lit) -> usize
        requires { IsCounted self.now lit }
        ensures value { result ≡ place_of self.now lit }
        ensures within { result < places_of self.now }
        ensures one { (other : Lit) → IsCounted self.now other → (result == place_of self.now other) ≡ same_place lit other }
    {
        match lit {
            Lit::Atom(n, sign) => 2 * n as usize + usize::from(!sign),
            Lit::Body(n, sign) => self.bodies_from + (2 * n as usize + usize::from(!sign)),
            Lit::Constraint(n, sign) => self.constraints_from
                + (2 * n as usize + usize::from(!sign)),
            Lit::AtMost(x, _) => self.bounds_from + 2 * x as usize,
            Lit::AtLeast(x, _) => self.bounds_from + (2 * x as usize + 1),
        }
    }
}
