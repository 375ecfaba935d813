// The first open literal, where all are looked at.
ghost use Rattle.std.specs.Prelude.{◌≡◌, ◌≤◌, ℕ, true, IfSome, IsTrue, is_some, None};
ghost use Rattle.literals.specs.declared.lit.Lit.TheVariants.{Atom, Body, Constraint};
ghost use Rattle.trail.specs.Assignment.{truth_on, lower_on, upper_on};
ghost use Rattle.trail_worlds.specs.Total.{IsTotal};
ghost use Rattle.decisions.specs.Open.{IsOpen};

use crate::split::split;
use literals::Lit;
use trail::Trail;

fn open_atom(trail: &Trail) -> Option<Lit>
    ensures some { IfSome result (IsOpen trail.now) }
    ensures none { result ≡ None → (n : ℕ) → 1 ≤ n → n ≤ trail.now.shape.atoms → IsTrue (is_some (truth_on trail.now (Atom n true))) }
{
    for at in 0..trail.shape().atoms {
        let lit = Lit::Atom(at + 1, true);
        if trail.truth(lit).is_none() {
            return Some(lit);
        }
    }
    None
}

fn open_body(trail: &Trail) -> Option<Lit>
    ensures some { IfSome result (IsOpen trail.now) }
    ensures none { result ≡ None → (n : ℕ) → 1 ≤ n → n ≤ trail.now.shape.bodies → IsTrue (is_some (truth_on trail.now (Body n true))) }
{
    for at in 0..trail.shape().bodies {
        let lit = Lit::Body(at + 1, true);
        if trail.truth(lit).is_none() {
            return Some(lit);
        }
    }
    None
}

fn open_constraint(trail: &Trail) -> Option<Lit>
    ensures some { IfSome result (IsOpen trail.now) }
    ensures none { result ≡ None → (n : ℕ) → 1 ≤ n → n ≤ trail.now.shape.constraints → IsTrue (is_some (truth_on trail.now (Constraint n true))) }
{
    for at in 0..trail.shape().constraints {
        let lit = Lit::Constraint(at + 1, true);
        if trail.truth(lit).is_none() {
            return Some(lit);
        }
    }
    None
}

fn open_variable(trail: &Trail) -> Option<Lit>
    ensures some { IfSome result (IsOpen trail.now) }
    ensures none { result ≡ None → (x : ℕ) → 1 ≤ x → x ≤ trail.now.shape.variables → lower_on trail.now x ≡ upper_on trail.now x }
{
    for at in 0..trail.shape().variables {
        if let Some(lit) = split(trail, at + 1, None) {
            return Some(lit);
        }
    }
    None
}

fn open_other(trail: &Trail) -> Option<Lit>
    ensures some { IfSome result (IsOpen trail.now) }
    ensures constraints { result ≡ None → (n : ℕ) → 1 ≤ n → n ≤ trail.now.shape.constraints → IsTrue (is_some (truth_on trail.now (Constraint n true))) }
    ensures variables { result ≡ None → (x : ℕ) → 1 ≤ x → x ≤ trail.now.shape.variables → lower_on trail.now x ≡ upper_on trail.now x }
{
    match open_constraint(trail) {
        Some(lit) => Some(lit),
        None => open_variable(trail),
    }
}

fn open_truth(trail: &Trail) -> Option<Lit>
    ensures some { IfSome result (IsOpen trail.now) }
    ensures atoms { result ≡ None → (n : ℕ) → 1 ≤ n → n ≤ trail.now.shape.atoms → IsTrue (is_some (truth_on trail.now (Atom n true))) }
    ensures bodies { result ≡ None → (n : ℕ) → 1 ≤ n → n ≤ trail.now.shape.bodies → IsTrue (is_some (truth_on trail.now (Body n true))) }
{
    match open_atom(trail) {
        Some(lit) => Some(lit),
        None => open_body(trail),
    }
}

/// The first open literal, of atoms, bodies, constraints and then variables, if not all is decided.
pub(crate) fn open_literal(trail: &Trail) -> Option<Lit>
    ensures some { IfSome result (IsOpen trail.now) }
    ensures none { result ≡ None → IsTotal trail.now }
{
    match open_truth(trail) {
        Some(lit) => Some(lit),
        None => open_other(trail),
    }
}
