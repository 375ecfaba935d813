// Atoms that are supported only by each other.
ghost use Rattle.std.specs.Prelude.{◌≡◌, not, ◌||◌, true, false};
ghost use Rattle.std.specs.List.{list_all, list_any};
ghost use Rattle.literals.specs.declared.lit.Lit.TheVariants as l;
ghost use Rattle.literals.specs.Nogoods.{has_lit};
ghost use Rattle.linear_normal.specs.Steps as spec;
ghost use Rattle.linear_normal.specs.Truth as truth;

use crate::named::{is_one_of, numbered_in};
use ground_model::GroundProgram;
use linear_normal::{Conjunction, Numbered, Support};
use literals::{Lit, has};

// Whether the number is among these.
fn is_among(set: &[u32], atom: u32) -> bool
    ensures { result ≡ spec.is_among set.now atom }
{
    set.iter().any(|other| *other == atom)
}

// Whether the literal is that an atom of the set is true.
fn is_atom_of(set: &[u32], lit: Lit) -> bool
    ensures { result ≡ spec.is_atom_of set.now lit }
{
    match lit {
        Lit::Atom(atom, true) => is_among(set, atom),
        _ => false,
    }
}

// Whether one of the literals is that an atom of the set is true.
fn has_atom_of(set: &[u32], lits: &[Lit]) -> bool
    ensures { result ≡ list_any (spec.is_atom_of set.now) lits.now }
{
    lits.iter().any(|lit| is_atom_of(set, *lit))
}

// Whether the body of that number has a positive atom of the set.
fn leans_on(set: &[u32], bodies: &[Conjunction], body: u32) -> bool
    ensures { result ≡ spec.leans_on set.now (truth.numbered_in bodies.now body) }
{
    match numbered_in(bodies, body) {
        Some(conjunction) => has_atom_of(set, conjunction.lits.items()),
        None => false,
    }
}

// Whether the support gives an atom of the set by a body that has no positive atom of it.
fn is_external(numbered: &Numbered, set: &[u32], support: Support) -> bool
    ensures { result ≡ spec.is_external numbered.now set.now support }
{
    is_among(set, support.atom) && !leans_on(set, numbered.bodies.items(), support.body)
}

// Whether each is the number of an atom.
fn are_atoms(last: usize, set: &[u32]) -> bool
    ensures { result ≡ list_all (spec.is_one_of last) set.now }
{
    set.iter().all(|atom| is_one_of(last, *atom))
}

// Whether an atom of the set is listed true.
fn has_true_atom(lits: &[Lit], set: &[u32]) -> bool
    ensures { result ≡ list_any (λ a. has_lit lits.now (l.Atom a true)) set.now }
{
    set.iter().any(|atom| has(lits, Lit::Atom(*atom, true)))
}

// Whether the support's body is listed false, where it supports from outside.
fn is_closed(numbered: &Numbered, lits: &[Lit], set: &[u32], support: Support) -> bool
    ensures { result ≡ (not (spec.is_external numbered.now set.now support) || has_lit lits.now (l.Body support.body false)) }
{
    !is_external(numbered, set, support) || has(lits, Lit::Body(support.body, false))
}

// Whether each body that supports an atom of the set from outside is listed false.
fn are_closed(numbered: &Numbered, lits: &[Lit], set: &[u32]) -> bool
    ensures { result ≡ list_all (λ support. not (spec.is_external numbered.now set.now support) || has_lit lits.now (l.Body support.body false)) numbered.now.supports }
{
    numbered
        .supports
        .items()
        .iter()
        .all(|support| is_closed(numbered, lits, set, *support))
}

// Whether an atom of the set is listed true, and each body that supports one from outside false.
pub(crate) fn is_loop(
    program: &GroundProgram,
    numbered: &Numbered,
    lits: &[Lit],
    set: &[u32],
) -> bool
    ensures { result ≡ spec.is_loop program.now numbered.now lits.now set.now }
{
    are_atoms(program.atoms.len(), set)
        && has_true_atom(lits, set)
        && are_closed(numbered, lits, set)
}
