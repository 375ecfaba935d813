// The loop nogood of a set.
ghost use Rattle.std.specs.Prelude.{◌≡◌, ◌<◌, ◌≤◌, [], ◌∷◌, true, not, length, MatchOption, IfOk};
ghost use Rattle.std.specs.List.{AllByRecursion, list_any};
ghost use Rattle.literals.specs.declared.lit.Lit.TheVariants.{Atom};
ghost use Rattle.ground_model.specs.Answers.{IsNumbered};
ghost use Rattle.completion.specs.Inputs.{all_false};
ghost use Rattle.unfounded_sets.specs.Dependence.{row_of, is_outer};
ghost use Rattle.unfounded_sets.specs.inner.Outer.{is_left, outer_bodies, loop_reason, IsNamed};

use crate::flags::has_flag;
use crate::rows::Rows;
use crate::truth::is_true;
use linear_normal::Support;
use literals::{Lit, Nogood, Reason, Step};
use std::alloc::Global;
use symbols::{Listed, Memory};
use trail::Trail;

// An atom of the set that is true, or its first one where none is.
pub(crate) fn named_atom(set: &[u32], trail: &Trail) -> Option<u32>
    requires { AllByRecursion (IsNumbered trail.now.shape.atoms) set.now }
    ensures { MatchOption result (set.now ≡ []) (λ atom. IsNamed trail.now set.now atom) }
{
    for atom in set {
        if is_true(trail, Lit::Atom(*atom, true)) {
            return Some(*atom);
        }
    }
    match set.first() {
        Some(atom) => Some(*atom),
        None => None,
    }
}

// Whether all of these atoms have a flag.
fn has_all(given: &[bool], atoms: &[u32]) -> bool
    requires { AllByRecursion (λ a. a < length given.now) atoms.now }
    ensures { result ≡ not (list_any (is_left given.now) atoms.now) }
{
    for atom in atoms {
        if !has_flag(given, *atom) {
            return false;
        }
    }
    true
}

// Whether the support gives an atom without a flag by a body whose positive atoms all have one.
fn is_outer_support(bodies: &Rows, given: &[bool], support: Support) -> bool
    requires atom { support.atom < length given.now }
    requires body { IsNumbered (length bodies.now) support.body }
    requires row { AllByRecursion (λ a. a < length given.now) (row_of bodies.now support.body) }
    ensures { result ≡ is_outer bodies.now (is_left given.now) support }
{
    if has_flag(given, support.atom) {
        return false;
    }
    has_all(given, bodies.row(support.body as usize - 1))
}

// The bodies of the supports that give an atom without a flag from outside.
pub(crate) fn outer(
    alloc: Global,
    bodies: &Rows,
    supports: &[Support],
    given: &[bool],
) -> Result<Vec<u32>, Memory>
    requires atoms { AllByRecursion (λ support. support.atom < length given.now) supports.now }
    requires known { AllByRecursion (λ support. IsNumbered (length bodies.now) support.body) supports.now }
    requires rows { AllByRecursion (AllByRecursion (λ a. a < length given.now)) bodies.now }
    ensures { IfOk result (λ found. found.items ≡ outer_bodies bodies.now (is_left given.now) supports.now) }
{
    let mut found = Vec::new(alloc);
    for support in supports {
        if is_outer_support(bodies, given, *support) {
            found.push(support.body)?;
        }
    }
    Ok(found)
}

// The loop nogood of the atom by these bodies.
pub(crate) fn make_reason(
    alloc: Global,
    set: Vec<u32>,
    atom: u32,
    bodies: &[u32],
) -> Result<Reason, Memory>
    requires atom { 1 ≤ atom }
    requires bodies { AllByRecursion (λ body. 1 ≤ body) bodies.now }
    ensures { IfOk result (λ reason. reason ≡ loop_reason set.items atom bodies.now) }
{
    let lits = loop_lits(alloc, atom, bodies)?;
    let nogood = Nogood::from_lits(alloc, &lits)?;
    Ok(Reason {
        nogood,
        step: Step::Loop(Listed::from_vec(set)),
    })
}

// That the atom is true and the bodies are false.
fn loop_lits(alloc: Global, atom: u32, bodies: &[u32]) -> Result<Vec<Lit>, Memory>
    ensures { IfOk result (λ lits. lits.items ≡ Atom atom true ∷ all_false bodies.now) }
{
    let mut lits = Vec::new(alloc);
    lits.push(Lit::Atom(atom, true))?;
    for body in bodies {
        lits.push(Lit::Body(*body, false))?;
    }
    Ok(lits)
}
