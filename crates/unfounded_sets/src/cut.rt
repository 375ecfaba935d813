// The loop nogood of the lost atoms of one component, where they are an unfounded set.
ghost use Rattle.std.specs.Prelude.{◌≡◌, ◌+◌, ◌≤◌, true, false, length, vec_len, IsTrue, IfOk, IfSome};
ghost use Rattle.std.specs.List.{AllByRecursion};
ghost use Rattle.literals.specs.declared.lit.Lit.TheVariants.{Atom, Body};
ghost use Rattle.ground_model.specs.Answers.{IsNumbered};
ghost use Rattle.trail.specs.Assignment.{is_true_on};
ghost use Rattle.unfounded_sets.specs.Dependence.{Fits};
ghost use Rattle.unfounded_sets.specs.Loops.{IsLoop};
ghost use Rattle.unfounded_sets.specs.inner.Outer.{IsWhole, of_parts};

use crate::flags::left;
use crate::groups::Groups;
use crate::reason::{make_reason, named_atom, outer};
use crate::rows::Rows;
use crate::sources::{is_lost, is_true_atom};
use crate::table::at;
use crate::truth::is_true;
use linear_normal::Support;
use literals::{Lit, Reason};
use std::alloc::Global;
use symbols::Memory;
use trail::Trail;

// The component of a lost atom that is true, or of the last lost one; 0 where none is lost.
fn lost_level(atoms: u32, bodies: usize, groups: &Groups, source: &[u32], trail: &Trail) -> u32
    requires atoms { atoms ≤ trail.now.shape.atoms }
    requires bodies { bodies ≤ trail.now.shape.bodies }
{
    let mut found = 0;
    for atom in &groups.cyclic {
        if !is_lost(atoms, bodies, source, *atom, trail) {
            continue;
        }
        found = at(&groups.level, *atom);
        if is_true_atom(atoms, *atom, trail) {
            return found;
        }
    }
    found
}

// Takes the flag of an atom away.
fn unflag(given: &mut [bool], atom: u32) {
    let place = atom as usize;
    if place < given.len() {
        given[place] = false;
    }
}

// Flags all atoms but the lost ones of one component.
pub(crate) fn all_but_lost(
    alloc: Global,
    atoms: u32,
    bodies: usize,
    groups: &Groups,
    source: &[u32],
    trail: &Trail,
) -> Result<Vec<bool>, Memory>
    requires atoms { atoms ≤ trail.now.shape.atoms }
    requires bodies { bodies ≤ trail.now.shape.bodies }
    ensures { IfOk result (λ given. vec_len given ≡ atoms + 1) }
{
    let mut given = vec![in alloc; true; atoms as usize + 1]?;
    let level = lost_level(atoms, bodies, groups, source, trail);
    for atom in &groups.cyclic {
        if at(&groups.level, *atom) == level && is_lost(atoms, bodies, source, *atom, trail) {
            unflag(&mut given, *atom);
        }
    }
    Ok(given)
}

// Whether none of the atoms is false.
fn are_open(set: &[u32], trail: &Trail) -> bool
    requires { AllByRecursion (IsNumbered trail.now.shape.atoms) set.now }
    ensures { IsTrue result → AllByRecursion (λ a. is_true_on trail.now (Atom a false) ≡ false) set.now }
{
    for atom in set {
        if is_true(trail, Lit::Atom(*atom, false)) {
            return false;
        }
    }
    true
}

// Whether all of the bodies are false.
fn are_false(bodies: &[u32], trail: &Trail) -> bool
    requires { AllByRecursion (IsNumbered trail.now.shape.bodies) bodies.now }
    ensures { IsTrue result → AllByRecursion (λ b. is_true_on trail.now (Body b false) ≡ true) bodies.now }
{
    for body in bodies {
        if !is_true(trail, Lit::Body(*body, false)) {
            return false;
        }
    }
    true
}

// The loop nogood of the atoms without a flag, if none of them is false and all supports from outside are.
pub(crate) fn cut_loop(
    alloc: Global,
    atoms: u32,
    bodies: &Rows,
    supports: &[Support],
    given: &[bool],
    trail: &Trail,
) -> Result<Option<Reason>, Memory>
    requires fits { Fits (of_parts atoms bodies.now supports.now) trail.now.shape }
    requires whole { IsWhole (of_parts atoms bodies.now supports.now) }
    requires length { length given.now ≡ atoms + 1 }
    ensures { IfOk result (λ found. IfSome found (IsLoop (of_parts atoms bodies.now supports.now) trail.now)) }
{
    let set = left(alloc, given)?;
    let Some(atom) = named_atom(&set, trail) else {
        return Ok(None);
    };
    let outside = outer(alloc, bodies, supports, given)?;
    if !are_open(&set, trail) {
        return Ok(None);
    }
    if !are_false(&outside, trail) {
        return Ok(None);
    }
    let reason = make_reason(alloc, set, atom, &outside)?;
    Ok(Some(reason))
}
