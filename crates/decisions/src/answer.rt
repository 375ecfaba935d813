// The answer of a trail.
ghost use Rattle.std.specs.Prelude.{◌≡◌, ◌≤◌, ◌++◌, true, map, IfOk, OnOk};
ghost use Rattle.std.specs.List.{filter, range_with_len};
ghost use Rattle.literals.specs.declared.lit.Lit.TheVariants.{Atom};
ghost use Rattle.trail.specs.Assignment.{is_true_on, lower_on};
ghost use Rattle.trail_worlds.specs.Worlds.{answer_on};
ghost use Rattle.decisions.specs.inner.Taken.{one_if};

use ground_model::Answer;
use literals::Lit;
use std::alloc::Global;
use symbols::{Listed, Memory};
use trail::Trail;

// Adds the atom if it is true on the trail.
fn put_true(atoms: &mut Listed<u32>, trail: &Trail, a: u32) -> Result<(), Memory>
    requires first { 1 ≤ a }
    requires within { a ≤ trail.now.shape.atoms }
    ensures { OnOk result (atoms.new ≡ atoms.old ++ one_if (is_true_on trail.now (Atom a true)) a) }
{
    match trail.truth(Lit::Atom(a, true)) {
        Some(true) => atoms.push(a),
        _ => Ok(()),
    }
}

// The atoms that are true on the trail.
fn true_atoms(alloc: Global, trail: &Trail) -> Result<Listed<u32>, Memory>
    ensures { IfOk result (λ atoms. atoms ≡ filter (λ a. is_true_on trail.now (Atom a true)) (range_with_len 1 trail.now.shape.atoms)) }
{
    let mut atoms = Listed::new(alloc);
    for at in 0..trail.shape().atoms {
        put_true(&mut atoms, trail, at + 1)?;
    }
    Ok(atoms)
}

// The least value of each variable on the trail.
fn least_values(alloc: Global, trail: &Trail) -> Result<Listed<i32>, Memory>
    ensures { IfOk result (λ values. values ≡ map (λ x. lower_on trail.now x) (range_with_len 1 trail.now.shape.variables)) }
{
    let mut values = Listed::new(alloc);
    for at in 0..trail.shape().variables {
        values.push(trail.lower(at + 1))?;
    }
    Ok(values)
}

/// The trail's answer: its true atoms, and the least value of each variable. It costs the atoms and the variables.
pub fn answer_of(alloc: Global, trail: &Trail) -> Result<Answer, Memory>
    ensures { IfOk result (λ answer. answer ≡ answer_on trail.now) }
{
    let atoms = true_atoms(alloc, trail)?;
    let values = least_values(alloc, trail)?;
    Ok(Answer { atoms, values })
}
