// Whether an answer is a constraint stable model.
ghost use Rattle.std.specs.Prelude.{◌≡◌, ◌↔◌, ◌<◌, ◌+◌, ◌-◌, ◌≤◌, ◌^◌, ℕ, false, nat_le, int_le, ◌&&◌, length, slice_index_or, IsTrue, IfOk, vec_len};
ghost use Rattle.std.specs.List.{AllByRecursion, list_all};
ghost use Rattle.ground_model.specs.Answers.{ascend_from, has_atom, IsValuation, IsAnswerOf};
ghost use Rattle.ground_model.specs.inner.Agreement.{are_within, is_shaped as is_shaped_test, IsStableCandidate, Agree};
ghost use Rattle.ground_model.specs.Duties.{IsStableByTests};
ghost use Rattle.ground_model.specs.World.{world_by};

use crate::answer::Answer;
use crate::duties::rules_hold;
use crate::program::GroundProgram;
use crate::reduct::reduct;
use definite_rules::least_model;
use std::alloc::Global;
use symbols::{Ends, Memory};

/// Whether an answer is a constraint stable model of a program.
///
/// The least model of the reduct (Gelfond and Lifschitz) is computed by counts of unmet atoms (Dowling and
/// Gallier), and sums are plain sums: it takes time linear in the ways in which rules can give atoms, and
/// for the tuples of a `&disjoint` that of sorting them.
pub fn is_answer(alloc: Global, program: &GroundProgram, answer: &Answer) -> Result<bool, Memory>
    ensures { IfOk result (λ yes. IsTrue yes ↔ IsAnswerOf program.now answer.now) }
{
    if !is_shaped(program, answer) {
        return Ok(false);
    }
    let flags = atom_flags(alloc, program.atoms.len(), answer.atoms.items())?;
    is_stable(alloc, program, &flags, answer.values.items())
}

// Whether the atoms ascend and are the program's, and each variable has one value within the ends.
fn is_shaped(program: &GroundProgram, answer: &Answer) -> bool
    ensures { result ≡ is_shaped_test program.now answer.now }
{
    ascend(answer.atoms.items())
        && are_known_atoms(answer.atoms.items(), program.atoms.len())
        && answer.values.len() == program.variables.len()
        && lie_within(program.ends, answer.values.items())
}

// Whether each number is above those before it.
fn ascend(numbers: &[u32]) -> bool
    ensures { result ≡ ascend_from 0 numbers.now }
{
    let mut last = 0;
    for number in numbers {
        if *number <= last {
            return false;
        }
        last = *number;
    }
    true
}

// Whether each number is at most the last one.
fn are_known_atoms(numbers: &[u32], last: usize) -> bool
    ensures { result ≡ list_all (λ n. nat_le n last) numbers.now }
{
    numbers.iter().all(|number| *number as usize <= last)
}

// Whether each value lies within the ends.
fn lie_within(ends: Ends, values: &[i32]) -> bool
    ensures { result ≡ are_within ends values.now }
{
    values
        .iter()
        .all(|value| ends.min <= *value && *value <= ends.max)
}

// The flags of the atoms up to the last one, that of atom n at place n.
#[tactic(auto, using(crate::proofs::CheckLemmas::flags_end, crate::proofs::CheckLemmas::flags_step))]
fn atom_flags(alloc: Global, last: usize, atoms: &[u32]) -> Result<Vec<bool>, Memory>
    requires atoms { AllByRecursion (λ a. a ≤ last) atoms.now }
    requires fits { last + 1 < 2 ^ 64 }
    ensures size { IfOk result (λ flags. length flags.items ≡ last + 1) }
    ensures flags { IfOk result (λ flags. (a : ℕ) → slice_index_or flags.items a false ≡ has_atom atoms.now a) }
{
    let mut flags = vec![in alloc; false; last + 1]?;
    for atom in atoms {
        flags[*atom as usize] = true;
    }
    Ok(flags)
}

// Whether each flag is the one behind its place among the others.
fn agree(least: &[bool], flags: &[bool]) -> bool
    requires { length flags.now ≡ length least.now + 1 }
    ensures { IsTrue result ↔ Agree least.now flags.now }
{
    for at in 0..least.len() {
        if least[at] != flags[at + 1] {
            return false;
        }
    }
    true
}

// Whether the flagged atoms are a stable model of the rules.
fn is_stable(
    alloc: Global,
    program: &GroundProgram,
    flags: &[bool],
    values: &[i32],
) -> Result<bool, Memory>
    requires { IsStableCandidate program.now flags.now values.now }
    ensures { IfOk result (λ yes. IsTrue yes ↔ IsStableByTests program.now.rules (world_by flags.now values.now)) }
{
    let rules = reduct(alloc, program.rules.items(), flags, values)?;
    let least = least_model(alloc, program.atoms.len(), &rules)?;
    if !agree(least.items(), flags) {
        return Ok(false);
    }
    rules_hold(alloc, program.rules.items(), flags, values)
}
