// The nogood that an answer leaves.
ghost use Rattle.std.specs.Prelude.{◌≡◌, ◌+◌, ◌-◌, ◌++◌, ◌<◌, ◌^◌, true, drop, length, map, IsTrue, OnOk, IfOk};
ghost use Rattle.std.specs.List.{flat_map, range_with_len};
ghost use Rattle.ground_model.specs.Answers as answers;
ghost use Rattle.ground_model.specs.Answers.{IsValuation, ascend_from};
ghost use Rattle.literals.specs.declared.lit.Lit.TheVariants as l;
ghost use Rattle.derivation_meaning.specs.Lines as spec;
ghost use Rattle.derivation_meaning.specs.Lines.{value_lits};

use ground_model::{Answer, GroundProgram};
use literals::{Lit, Nogood};
use std::alloc::Global;
use symbols::{Listed, Memory};

// Whether the atom is the next of these, all of which are this one or above it.
#[tactic(auto, using(crate::proofs::ExcludingLemmas::next_is, crate::proofs::ExcludingLemmas::none_is_next))]
fn is_next(atoms: &[u32], next: usize, atom: u32) -> bool
    requires { ascend_from (atom - 1) (drop next atoms.now) ≡ true }
    ensures value { result ≡ answers.has_atom (drop next atoms.now) atom }
    ensures there { IsTrue result → next < length atoms.now }
{
    next < atoms.len() && atoms[next] == atom
}

// For each of so many atoms whether it is among these. It goes once over both.
fn atom_lits(alloc: Global, atoms: &[u32], count: usize) -> Result<Listed<Lit>, Memory>
    requires few { count < 2 ^ 32 }
    requires ascending { ascend_from 0 atoms.now ≡ true }
    ensures { IfOk result (λ lits. lits ≡ map (λ a. l.Atom a (answers.has_atom atoms.now a)) (range_with_len 1 count)) }
{
    let mut lits = Listed::new(alloc);
    let mut next = 0;
    for at in 0..count {
        let atom = at as u32 + 1;
        let is_true = is_next(atoms, next, atom);
        lits.push(Lit::Atom(atom, is_true))?;
        next += usize::from(is_true);
    }
    Ok(lits)
}

// Adds the two bounds between which a variable has its value alone.
fn add_value(lits: &mut Listed<Lit>, answer: &Answer, at: usize) -> Result<(), Memory>
    requires at { at < length answer.now.values }
    requires few { length answer.now.values < 2 ^ 32 }
    ensures { OnOk result (lits.new ≡ lits.old ++ value_lits answer.now (at + 1)) }
{
    let variable = at as u32 + 1;
    let value = answer.values.items()[at];
    lits.push(Lit::AtMost(variable, value))?;
    lits.push(Lit::AtLeast(variable, value))?;
    Ok(())
}

// Adds these bounds of each variable.
fn add_values(lits: &mut Listed<Lit>, answer: &Answer) -> Result<(), Memory>
    requires { length answer.now.values < 2 ^ 32 }
    ensures { OnOk result (lits.new ≡ lits.old ++ flat_map (value_lits answer.now) (range_with_len 1 (length answer.now.values))) }
{
    for at in 0..answer.values.len() {
        add_value(lits, answer, at)?;
    }
    Ok(())
}

// What is true in the answer, for every atom and every variable.
fn answer_lits(
    alloc: Global,
    program: &GroundProgram,
    answer: &Answer,
) -> Result<Listed<Lit>, Memory>
    requires ascending { ascend_from 0 answer.now.atoms ≡ true }
    requires valuation { IsValuation program.now answer.now.values }
    ensures { IfOk result (λ lits. lits ≡ spec.answer_nogood program.now answer.now) }
{
    let mut lits = atom_lits(alloc, answer.atoms.items(), program.atoms.len())?;
    add_values(&mut lits, answer)?;
    Ok(lits)
}

/// The nogood that an answer leaves: what is true in it, for every atom and every variable.
///
/// It goes once over the program's atoms and variables.
#[tactic(auto, using(crate::proofs::ExcludingLemmas::answer_literals, crate::proofs::ExcludingLemmas::answer_canonical))]
pub fn answer_nogood(
    alloc: Global,
    program: &GroundProgram,
    answer: &Answer,
) -> Result<Nogood, Memory>
    requires ascending { ascend_from 0 answer.now.atoms ≡ true }
    requires valuation { IsValuation program.now answer.now.values }
    ensures { IfOk result (λ nogood. nogood ≡ spec.answer_nogood program.now answer.now) }
{
    let lits = answer_lits(alloc, program, answer)?;
    Nogood::from_lits(alloc, lits.items())
}
