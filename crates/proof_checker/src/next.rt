// The state after a line.
ghost use Rattle.std.specs.Prelude.{◌≡◌, ◌∷◌, ◌++◌, [], true, false, Some, OnOk, OnErr, IfOk};
ghost use Rattle.std.specs.List.{filter};
ghost use Rattle.literals.specs.Nogoods.{IsNogood};
ghost use Rattle.ground_model.specs.Answers.{IsAnswerOf};
ghost use Rattle.derivation.specs.Lists.{lits_of};
ghost use Rattle.derivation_meaning.specs.Lines as spec;
ghost use Rattle.derivation_meaning.specs.Valid as valid;
ghost use Rattle.derivation_meaning.specs.Valid.{IsValid};
ghost use Rattle.proof_checker.specs.inner.View.{state_of};

use crate::answers::answer_of;
use crate::state::{Costed, PlainState};
use derivation::Line;
use derivation_meaning::{Claim, answer_nogood};
use ground_model::{Answer, GroundProgram};
use literals::{Lit, Nogood};
use std::alloc::Global;
use symbols::{Listed, Memory};

// Adds a nogood under the next id.
#[tactic(auto, using(crate::proofs::NextLemmas::more_view))]
fn add(
    state: &mut PlainState,
    nogood: Nogood,
    is_held: bool,
    is_learned: bool,
) -> Result<(), Memory>
    ensures ok { OnOk result (state_of state.new ≡ valid.with_nogood (state_of state.old) nogood is_held is_learned) }
    ensures err { OnErr result (state.new ≡ state.old) }
{
    state.table.add(nogood, is_held, is_learned)?;
    Ok(())
}

// The nogood of a list that is one.
#[tactic(auto, using(crate::proofs::ReplayLemmas::canonical_same))]
fn nogood_of(alloc: Global, lits: &[Lit]) -> Result<Nogood, Memory>
    requires { IsNogood lits.now }
    ensures { IfOk result (λ nogood. nogood ≡ lits.now) }
{
    Nogood::from_lits(alloc, lits)
}

// Takes a reason.
fn take_reason(alloc: Global, state: &mut PlainState, lits: &[Lit]) -> Result<(), Memory>
    requires { IsNogood lits.now }
    ensures ok { OnOk result (state_of state.new ≡ valid.with_nogood (state_of state.old) lits.now false false) }
    ensures err { OnErr result (state.new ≡ state.old) }
{
    let nogood = nogood_of(alloc, lits)?;
    add(state, nogood, false, false)
}

// Takes a learned nogood.
#[tactic(auto, using(crate::proofs::NextLemmas::learned_taken))]
fn take_learned(alloc: Global, state: &mut PlainState, lits: &[Lit]) -> Result<(), Memory>
    requires { IsNogood lits.now }
    ensures ok { OnOk result (state_of state.new ≡ valid.with_nogood (valid.held_alone (state_of state.old)) lits.now true true) }
    ensures err { OnErr result (state.new ≡ state.old) }
{
    let nogood = nogood_of(alloc, lits)?;
    add(state, nogood, true, true)?;
    state.table.settle();
    Ok(())
}

// Takes an answer with the nogood that it leaves.
#[tactic(auto, using(crate::proofs::NextLemmas::take_front))]
fn list(state: &mut PlainState, answer: Answer, nogood: Nogood) -> Result<(), Memory>
    ensures ok { OnOk result (state_of state.new ≡ record (valid.with_nogood (state_of state.old) nogood true false) { answers = state.old.answers ++ answer ∷ [] }) }
    ensures err { OnErr result (state.new ≡ state.old) }
{
    let count = state.answers.len();
    state.answers.push(answer)?;
    if add(state, nogood, true, false).is_err() {
        state.answers.truncate(count);
        return Err(Memory);
    }
    Ok(())
}

// Takes an answer.
fn take_answer(
    alloc: Global,
    program: &GroundProgram,
    state: &mut PlainState,
    atoms: &Listed<u32>,
    values: &Listed<(u32, i32)>,
) -> Result<(), Memory>
    requires { IsAnswerOf program.now (spec.answer_of atoms.now values.now) }
    ensures ok { OnOk result (state_of state.new ≡ valid.with_answer program.now (state_of state.old) (spec.answer_of atoms.now values.now)) }
    ensures err { OnErr result (state.new ≡ state.old) }
{
    let answer = answer_of(alloc, atoms.items(), values.items())?;
    let nogood = answer_nogood(alloc, program, &answer)?;
    list(state, answer, nogood)
}

// Takes another best answer.
fn take_best(
    alloc: Global,
    state: &mut PlainState,
    cost: &i128,
    atoms: &Listed<u32>,
    values: &Listed<(u32, i32)>,
) -> Result<(), Memory>
    ensures ok { OnOk result (state_of state.new ≡ record (state_of state.old) { best = Some (record { cost = cost.now; answer = spec.answer_of atoms.now values.now }) }) }
    ensures err { OnErr result (state.new ≡ state.old) }
{
    let answer = answer_of(alloc, atoms.items(), values.items())?;
    state.best = Some(Costed {
        cost: *cost,
        answer,
    });
    Ok(())
}

// Takes a claim.
fn take_claim(state: &mut PlainState, claim: Claim)
    ensures { state_of state.new ≡ record (state_of state.old) { claim = Some claim } }
{
    state.claim = Some(claim);
}

// Takes a valid line. Where memory can't be had, the state is as it was.
//
// An answer takes the time of the program's atoms and variables; a learned nogood that of its own length and of
// those that go; any other line that of its own length.
#[tactic(auto, using(crate::proofs::NextLemmas::answer_stands))]
pub(crate) fn advance(
    alloc: Global,
    program: &GroundProgram,
    state: &mut PlainState,
    line: &Line,
) -> Result<(), Memory>
    requires literals { IsNogood (lits_of line.now) }
    requires valid { IsValid program.now (state_of state.old) line.now }
    ensures ok { OnOk result (state_of state.new ≡ valid.after program.now (state_of state.old) line.now) }
    ensures err { OnErr result (state.new ≡ state.old) }
{
    match line {
        Line::Header(_, _, _, _) => Ok(()),
        Line::Sum(_, lits)
        | Line::Distinct(_, _, _, lits)
        | Line::Window(_, _, _, lits)
        | Line::Pair(_, _, _, lits)
        | Line::Loop(_, lits)
        | Line::Hole(_, lits) => take_reason(alloc, state, lits.items()),
        Line::Learned(_, _, lits) => take_learned(alloc, state, lits.items()),
        Line::Answer(atoms, values) => take_answer(alloc, program, state, atoms, values),
        Line::Better(cost, atoms, values) => take_best(alloc, state, cost, atoms, values),
        Line::EndNone => {
            take_claim(state, Claim::Nothing);
            Ok(())
        }
        Line::EndAll(count) => {
            take_claim(state, Claim::All(*count));
            Ok(())
        }
        Line::EndBest(cost) => {
            take_claim(state, Claim::Best(*cost));
            Ok(())
        }
    }
}
