// The first cause for which a line is refused.
ghost use Rattle.std.specs.Prelude.{◌≡◌, ◌↔◌, None, IfErr, IfOk, IsTrue, OnOk};
ghost use Rattle.literals.specs.Nogoods.{IsNogood};
ghost use Rattle.linear_normal.specs.Numbering.{numbering};
ghost use Rattle.derivation.specs.Lists.{lits_of};
ghost use Rattle.derivation.specs.declared.line.Line.TheVariants as l;
ghost use Rattle.derivation_meaning.specs.Valid.{IsBetterAnswer, IsLearned, IsNewAnswer, IsValid};
ghost use Rattle.proof_checker.specs.Checking.{IsRefusedFor};
ghost use Rattle.proof_checker.specs.inner.Judging.{IsChainRefused, IsRuled};
ghost use Rattle.proof_checker.specs.inner.View.{state_of};

use crate::answer_lines::{is_answer_line, is_cost_of, last_cost, names_values};
use crate::answers::{answer_of, improves, is_given};
use crate::chain::{are_live, is_learned};
use crate::lines::is_allowed;
use crate::refused::Refused;
use crate::state::PlainState;
use derivation::Line;
use ground_model::GroundProgram;
use linear_normal::Numbered;
use literals::Lit;
use std::alloc::Global;
use symbols::Memory;

// Judges an `r` line.
fn judge_chain(
    alloc: Global,
    state: &PlainState,
    id: u64,
    links: &[(Lit, u64)],
    lits: &[Lit],
) -> Result<(), Refused>
    ensures valid { OnOk result (IsLearned (state_of state.now) id links.now lits.now) }
    ensures refused { IfErr result (λ why. IsChainRefused (state_of state.now) id links.now lits.now why) }
{
    if !are_live(state, id, links) {
        return Err(Refused::UnknownId);
    }
    if !is_learned(alloc, state, id, links, lits)? {
        return Err(Refused::NotImplied);
    }
    Ok(())
}

// Judges an `m` line.
#[tactic(auto, using(crate::proofs::JudgeLemmas::answer_wrong_kind, crate::proofs::JudgeLemmas::answer_wrong, crate::proofs::JudgeLemmas::answer_repeated, crate::proofs::JudgeLemmas::answer_new))]
fn judge_answer(
    alloc: Global,
    program: &GroundProgram,
    state: &PlainState,
    atoms: &[u32],
    values: &[(u32, i32)],
) -> Result<(), Refused>
    requires { state.now.claim ≡ None }
    ensures valid { OnOk result (IsNewAnswer program.now (state_of state.now) atoms.now values.now) }
    ensures refused { IfErr result (λ why. IsRefusedFor program.now (state_of state.now) (l.Answer atoms.now values.now) why) }
{
    if program.has_objective {
        return Err(Refused::WrongObjective);
    }
    let answer = answer_of(alloc, atoms, values)?;
    if !is_answer_line(alloc, program, &answer, atoms, values)? {
        return Err(Refused::WrongAnswer);
    }
    if is_given(state.answers.items(), &answer) {
        return Err(Refused::RepeatedAnswer);
    }
    Ok(())
}

// Judges an `o` line.
#[tactic(auto, using(crate::proofs::JudgeLemmas::better_wrong_kind, crate::proofs::JudgeLemmas::unnamed_wrong, crate::proofs::JudgeLemmas::better_wrong_cost, crate::proofs::JudgeLemmas::better_no_model, crate::proofs::JudgeLemmas::better_valid))]
fn judge_better(
    alloc: Global,
    program: &GroundProgram,
    state: &PlainState,
    cost: i128,
    atoms: &[u32],
    values: &[(u32, i32)],
) -> Result<(), Refused>
    requires { state.now.claim ≡ None }
    ensures valid { OnOk result (IsBetterAnswer program.now (state_of state.now) cost atoms.now values.now) }
    ensures refused { IfErr result (λ why. IsRefusedFor program.now (state_of state.now) (l.Better cost atoms.now values.now) why) }
{
    if !program.has_objective {
        return Err(Refused::WrongObjective);
    }
    let answer = answer_of(alloc, atoms, values)?;
    if !names_values(program, &answer, values) {
        return Err(Refused::WrongAnswer);
    }
    if !is_cost_of(program, &answer, cost) || !improves(last_cost(state), cost) {
        return Err(Refused::WrongObjective);
    }
    if !is_answer_line(alloc, program, &answer, atoms, values)? {
        return Err(Refused::WrongAnswer);
    }
    Ok(())
}

// Judges a line whose rule alone decides.
#[tactic(auto, using(crate::proofs::JudgeLemmas::ruled_valid, crate::proofs::JudgeLemmas::ruled_refused))]
fn judge_rule(
    program: &GroundProgram,
    numbered: &Numbered,
    state: &PlainState,
    line: &Line,
) -> Result<(), Refused>
    requires literals { IsNogood (lits_of line.now) }
    requires numbered { numbered.now ≡ numbering program.now }
    requires unclaimed { state.now.claim ≡ None }
    requires ruled { IsRuled line.now }
    ensures valid { OnOk result (IsValid program.now (state_of state.now) line.now) }
    ensures refused { IfErr result (λ why. IsRefusedFor program.now (state_of state.now) line.now why) }
{
    if is_allowed(program, numbered, state, line) {
        Ok(())
    } else {
        Err(Refused::NotImplied)
    }
}

// Judges a line: it is valid, or refused for the first cause that stands.
#[tactic(auto, using(crate::proofs::JudgeLemmas::after_end))]
pub(crate) fn judge(
    alloc: Global,
    program: &GroundProgram,
    numbered: &Numbered,
    state: &PlainState,
    line: &Line,
) -> Result<(), Refused>
    requires literals { IsNogood (lits_of line.now) }
    requires numbered { numbered.now ≡ numbering program.now }
    ensures valid { OnOk result (IsValid program.now (state_of state.now) line.now) }
    ensures refused { IfErr result (λ why. IsRefusedFor program.now (state_of state.now) line.now why) }
{
    if state.claim.is_some() {
        return Err(Refused::AfterEnd);
    }
    match line {
        Line::Learned(id, links, lits) => {
            judge_chain(alloc, state, *id, links.items(), lits.items())
        }
        Line::Answer(atoms, values) => {
            judge_answer(alloc, program, state, atoms.items(), values.items())
        }
        Line::Better(cost, atoms, values) => {
            judge_better(alloc, program, state, *cost, atoms.items(), values.items())
        }
        Line::Header(..)
        | Line::Sum(..)
        | Line::Distinct(..)
        | Line::Window(..)
        | Line::Pair(..)
        | Line::Loop(..)
        | Line::Hole(..)
        | Line::EndNone
        | Line::EndAll(_)
        | Line::EndBest(_) => judge_rule(program, numbered, state, line),
    }
}

// Whether the line is valid.
#[tactic(auto, using(crate::proofs::JudgeLemmas::refused_invalid))]
pub(crate) fn is_valid_line(
    alloc: Global,
    program: &GroundProgram,
    numbered: &Numbered,
    state: &PlainState,
    line: &Line,
) -> Result<bool, Memory>
    requires literals { IsNogood (lits_of line.now) }
    requires numbered { numbered.now ≡ numbering program.now }
    ensures { IfOk result (λ yes. IsTrue yes ↔ IsValid program.now (state_of state.now) line.now) }
{
    match judge(alloc, program, numbered, state, line) {
        Ok(()) => Ok(true),
        Err(Refused::Memory) => Err(Memory),
        Err(_) => Ok(false),
    }
}
