// What `m` and `o` lines say of a program.
ghost use Rattle.std.specs.Prelude.{◌≡◌, ◌↔◌, map, IsTrue, IfOk};
ghost use Rattle.ground_model.specs.Answers.{IsValuation};
ghost use Rattle.ground_model.specs.Objective.{objective_of};
ghost use Rattle.derivation_meaning.specs.Lines as spec;
ghost use Rattle.derivation_meaning.specs.Refusals.{NamesValues};
ghost use Rattle.derivation_meaning.specs.State as known;
ghost use Rattle.derivation_meaning.specs.Valid.{IsAnswerLine};
ghost use Rattle.proof_checker.specs.inner.Judging as inner;
ghost use Rattle.proof_checker.specs.inner.View.{state_of};

use crate::answers::names_variables;
use crate::state::PlainState;
use ground_model::{Answer, GroundProgram, is_answer, objective};
use std::alloc::Global;
use symbols::{Ends, Memory};

// Whether a line names each variable, and its answer is a constraint stable model.
#[tactic(auto, using(crate::proofs::AnswerLineLemmas::line_made, crate::proofs::AnswerLineLemmas::line_names, crate::proofs::AnswerLineLemmas::line_answers))]
pub(crate) fn is_answer_line(
    alloc: Global,
    program: &GroundProgram,
    answer: &Answer,
    atoms: &[u32],
    values: &[(u32, i32)],
) -> Result<bool, Memory>
    requires { answer.now ≡ spec.answer_of atoms.now values.now }
    ensures { IfOk result (λ yes. IsTrue yes ↔ IsAnswerLine program.now atoms.now values.now) }
{
    if !names_variables(values, program.variables.len()) {
        return Ok(false);
    }
    is_answer(alloc, program, answer)
}

// The cost of the last `o` line.
pub(crate) fn last_cost(state: &PlainState) -> Option<i128>
    ensures { result ≡ known.last_cost (state_of state.now) }
{
    match &state.best {
        Some(best) => Some(best.cost),
        None => None,
    }
}

// Whether it is the answer's objective.
pub(crate) fn is_cost_of(program: &GroundProgram, answer: &Answer, cost: i128) -> bool
    requires { IsValuation program.now answer.now.values }
    ensures { IsTrue result ↔ (cost ≡ objective_of program.now answer.now) }
{
    cost == objective(program, answer)
}

// Whether each value lies within the ends.
fn are_within(ends: Ends, values: &[i32]) -> bool
    ensures { result ≡ inner.are_within ends values.now }
{
    values
        .iter()
        .all(|value| ends.min <= *value && *value <= ends.max)
}

// Whether a line names one value within the ends for each variable.
#[tactic(auto, using(crate::proofs::AnswerLineLemmas::values_named, crate::proofs::AnswerLineLemmas::named_variables, crate::proofs::AnswerLineLemmas::named_within))]
pub(crate) fn names_values(program: &GroundProgram, answer: &Answer, values: &[(u32, i32)]) -> bool
    requires { answer.now.values ≡ map (λ value. value.1) values.now }
    ensures { IsTrue result ↔ NamesValues program.now values.now }
{
    names_variables(values, program.variables.len())
        && are_within(program.ends, answer.values.items())
}
