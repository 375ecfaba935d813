// Lines whose rule alone decides.
ghost use Rattle.std.specs.Prelude.{◌≡◌, ◌↔◌, IsTrue};
ghost use Rattle.linear_normal.specs.Numbering.{numbering};
ghost use Rattle.literals.specs.Nogoods.{IsNogood};
ghost use Rattle.literals.specs.declared.reason.Step.TheVariants as s;
ghost use Rattle.derivation.specs.Lists.{lits_of};
ghost use Rattle.derivation_meaning.specs.Lines.{reason_of};
ghost use Rattle.derivation_meaning.specs.Valid.{IsShown, IsValidAs};
ghost use Rattle.proof_checker.specs.inner.Judging.{IsRuled};
ghost use Rattle.proof_checker.specs.inner.View.{state_of};

use crate::answer_lines::last_cost;
use crate::ends::{is_end_all, is_end_best, is_end_none};
use crate::state::PlainState;
use derivation::Line;
use ground_model::GroundProgram;
use linear_normal::Numbered;
use literals::{Lit, Step};
use step_rules::{is_valid, is_valid_loop};

// Whether the step's rule shows the literals to be a nogood.
fn is_reason(
    program: &GroundProgram,
    numbered: &Numbered,
    state: &PlainState,
    lits: &[Lit],
    step: &Step,
) -> bool
    requires literals { IsNogood lits.now }
    requires numbered { numbered.now ≡ numbering program.now }
    ensures { IsTrue result ↔ IsShown program.now (state_of state.now) (record { step = step.now; lits = lits.now }) }
{
    is_valid(program, numbered, last_cost(state), lits, step)
}

// Whether the atoms are supported only by each other, so that the literals are a nogood.
fn is_loop_line(
    program: &GroundProgram,
    numbered: &Numbered,
    state: &PlainState,
    set: &[u32],
    lits: &[Lit],
) -> bool
    requires { numbered.now ≡ numbering program.now }
    ensures { IsTrue result ↔ IsShown program.now (state_of state.now) (record { step = s.Loop set.now; lits = lits.now }) }
{
    is_valid_loop(program, numbered, lits, set)
}

// Whether the line's own rule allows it.
pub(crate) fn is_allowed(
    program: &GroundProgram,
    numbered: &Numbered,
    state: &PlainState,
    line: &Line,
) -> bool
    requires literals { IsNogood (lits_of line.now) }
    requires numbered { numbered.now ≡ numbering program.now }
    requires ruled { IsRuled line.now }
    ensures { IsTrue result ↔ IsValidAs program.now (state_of state.now) (reason_of line.now) line.now }
{
    match line {
        // A chain and an answer are judged elsewhere, and a header stands before all lines alone.
        Line::Header(..) | Line::Learned(..) | Line::Answer(..) | Line::Better(..) => false,
        Line::Sum(c, lits) => is_reason(program, numbered, state, lits.items(), &Step::Sum(*c)),
        Line::Distinct(c, a, b, lits) => {
            let step = Step::Distinct(*c, *a, *b);
            is_reason(program, numbered, state, lits.items(), &step)
        }
        Line::Window(c, a, b, lits) => {
            let step = Step::Window(*c, *a, *b);
            is_reason(program, numbered, state, lits.items(), &step)
        }
        Line::Pair(c, i, j, lits) => {
            let step = Step::Pair(*c, *i, *j);
            is_reason(program, numbered, state, lits.items(), &step)
        }
        Line::Loop(set, lits) => {
            is_loop_line(program, numbered, state, set.items(), lits.items())
        }
        Line::Hole(c, lits) => is_reason(program, numbered, state, lits.items(), &Step::Hole(*c)),
        Line::EndNone => is_end_none(state),
        Line::EndAll(count) => is_end_all(state, *count),
        Line::EndBest(cost) => is_end_best(state, *cost),
    }
}
