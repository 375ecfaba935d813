// Whether a `q` line may stand.
ghost use Rattle.std.specs.Prelude.{◌≡◌, ◌↔◌, ◌≤◌, IsTrue, [], length, None, Some};
ghost use Rattle.derivation_meaning.specs.State as spec;
ghost use Rattle.derivation_meaning.specs.State.{last_cost};
ghost use Rattle.derivation_meaning.specs.Valid.{IsEnd};
ghost use Rattle.proof_checker.specs.inner.View.{state_of};

use crate::state::PlainState;

// Whether the empty nogood is held. It looks at each that is.
#[tactic(auto, using(crate::proofs::EndLemmas::held_is))]
fn holds_empty(state: &PlainState) -> bool
    ensures { result ≡ spec.holds_empty (state_of state.now) }
{
    state.table.holds_empty()
}

// Whether `q none` may stand.
#[tactic(auto, using(crate::proofs::EndLemmas::none_made, crate::proofs::EndLemmas::none_empty, crate::proofs::EndLemmas::none_listed, crate::proofs::EndLemmas::none_best))]
pub(crate) fn is_end_none(state: &PlainState) -> bool
    ensures { IsTrue result ↔ IsEnd (state_of state.now) ((state.now.answers ≡ []) × ((state_of state.now).best ≡ None)) }
{
    holds_empty(state) && state.answers.is_empty() && state.best.is_none()
}

// Whether so many answers were given, one or more.
fn are_given(state: &PlainState, count: u64) -> bool
    ensures { IsTrue result ↔ ((1 ≤ count) × (length state.now.answers ≡ count)) }
{
    1 <= count && state.answers.len() as u64 == count
}

// Whether `q all` with this count may stand.
#[tactic(auto, using(crate::proofs::EndLemmas::all_made, crate::proofs::EndLemmas::all_empty, crate::proofs::EndLemmas::all_given))]
pub(crate) fn is_end_all(state: &PlainState, count: u64) -> bool
    ensures { IsTrue result ↔ IsEnd (state_of state.now) ((1 ≤ count) × (length state.now.answers ≡ count)) }
{
    holds_empty(state) && are_given(state, count)
}

// Whether `q best` with this cost may stand.
#[tactic(auto, using(crate::proofs::EndLemmas::best_made, crate::proofs::EndLemmas::best_empty, crate::proofs::EndLemmas::best_given))]
pub(crate) fn is_end_best(state: &PlainState, cost: i128) -> bool
    ensures { IsTrue result ↔ IsEnd (state_of state.now) (last_cost (state_of state.now) ≡ Some cost) }
{
    holds_empty(state) && has_cost(state, cost)
}

// Whether the last `o` line had the cost.
fn has_cost(state: &PlainState, cost: i128) -> bool
    ensures { IsTrue result ↔ (last_cost (state_of state.now) ≡ Some cost) }
{
    match &state.best {
        Some(best) => best.cost == cost,
        None => false,
    }
}
