// The claim of accepted lines.
ghost use Rattle.std.specs.Prelude.{◌≡◌, ◌+◌, [], length, map, IfOk, MatchOption, None};
ghost use Rattle.std.specs.List.{All};
ghost use Rattle.literals.specs.Nogoods.{IsNogood};
ghost use Rattle.linear_normal.specs.Numbering.{numbering};
ghost use Rattle.completion.specs.Inputs.{input_nogoods};
ghost use Rattle.derivation.specs.Lists.{lits_of};
ghost use Rattle.derivation_meaning.specs.declared.claim.Claim.{Claim as ClaimValue};
ghost use Rattle.derivation_meaning.specs.Acceptance.{IsAccepted};
ghost use Rattle.derivation_meaning.specs.State as known;
ghost use Rattle.proof_checker.specs.inner.View.{entry_of, state_of};

use crate::judging::is_valid_line;
use crate::next::advance;
use crate::state::PlainState;
use crate::table::Table;
use completion::complete;
use derivation::Line;
use derivation_meaning::Claim;
use ground_model::GroundProgram;
use linear_normal::{Numbered, normalise};
use literals::Nogood;
use std::alloc::Global;
use symbols::{Listed, Memory};

// The nogoods held under the ids from 1 on.
#[tactic(auto, using(crate::proofs::NextLemmas::more_view))]
fn held_from_one(alloc: Global, input: Listed<Nogood>) -> Result<Table, Memory>
    ensures live { IfOk result (λ table. map entry_of table.live ≡ known.held_from 1 input) }
    ensures next { IfOk result (λ table. table.next ≡ 1 + length input) }
{
    let mut rest = input;
    rest.reverse();
    let mut table = Table::new(alloc);
    'fill: loop {
        match rest.pop() {
            Some(nogood) => table.add(nogood, true, false)?,
            None => return Ok(table),
        }
    }
}

// The state before the first line, where the input nogoods are held alone.
pub(crate) fn first_state(alloc: Global, input: Listed<Nogood>) -> Result<PlainState, Memory>
    ensures { IfOk result (λ state. state_of state ≡ record { next = 1 + length input; live = known.held_from 1 input; answers = []; best = None; claim = None }) }
{
    let table = held_from_one(alloc, input)?;
    Ok(PlainState {
        table,
        answers: Listed::new(alloc),
        best: None,
        claim: None,
    })
}

// The claim of these lines, where they are accepted.
fn claim_after(
    alloc: Global,
    program: &GroundProgram,
    numbered: &Numbered,
    input: Listed<Nogood>,
    lines: &[Line],
) -> Result<Option<Claim>, Memory>
    requires numbered { numbered.now ≡ numbering program.now }
    requires input { input ≡ input_nogoods program.now }
    requires literals { All (λ line. IsNogood (lits_of line)) lines.now }
    ensures { IfOk result (λ claim. MatchOption claim ((c : ClaimValue) → IsAccepted program.now lines.now c → ⊥) (λ c. IsAccepted program.now lines.now c)) }
{
    let mut state = first_state(alloc, input)?;
    for line in lines {
        if !is_valid_line(alloc, program, numbered, &state, line)? {
            return Ok(None);
        }
        advance(alloc, program, &mut state, line)?;
    }
    Ok(state.claim)
}

/// The claim of these lines, which stand behind a header, where they are accepted.
///
/// The program is numbered and its input nogoods are made; then each line takes the time of its own rule,
/// and each id of a chain one look-up by halving.
pub fn accepted_claim(
    alloc: Global,
    program: &GroundProgram,
    lines: &[Line],
) -> Result<Option<Claim>, Memory>
    requires { All (λ line. IsNogood (lits_of line)) lines.now }
    ensures { IfOk result (λ claim. MatchOption claim ((c : ClaimValue) → IsAccepted program.now lines.now c → ⊥) (λ c. IsAccepted program.now lines.now c)) }
{
    let numbered = normalise(alloc, program)?;
    let input = complete(alloc, program, &numbered)?;
    claim_after(alloc, program, &numbered, input, lines)
}
