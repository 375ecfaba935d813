// Chains of resolutions, replayed.
ghost use Rattle.std.specs.Prelude.{◌≡◌, ◌↔◌, ◌==◌, IsTrue, IfOk, MatchOption, None, Some};
ghost use Rattle.std.specs.List.{list_all};
ghost use Rattle.literals.specs.Nogoods.{resolved_with};
ghost use Rattle.derivation_meaning.specs.Refusals as spec;
ghost use Rattle.proof_checker.specs.inner.Replay.{found_in, chain_in};
ghost use Rattle.derivation_meaning.specs.Valid.{IsLearned};
ghost use Rattle.proof_checker.specs.inner.View.{state_of};

use crate::same::are_same;
use crate::state::PlainState;
use crate::table::Table;
use literals::{Lit, Nogood, resolve};
use std::alloc::Global;
use symbols::Memory;

// Whether the id names a live nogood.
#[tactic(auto, using(crate::proofs::ReplayLemmas::live_is))]
fn is_live(state: &PlainState, id: u64) -> bool
    ensures { result ≡ spec.is_live (state_of state.now) id }
{
    state.table.find(id).is_some()
}

// Whether the id of each link does.
fn are_linked(state: &PlainState, links: &[(Lit, u64)]) -> bool
    ensures { result ≡ list_all (λ link. spec.is_live (state_of state.now) link.1) links.now }
{
    links.iter().all(|link| is_live(state, link.1))
}

// Whether each id that the line names does.
pub(crate) fn are_live(state: &PlainState, id: u64, links: &[(Lit, u64)]) -> bool
    ensures { result ≡ spec.are_live (state_of state.now) id links.now }
{
    is_live(state, id) && are_linked(state, links)
}

// The nogood resolved at a pivot with that of an id.
fn linked(
    alloc: Global,
    table: &Table,
    so_far: &Nogood,
    pivot: Lit,
    id: u64,
) -> Result<Option<Nogood>, Memory>
    ensures { IfOk result (λ next. next ≡ resolved_with (Some so_far.now) pivot (found_in table.now.live id)) }
{
    match table.find(id) {
        Some(right) => resolve(alloc, so_far, pivot, right),
        None => Ok(None),
    }
}

// The last result of a chain, where each resolution has one.
#[tactic(auto, using(crate::proofs::ReplayLemmas::none_stays))]
fn replayed(
    alloc: Global,
    table: &Table,
    first: Nogood,
    links: &[(Lit, u64)],
) -> Result<Option<Nogood>, Memory>
    ensures { IfOk result (λ last. last ≡ chain_in table.now.live (Some first) links.now) }
{
    let mut so_far = first;
    for link in links {
        match linked(alloc, table, &so_far, link.0, link.1)? {
            Some(next) => so_far = next,
            None => return Ok(None),
        }
    }
    Ok(Some(so_far))
}

// An equal nogood.
#[tactic(auto, using(crate::proofs::ReplayLemmas::canonical_same))]
fn copied(alloc: Global, nogood: &Nogood) -> Result<Nogood, Memory>
    ensures { IfOk result (λ copy. copy ≡ nogood.now) }
{
    Nogood::from_lits(alloc, nogood.lits())
}

// Whether the last result is the list.
fn ends_in(last: Option<Nogood>, lits: &[Lit]) -> bool
    ensures { IsTrue result ↔ (last ≡ Some lits.now) }
{
    match last {
        Some(nogood) => are_same(nogood.lits(), lits),
        None => false,
    }
}

// The last result of a chain from the nogood of an id on.
#[tactic(auto, using(crate::proofs::ReplayLemmas::none_stays))]
fn chained(
    alloc: Global,
    table: &Table,
    id: u64,
    links: &[(Lit, u64)],
) -> Result<Option<Nogood>, Memory>
    ensures { IfOk result (λ last. last ≡ chain_in table.now.live (found_in table.now.live id) links.now) }
{
    match table.find(id) {
        Some(first) => {
            let first = copied(alloc, first)?;
            replayed(alloc, table, first, links)
        }
        None => Ok(None),
    }
}

// Whether the chain's resolutions from the live nogood of the id on give the list.
//
// Each id is sought by halving.
#[tactic(auto, using(crate::proofs::ReplayLemmas::chain_is))]
pub(crate) fn is_learned(
    alloc: Global,
    state: &PlainState,
    id: u64,
    links: &[(Lit, u64)],
    lits: &[Lit],
) -> Result<bool, Memory>
    ensures { IfOk result (λ yes. IsTrue yes ↔ IsLearned (state_of state.now) id links.now lits.now) }
{
    let last = chained(alloc, &state.table, id, links)?;
    Ok(ends_in(last, lits))
}
