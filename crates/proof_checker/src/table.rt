// Live nogoods by id.
ghost use Rattle.std.specs.Prelude.{◌≡◌, ◌+◌, ◌&&◌, ◌∷◌, ◌++◌, [], MatchOption, None, OnErr, OnOk, Some};
ghost use Rattle.std.specs.List.{filter, list_any};
ghost use Rattle.derivation_meaning.specs.State.{is_empty};
ghost use Rattle.proof_checker.specs.inner.Merged as spec;
ghost use Rattle.proof_checker.specs.inner.Replay.{found_in};

use crate::live::Live;
use literals::Nogood;
use std::alloc::Global;
use std::marker::Model;
use symbols::{Listed, Memory};

/// The next id, and the live nogoods by id.
///
/// Those that are held and those that pass stand apart, so that an `r` line lets the latter go in one step.
#[derive(Debug, Drop)]
pub(crate) struct Table {
    coming: u128,
    held: Listed<Live>,
    passing: Listed<Live>,
}

impl Model for Table {
    ghost use Rattle.proof_checker.specs.inner.Merged.{IsTable, Kept, merged};

    ghost Value = { Kept };

    ghost view = { λ t. record { next = t.coming; live = merged t.held t.passing } };

    ghost invariant = { λ t. IsTable t.coming t.held t.passing };
}

// Whether it is the empty nogood, held.
fn is_held_empty(live: &Live) -> bool
    ensures { result ≡ (live.now.is_held && is_empty live.now.nogood) }
{
    live.is_held && live.nogood.lits().is_empty()
}

// Whether the empty nogood is held among these.
fn any_is_empty(live: &[Live]) -> bool
    ensures { result ≡ list_any (λ one. one.is_held && is_empty one.nogood) live.now }
{
    live.iter().any(|one| is_held_empty(one))
}

// The place of the id among nogoods whose ids ascend: how many have a smaller one.
fn place_of(live: &[Live], id: u128) -> usize
    requires { spec.Ascend live.now }
    ensures { spec.IsPlace live.now id result }
{
    live.partition_point(|one| one.id < id)
}

// The nogood of the id among those whose ids ascend.
#[tactic(auto, using(crate::proofs::TableLemmas::found_end, crate::proofs::TableLemmas::found_at))]
fn find_in(live: &[Live], id: u128) -> Option<&Nogood>
    requires { spec.Ascend live.now }
    ensures { MatchOption result (found_in live.now id ≡ None) (λ nogood. found_in live.now id ≡ Some nogood.now) }
{
    let at = place_of(live, id);
    if at >= live.len() {
        return None;
    }
    let one = &live[at];
    if one.id == id {
        Some(&one.nogood)
    } else {
        None
    }
}

// Adds a nogood under the next id to a list.
fn push_next(
    list: &mut Listed<Live>,
    coming: &mut u128,
    nogood: Nogood,
    is_held: bool,
    is_learned: bool,
) -> Result<(), Memory>
    ensures ok { OnOk result (list.new ≡ list.old ++ record { id = coming.old; nogood = nogood; is_held = is_held; is_learned = is_learned } ∷ []) }
    ensures next { OnOk result (coming.new ≡ coming.old + 1) }
    ensures err { OnErr result (list.new ≡ list.old) }
    ensures same { OnErr result (coming.new ≡ coming.old) }
{
    let Some(next) = coming.checked_add(1) else {
        return Err(Memory);
    };
    list.push(Live {
        id: *coming,
        nogood,
        is_held,
        is_learned,
    })?;
    *coming = next;
    Ok(())
}

impl Table {
    /// The table that has no nogood yet; the first will have the id 1.
    #[tactic(auto, using(crate::proofs::TableLemmas::none_table))]
    pub(crate) fn new(alloc: Global) -> Table
        ensures { result ≡ record { next = 1; live = [] } }
    {
        Table {
            coming: 1,
            held: Listed::new(alloc),
            passing: Listed::new(alloc),
        }
    }

    /// The nogood of the id, if it is live. It takes time logarithmic in the live nogoods.
    #[tactic(auto, using(crate::proofs::TableLemmas::found_merged))]
    pub(crate) fn find(&self, id: u64) -> Option<&Nogood>
        ensures { MatchOption result (found_in self.now.live id ≡ None) (λ nogood. found_in self.now.live id ≡ Some nogood.now) }
    {
        match find_in(self.held.items(), u128::from(id)) {
            Some(nogood) => Some(nogood),
            None => find_in(self.passing.items(), u128::from(id)),
        }
    }

    /// Lets those go that are not held. It takes no memory, and time linear in those that go.
    #[tactic(auto, using(crate::proofs::TableLemmas::settled_table, crate::proofs::TableLemmas::settled_live))]
    pub(crate) fn settle(&mut self)
        ensures { self.new ≡ record self.old { live = filter (λ one. one.is_held) self.old.live } }
    {
        self.passing.truncate(0);
    }

    /// Adds a nogood under the next id.
    #[tactic(auto, using(crate::proofs::TableLemmas::held_table, crate::proofs::TableLemmas::passing_table, crate::proofs::TableLemmas::held_live, crate::proofs::TableLemmas::passing_live))]
    pub(crate) fn add(
        &mut self,
        nogood: Nogood,
        is_held: bool,
        is_learned: bool,
    ) -> Result<(), Memory>
        ensures ok { OnOk result (self.new ≡ record { next = self.old.next + 1; live = self.old.live ++ record { id = self.old.next; nogood = nogood; is_held = is_held; is_learned = is_learned } ∷ [] }) }
        ensures err { OnErr result (self.new ≡ self.old) }
    {
        if is_held {
            push_next(&mut self.held, &mut self.coming, nogood, true, is_learned)?;
            Ok(())
        } else {
            push_next(
                &mut self.passing,
                &mut self.coming,
                nogood,
                false,
                is_learned,
            )?;
            Ok(())
        }
    }

    /// Whether the empty nogood is held. It looks at each that is.
    #[tactic(auto, using(crate::proofs::TableLemmas::held_any))]
    pub(crate) fn holds_empty(&self) -> bool
        ensures { result ≡ list_any (λ one. one.is_held && is_empty one.nogood) self.now.live }
    {
        any_is_empty(self.held.items())
    }
}
