// What a new search begins with, beside its program and its propagators.
ghost use Rattle.std.specs.Prelude.{◌≡◌, ℕ, ◌<◌, ◌+◌, [], map, length, None, IfOk, OnOk, Contains};
ghost use Rattle.std.specs.List.{All, list_any};
ghost use Rattle.nogood_store.specs.Holding.{numbered_from};
ghost use Rattle.derivation_meaning.specs.State.{is_empty};
ghost use Rattle.propagator_core.specs.Quiet.{IsSteady};
ghost use Rattle.propagation.specs.Waking.{HasRows, AreWakes};

use crate::notes::Notes;
use decisions::Advice;
use literals::Nogood;
use nogood_store::Store;
use propagation::{Queue, Wakes};
use propagator_core::Propagator;
use std::alloc::Global;
use symbols::{Listed, Memory};
use trail::{Shape, Trail};

/// Who looks at what, who is awake, and what to decide.
pub(crate) struct Tools {
    pub(crate) wakes: Wakes,
    pub(crate) awake: Queue,
    pub(crate) advice: Advice,
}

/// The tools for these propagators, all of them awake.
pub(crate) fn tools_for<P: Propagator>(
    alloc: Global,
    shape: Shape,
    propagators: &[P],
) -> Result<Tools, Memory>
    ensures rows { IfOk result (λ tools. HasRows shape (length propagators.now) tools.wakes) }
    ensures wakes { IfOk result (λ tools. AreWakes tools.wakes (map P.meaning propagators.now)) }
    ensures steady { OnOk result (All IsSteady (map P.meaning propagators.now)) }
    ensures count { IfOk result (λ tools. tools.awake.count ≡ length propagators.now) }
    ensures awake { IfOk result (λ tools. (i : ℕ) → i < length propagators.now → Contains tools.awake.places i) }
{
    let wakes = Wakes::new(alloc, shape, propagators)?;
    let awake = Queue::new(alloc, propagators.len())?;
    let advice = Advice::new(alloc, shape)?;
    Ok(Tools {
        wakes,
        awake,
        advice,
    })
}

/// What is set and what is held: nothing, and the input nogoods. `closed` is whether one of these is empty.
#[derive(Drop)]
pub(crate) struct Holdings {
    pub(crate) trail: Trail,
    pub(crate) store: Store,
    pub(crate) notes: Notes,
    pub(crate) closed: bool,
}

// Whether one of the nogoods has no literal.
fn has_empty(nogoods: &[Nogood]) -> bool
    ensures { result ≡ list_any is_empty nogoods.now }
{
    for nogood in nogoods {
        if nogood.lits().is_empty() {
            return true;
        }
    }
    false
}

/// The trail of this shape on which nothing is set, with these nogoods held.
pub(crate) fn holdings_for(
    alloc: Global,
    shape: Shape,
    input: Listed<Nogood>,
) -> Result<Holdings, Memory>
    ensures trail { IfOk result (λ h. h.trail ≡ record { shape = shape; level = 0; orders = record { variables = shape.variables; made = [] }; entries = [] }) }
    ensures store { IfOk result (λ h. h.store ≡ record { held = numbered_from 1 input; looked = [] }) }
    ensures notes { IfOk result (λ h. h.notes ≡ record { inputs = length input; next = length input + 1; given = []; best = None; claim = None }) }
    ensures closed { IfOk result (λ h. h.closed ≡ list_any is_empty input) }
{
    let closed = has_empty(input.items());
    let notes = Notes::new(alloc, input.len() as u64);
    let trail = Trail::new(alloc, shape)?;
    let store = Store::new(alloc, input)?;
    Ok(Holdings {
        trail,
        store,
        notes,
        closed,
    })
}
