// The store of held nogoods.
ghost use Rattle.std.specs.Prelude.{◌≡◌, ◌≤◌, ◌++◌, ◌∷◌, [], ◌↔◌, length, IsTrue, IfOk, OnOk, OnErr, option_copied, reverse};
ghost use Rattle.trail.specs.Growth.{Grows};
ghost use Rattle.nogood_store.specs.Holding.{AreBelow, Ascends, nogood_under, numbered_from, IsHeld, seen_of, IsFront};
ghost use Rattle.nogood_store.specs.Propagation.{AllNamed, IsForced, Answers};

use crate::propagate::{Unit, propagate};
use crate::slot::{Slot, has_nogood, nogood_of};
use crate::watching::{Watching, shorten};
use literals::Nogood;
use std::alloc::Global;
use std::marker::Model;
use symbols::{Listed, Memory};
use trail::Trail;

/// The nogoods that are held, each under its id. Clauses see them in the order of their ids, with the
/// literals of the trail at which the store has looked: those must still be the first of the trail when it
/// propagates.
#[derive(Debug, Drop)]
pub struct Store {
    slots: Vec<Slot>,
    watching: Watching,
}

impl Model for Store {
    ghost use Rattle.nogood_store.specs.Holding.{Holding};
    ghost use Rattle.nogood_store.specs.Kept.{held_of};
    ghost use Rattle.nogood_store.specs.inner.Watching.{IsStored, looks_of};

    ghost Value = { Holding };

    ghost view = { λ s. record { held = held_of s.slots.items; looked = looks_of s.watching.looked.items } };

    ghost invariant = { λ s. IsStored s.slots.items s.watching };
}

// The list in the opposite order.
fn reversed(alloc: Global, list: Listed<Nogood>) -> Result<Listed<Nogood>, Memory>
    ensures { IfOk result (λ other. other ≡ reverse list) }
{
    let mut list = list;
    let mut other = Listed::new(alloc);
    'turn: loop {
        match list.pop() {
            Some(nogood) => other.push(nogood)?,
            None => return Ok(other),
        }
    }
}

impl Store {
    /// Holds the nogoods under the ids 1, 2 and so on. It has looked at no entry.
    pub fn new(alloc: Global, input: Listed<Nogood>) -> Result<Store, Memory>
        ensures { IfOk result (λ s. s ≡ record { held = numbered_from 1 input; looked = [] }) }
    {
        let mut rest = reversed(alloc, input)?;
        let mut store = Store {
            slots: Vec::new(alloc),
            watching: Watching::new(alloc),
        };
        let count = rest.len() as u64;
        let mut id = 0;
        'fill: loop {
            match rest.pop() {
                Some(nogood) => {
                    id += 1;
                    store.add(id, nogood)?;
                }
                None => return Ok(store),
            }
        }
    }

    /// Holds one more nogood, under an id above all others. Amortised O(1).
    pub fn add(&mut self, id: u64, nogood: Nogood) -> Result<(), Memory>
        requires { AreBelow id self.old.held }
        ensures ok { OnOk result (self.new.held ≡ self.old.held ++ record { id = id; nogood = nogood } ∷ []) }
        ensures err { OnErr result (self.new.held ≡ self.old.held) }
        ensures looked { self.new.looked ≡ self.old.looked }
    {
        self.slots.push(Slot { id, nogood })?;
        Ok(())
    }

    /// Sets the opposite of the one literal that is open in a held nogood whose others are true, and so on
    /// until nothing is left to set, or all literals of a held nogood are true.
    ///
    /// It looks at a nogood when one of its two watched literals becomes true. A nogood that was added since the
    /// last call is looked at as a whole, and again in each call while no two of its literals can be watched.
    pub fn unit_propagate(&mut self, trail: &mut Trail) -> Result<Unit, Memory>
        requires named { AllNamed trail.old.shape self.old.held }
        requires looked { IsFront self.old.looked (seen_of trail.old.entries) }
        ensures grows { Grows (IsForced self.old.held) trail.old trail.new }
        ensures answer { IfOk result (λ answer. Answers self.old.held trail.new answer) }
        ensures held { self.new.held ≡ self.old.held }
        ensures looked { IsFront self.new.looked (seen_of trail.new.entries) }
    {
        propagate(&self.slots, &mut self.watching, trail)
    }

    /// Forgets what it saw past the trail's length: to be called after the trail was undone.
    pub fn undo(&mut self, trail: &Trail)
        ensures held { self.new.held ≡ self.old.held }
        ensures front { IsFront self.new.looked self.old.looked }
        ensures within { length self.new.looked ≤ length trail.now.entries }
    {
        shorten(&mut self.watching, trail.length());
    }

    /// The nogood that is held under the id. O(log n) in the number of held nogoods.
    pub fn live(&self, id: u64) -> Option<&Nogood>
        ensures value { option_copied result ≡ nogood_under self.now.held id }
        ensures ascends { Ascends self.now.held }
    {
        nogood_of(&self.slots, id)
    }

    /// Whether a nogood with the same literals is held. It looks at each held nogood: the search never asks.
    pub fn is_held(&self, nogood: &Nogood) -> bool
        ensures { IsTrue result ↔ IsHeld self.now.held nogood.now }
    {
        has_nogood(&self.slots, nogood)
    }
}
