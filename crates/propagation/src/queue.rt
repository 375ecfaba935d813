// Which propagators are awake. The one that has waited longest comes first.
ghost use Rattle.std.specs.Prelude.{◌≡◌, ◌<◌, ◌⊎◌, ℕ, [], ◌∷◌, length, MatchOption, IfOk, OnOk, Contains};

use std::alloc::Global;
use std::collections::VecDeque;
use std::marker::Model;
use symbols::Memory;

/// The places of the propagators that have to be called, in the order in which they were woken. Clauses
/// see these places, and how many propagators there are.
#[derive(Debug, Drop)]
pub struct Queue {
    flags: Vec<bool>,
    places: VecDeque<usize>,
}

impl Model for Queue {
    ghost use Rattle.std.specs.Prelude.{length};
    ghost use Rattle.propagation.specs.Awake.{Awake};
    ghost use Rattle.propagation.specs.inner.Queued.{IsQueue};

    ghost Value = { Awake };

    ghost view = { λ q. record { count = length q.flags.items; places = q.places.items } };

    ghost invariant = { λ q. IsQueue q.flags.items q.places.items };
}

impl Queue {
    /// A queue of so many propagators, all of them awake, in their order.
    pub fn new(alloc: Global, count: usize) -> Result<Queue, Memory>
        ensures { IfOk result (λ q. (q.count ≡ count) × ((i : ℕ) → i < count → Contains q.places i)) }
    {
        let mut queue = Queue {
            flags: vec![in alloc; false; count]?,
            places: VecDeque::new(alloc),
        };
        for place in 0..count {
            queue.wake(place)?;
        }
        Ok(queue)
    }

    // Wakes the one at the place. O(1).
    pub(crate) fn wake(&mut self, place: usize) -> Result<(), Memory>
        requires { place < self.old.count }
        ensures count { self.new.count ≡ self.old.count }
        ensures awake { OnOk result (Contains self.new.places place) }
        ensures kept { (i : ℕ) → Contains self.old.places i → Contains self.new.places i }
    {
        if !self.flags[place] {
            self.places.push_back(place)?;
            self.flags[place] = true;
        }
        Ok(())
    }

    // Takes the one that comes first, if any is awake. O(1).
    pub(crate) fn take(&mut self) -> Option<usize>
        ensures count { self.new.count ≡ self.old.count }
        ensures first { MatchOption result ((self.old.places ≡ []) × (self.new.places ≡ [])) (λ place. (place < self.old.count) × (self.old.places ≡ place ∷ self.new.places)) }
    {
        match self.places.pop_front() {
            Some(place) => {
                self.flags[place] = false;
                Some(place)
            }
            None => None,
        }
    }

    // Lets all of them rest. It costs those that were awake.
    pub(crate) fn clear(&mut self)
        ensures count { self.new.count ≡ self.old.count }
        ensures none { self.new.places ≡ [] }
    {
        'rest: loop {
            match self.take() {
                Some(_) => {}
                None => return,
            }
        }
    }
}
