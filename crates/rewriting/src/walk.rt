// A walk over a rule in the order of its text.
ghost use Rattle.std.specs.Prelude.{◌≡◌, ◌++◌, [], ◌∷◌, ◌+◌, OnOk, IfOk};

use crate::sight::Sight;
use symbols::{Listed, Memory};

// The next number of a variable, and what was seen so far.
#[derive(Drop)]
pub(crate) struct Walk {
    pub(crate) next: u32,
    pub(crate) sights: Listed<Sight>,
}

impl Walk {
    // The next number, which is taken; past 2^32 there is none.
    pub(crate) fn take(&mut self) -> Result<u32, Memory>
        ensures number { IfOk result (λ n. n ≡ self.old.next) }
        ensures next { OnOk result (self.new.next ≡ self.old.next + 1) }
        ensures sights { OnOk result (self.new.sights ≡ self.old.sights) }
    {
        let number = self.next;
        match number.checked_add(1) {
            Some(next) => {
                self.next = next;
                Ok(number)
            }
            None => Err(Memory),
        }
    }

    pub(crate) fn see(&mut self, sight: Sight) -> Result<(), Memory>
        ensures next { OnOk result (self.new.next ≡ self.old.next) }
        ensures sights { OnOk result (self.new.sights ≡ self.old.sights ++ sight ∷ []) }
    {
        self.sights.push(sight)?;
        Ok(())
    }
}
