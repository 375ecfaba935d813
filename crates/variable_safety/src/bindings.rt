// Definite rules over the numbers of variables, with a size above these.
ghost use Rattle.std.specs.Prelude.{◌≡◌, ◌++◌, ◌∷◌, [], map, All, IfOk, OnOk};
ghost use Rattle.definite_rules.specs.Rule.{IsBelow};
ghost use Rattle.definite_rules.specs.Least.{IsLeastModel};
ghost use Rattle.variable_safety.specs.inner.Binding.{fact};

use crate::flags::above;
use definite_rules::{DefiniteRules, least_model};
use std::alloc::Global;
use symbols::{Listed, Memory};

#[derive(Drop)]
pub(crate) struct Bindings {
    pub(crate) rules: DefiniteRules,
    pub(crate) size: usize,
    pub(crate) ghost below: { All (IsBelow size) rules },
}

impl Bindings {
    pub(crate) fn new(alloc: Global) -> Bindings
        ensures { result.rules ≡ [] }
    {
        Bindings {
            rules: DefiniteRules::new(alloc),
            size: 0,
        }
    }

    // Adds a rule at the end.
    pub(crate) fn push(&mut self, head: u32, body: &[u32]) -> Result<(), Memory>
        ensures { OnOk result (self.new.rules ≡ self.old.rules ++ record { head = head; body = body.now } ∷ []) }
    {
        self.size = above(above(self.size, body), &[head]);
        self.rules.push(head, body)?;
        Ok(())
    }

    // Adds variables that are bound.
    pub(crate) fn push_facts(&mut self, numbers: &[u32]) -> Result<(), Memory>
        ensures { OnOk result (self.new.rules ≡ self.old.rules ++ map fact numbers.now) }
    {
        for number in numbers {
            self.push(*number, &[])?;
        }
        Ok(())
    }

    // The flags of the variables that the rules give.
    pub(crate) fn flags(&self, alloc: Global) -> Result<Listed<bool>, Memory>
        ensures { IfOk result (λ flags. IsLeastModel self.now.rules flags) }
    {
        least_model(alloc, self.size, &self.rules)
    }
}
