// What a propagator is.
ghost use Rattle.std.specs.Prelude.{◌≡◌, ℕ, List, IsTrue, IfOk};
ghost use Rattle.symbols.specs.declared.ends.Ends.{Ends};
ghost use Rattle.trail.specs.declared.entry.Entry.{Entry};
ghost use Rattle.trail.specs.Growth.{Grows};
ghost use Rattle.propagator_core.specs.Meaning.{Meaning};
ghost use Rattle.propagator_core.specs.Standing.{StandsFor};
ghost use Rattle.propagator_core.specs.Shown.{IsShown};
ghost use Rattle.propagator_core.specs.Quiet.{IsSteady, Answers};

use crate::outcome::Outcome;
use crate::touch::Touch;
use std::alloc::Global;
use symbols::{Listed, Memory};
use trail::Trail;

/// A constraint at work on a trail: it narrows bounds, tells a complete reason for each step, and goes
/// back to what the shorter trail determines (propagators with explanations as in lazy clause
/// generation: Ohrimenko, Stuckey, Codish 2009).
pub trait Propagator: Drop {
    /// What it stands for. No call changes it.
    ghost meaning: { Self → Meaning };

    /// At how many entries of the trail it has looked.
    ghost looked: { Self → ℕ };

    /// Whether its state is what its constraint, these ends and these entries determine.
    ghost stands: { Self → Ends → List Entry → Type 0 };

    /// The number of its constraint.
    fn constraint(&self) -> u32
        ensures { result ≡ (meaning self.now).number };

    /// What it touches, perhaps with repeats. Where it rests it is quiet, and it need not be called again
    /// until an entry is a bound or a truth among these.
    fn touches(&self, alloc: Global) -> Result<Listed<Touch>, Memory>
        ensures value { IfOk result (λ touches. touches ≡ (meaning self.now).touches) }
        ensures steady { IsSteady (meaning self.now) };

    /// At how many entries of the trail it has looked.
    fn seen(&self) -> usize
        ensures { result ≡ looked self.now };

    /// Goes back to what the trail determines. It is called after `Trail::undo_to`, and it takes no
    /// memory.
    fn undo(&mut self, trail: &Trail)
        requires { IsTrue ((meaning self.old).fits trail.now.shape) }
        ensures meaning { meaning self.new ≡ meaning self.old }
        ensures stands { StandsFor (stands self.new) (looked self.new) trail.now };

    /// Sets what the constraint forces, each entry with its reason. At `Quiet` it rests. It opens no
    /// level, and it makes at most as many order literals as it adds entries.
    ///
    /// Want of memory leaves the entries that were added by then.
    fn propagate(&mut self, alloc: Global, trail: &mut Trail) -> Result<Outcome, Memory>
        requires fits { IsTrue ((meaning self.old).fits trail.old.shape) }
        requires stands { StandsFor (stands self.old) (looked self.old) trail.old }
        ensures meaning { meaning self.new ≡ meaning self.old }
        ensures stands { StandsFor (stands self.new) (looked self.new) trail.new }
        ensures grows { Grows (IsShown (meaning self.old).valid) trail.old trail.new }
        ensures answer { IfOk result (λ outcome. Answers (meaning self.old) trail.old trail.new outcome) };
}
