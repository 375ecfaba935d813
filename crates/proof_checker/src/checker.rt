// The checker.
ghost use Rattle.std.specs.Prelude.{◌≡◌, IfErr, IfOk, OnErr, OnOk, None, Some};
ghost use Rattle.derivation.specs.Spelling.{IsLine};
ghost use Rattle.derivation_meaning.specs.State.{start};
ghost use Rattle.derivation_meaning.specs.Valid.{IsValid, after};
ghost use Rattle.proof_checker.specs.Checking.{IsRefusedFor};

use crate::acceptance::first_state;
use crate::judging::judge;
use crate::next::advance;
use crate::refused::{NotClosed, Refused};
use crate::state::PlainState;
use completion::complete;
use derivation::{Line, lines_end_in_nogoods};
use derivation_meaning::Claim;
use ground_model::GroundProgram;
use linear_normal::{Numbered, normalise};
use std::alloc::Global;
use std::marker::Model;
use symbols::Memory;

/// A ground program, and what stands after the lines of a derivation that were taken so far.
#[derive(Debug, Drop)]
pub struct Checker {
    alloc: Global,
    ground: GroundProgram,
    numbered: Numbered,
    kept: PlainState,
}

impl Model for Checker {
    ghost use Rattle.std.specs.Prelude.{◌≡◌};
    ghost use Rattle.std.specs.Coded.{codes};
    ghost use Rattle.symbols.specs.SymbolCode.{symbol_code};
    ghost use Rattle.linear_normal.specs.Numbering.{numbering};
    ghost use Rattle.proof_checker.specs.Checking.{Checked};
    ghost use Rattle.proof_checker.specs.inner.View.{state_of};

    ghost Value = { Checked };

    ghost coded = { Prim.hlevel (codes, symbol_code) };

    ghost view = { λ c. record { program = c.ground; state = state_of c.kept } };

    ghost invariant = { λ c. c.numbered ≡ numbering c.ground };
}

impl Checker {
    /// The checker before the first line. It numbers the program and makes its input nogoods.
    pub fn new(alloc: Global, ground: GroundProgram) -> Result<Checker, Memory>
        ensures { IfOk result (λ checker. checker ≡ record { program = ground; state = start ground }) }
    {
        let numbered = normalise(alloc, &ground)?;
        let input = complete(alloc, &ground, &numbered)?;
        let kept = first_state(alloc, input)?;
        Ok(Checker {
            alloc,
            ground,
            numbered,
            kept,
        })
    }

    /// Takes a valid line, or says why it is none and changes nothing.
    ///
    /// It takes the time of the line's own rule: see `step_rules::is_valid`, `is_learned` and
    /// `ground_model::is_answer`.
    pub fn step(&mut self, line: &Line) -> Result<(), Refused>
        requires { IsLine line.now }
        ensures valid { OnOk result (IsValid self.old.program self.old.state line.now) }
        ensures after { OnOk result (self.new ≡ record self.old { state = after self.old.program self.old.state line.now }) }
        ensures refused { IfErr result (λ why. IsRefusedFor self.old.program self.old.state line.now why) }
        ensures same { OnErr result (self.new ≡ self.old) }
    {
        lines_end_in_nogoods();
        judge(self.alloc, &self.ground, &self.numbered, &self.kept, line)?;
        advance(self.alloc, &self.ground, &mut self.kept, line)?;
        Ok(())
    }

    /// The claim of the `q` line that was taken.
    pub fn close(&self) -> Result<Claim, NotClosed>
        ensures closed { IfOk result (λ claim. self.now.state.claim ≡ Some claim) }
        ensures open { OnErr result (self.now.state.claim ≡ None) }
    {
        match self.kept.claim {
            Some(claim) => Ok(claim),
            None => Err(NotClosed),
        }
    }
}
