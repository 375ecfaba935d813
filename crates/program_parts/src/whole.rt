// Whole ground programs.
ghost use Rattle.std.specs.Prelude.{◌≡◌, length, IfOk, IfErr};
ghost use Rattle.syntax_tree.specs.declared.statement.Program.{Program};
ghost use Rattle.rewriting.specs.Rewriting.{IsRewriting};
ghost use Rattle.program_meaning.specs.Canonical.{IsCanonical, view_of};
ghost use Rattle.program_meaning.specs.Outside.{HasLargeObjective};
ghost use Rattle.safety_meaning.specs.Program.{program_of, rules_of};
ghost use Rattle.program_parts.specs.Grounding.{HasGrounding, IsGroundingOf, IsGroundingWithin, IsWholeStop};

use crate::grounding::Grounding;
use crate::parts::parts_of;
use ground_model::GroundProgram;
use numbered_program::{ProgramStop, ground_program};
use rewriting::RewrittenProgram;
use std::alloc::Global;
use symbols::{Memory, SymbolTable};

/// The canonical ground program of a rewritten program, from what its relevant instances gave.
///
/// O(n log n) comparisons in the parts, and linear in the table.
pub fn whole_program(
    alloc: Global,
    program: &RewrittenProgram,
    found: Grounding,
    symbols: SymbolTable,
) -> Result<GroundProgram, ProgramStop>
    requires known { HasGrounding (length symbols) found }
    requires within { IsGroundingWithin symbols program.now found }
    ensures canonical { IfOk result (λ made. (old : Program) → IsRewriting old program.now → IsGroundingOf symbols (rules_of old.statements) found → IsCanonical (program_of old.statements) (view_of made)) }
    ensures small { IfOk result (λ made. (old : Program) → IsRewriting old program.now → IsGroundingOf symbols (rules_of old.statements) found → HasLargeObjective (rules_of old.statements) → ⊥) }
    ensures ends { IfOk result (λ made. made.ends ≡ found.ends) }
    ensures stop { IfErr result (IsWholeStop symbols program.now found) }
{
    let parts = match parts_of(alloc, program, found, &symbols) {
        Ok(parts) => parts,
        Err(Memory) => return Err(ProgramStop::Memory),
    };
    match ground_program(alloc, parts, symbols) {
        Ok(made) => Ok(made),
        Err(stop) => Err(stop),
    }
}
