// Ground programs from their parts.
ghost use Rattle.std.specs.Prelude.{◌≡◌, length, IfOk, IfErr};
ghost use Rattle.program_meaning.specs.Read.{ReadProgram};
ghost use Rattle.program_meaning.specs.Canonical.{view_of, IsCanonical};
ghost use Rattle.program_meaning.specs.Outside.{HasLargeObjective};
ghost use Rattle.numbered_program.specs.Parts.{HasParts, ArePartsOf, AreGrounded, IsProgramStop};

use crate::numbered::numbered;
use ground_model::GroundProgram;
use ground_parts::GroundParts;
use program_meaning::CollectedPlace;
use std::alloc::Global;
use symbol_rules::SymbolRule;
use symbols::{Ends, Listed, Memory, SymbolId, SymbolTable};

/// What a ground program is made of, by symbols: atoms and variables in the order of symbols, the rules of
/// the relevant instances in order, the tuples to minimise and those to maximise in order, and a flag for each
/// atom and each variable that is shown.
#[derive(Drop)]
pub struct ProgramParts {
    pub ends: Ends,
    pub atoms: Listed<SymbolId>,
    pub variables: Listed<SymbolId>,
    pub rules: Listed<SymbolRule>,
    pub has_objective: bool,
    pub smaller: Listed<CollectedPlace>,
    pub larger: Listed<CollectedPlace>,
    pub shown_atoms: Listed<bool>,
    pub shown_variables: Listed<bool>,
}

/// Why there is no ground program.
#[derive(Clone, Copy, Debug, PartialEq, Eq)]
pub enum ProgramStop {
    /// The objective is too large.
    LargeObjective,
    Memory,
}

/// The canonical ground program of a program, from its parts. Linear in the parts and the table.
pub fn ground_program(
    alloc: Global,
    parts: ProgramParts,
    symbols: SymbolTable,
) -> Result<GroundProgram, ProgramStop>
    requires known { HasParts (length symbols) parts }
    requires grounded { AreGrounded symbols parts }
    ensures canonical { IfOk result (λ made. (program : ReadProgram) → ArePartsOf symbols program parts → IsCanonical program (view_of made)) }
    ensures small { IfOk result (λ made. (program : ReadProgram) → ArePartsOf symbols program parts → HasLargeObjective program.rules → ⊥) }
    ensures ends { IfOk result (λ made. made.ends ≡ parts.ends) }
    ensures stop { IfErr result (IsProgramStop symbols parts) }
{
    let made = match numbered(alloc, &parts, &symbols) {
        Ok(made) => made,
        Err(Memory) => return Err(ProgramStop::Memory),
    };
    let whole = GroundParts {
        ends: parts.ends,
        atoms: parts.atoms,
        variables: parts.variables,
        rules: made.rules,
        has_objective: parts.has_objective,
        smaller: made.smaller,
        larger: made.larger,
        shown_atoms: parts.shown_atoms,
        shown_variables: parts.shown_variables,
        symbols,
    };
    match whole.checked(alloc) {
        Ok(Some(program)) => Ok(program),
        Ok(None) => Err(ProgramStop::LargeObjective),
        Err(Memory) => Err(ProgramStop::Memory),
    }
}
