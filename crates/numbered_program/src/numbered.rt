// Rules and tuples over numbers.
ghost use Rattle.std.specs.Prelude.{◌<◌, ◌^◌, length, IfOk};
ghost use Rattle.numbered_program.specs.Parts.{HasParts};
ghost use Rattle.numbered_program.specs.inner.Numbered.{IsNumbered};

use crate::parts::ProgramParts;
use ground_model::{GroundRule, Place};
use numbered_rules::{numbered_places, numbered_rules, numbers_by_id};
use std::alloc::Global;
use symbols::{Listed, Memory, SymbolTable};

// The rules and the objective of a program over the numbers of its atoms and variables.
#[derive(Drop)]
pub(crate) struct NumberedParts {
    pub(crate) rules: Listed<GroundRule>,
    pub(crate) smaller: Listed<Place>,
    pub(crate) larger: Listed<Place>,
}

// Those of parts.
pub(crate) fn numbered(
    alloc: Global,
    parts: &ProgramParts,
    symbols: &SymbolTable,
) -> Result<NumberedParts, Memory>
    requires known { HasParts (length symbols.now) parts.now }
    requires few_atoms { length parts.now.atoms < 2 ^ 32 }
    requires few_variables { length parts.now.variables < 2 ^ 32 }
    ensures { IfOk result (IsNumbered symbols.now parts.now) }
{
    let atoms = numbers_by_id(alloc, symbols, parts.atoms.items())?;
    let variables = numbers_by_id(alloc, symbols, parts.variables.items())?;
    let rules = numbered_rules(alloc, &atoms, &variables, parts.rules.items())?;
    let smaller = numbered_places(alloc, &variables, parts.smaller.items())?;
    let larger = numbered_places(alloc, &variables, parts.larger.items())?;
    Ok(NumberedParts {
        rules,
        smaller,
        larger,
    })
}
