// The parts of a ground program.
ghost use Rattle.std.specs.Prelude.{◌≡◌, length, IfOk};
ghost use Rattle.syntax_tree.specs.declared.statement.Program.{Program};
ghost use Rattle.rewriting.specs.Rewriting.{IsRewriting};
ghost use Rattle.safety_meaning.specs.Program.{program_of, rules_of};
ghost use Rattle.numbered_program.specs.Parts.{ArePartsOf, HasParts};
ghost use Rattle.program_parts.specs.Grounding.{HasGrounding, IsGroundingOf};

use crate::grounding::Grounding;
use numbered_program::ProgramParts;
use objective_parts::directed_places;
use rewriting::RewrittenProgram;
use shown_flags::{has_directive, has_objective, shown_atoms, shown_variables};
use std::alloc::Global;
use symbols::{Memory, SymbolTable, sorted_ids};
use syntax_tree::TheoryName;

// The parts of the ground program of a rewritten program.
pub(crate) fn parts_of(
    alloc: Global,
    program: &RewrittenProgram,
    found: Grounding,
    symbols: &SymbolTable,
) -> Result<ProgramParts, Memory>
    requires { HasGrounding (length symbols.now) found }
    ensures known { IfOk result (HasParts (length symbols.now)) }
    ensures parts { IfOk result (λ parts. (old : Program) → IsRewriting old program.now → IsGroundingOf symbols.now (rules_of old.statements) found → ArePartsOf symbols.now (program_of old.statements) parts) }
    ensures ends { IfOk result (λ parts. parts.ends ≡ found.ends) }
{
    symbols.symbols_are_distinct();
    let statements = program.program.statements.items();
    let atoms = sorted_ids(alloc, symbols, found.atoms.items())?;
    let sets = directed_places(alloc, found.directives, symbols)?;
    let atom_flags = shown_atoms(alloc, statements, atoms.items(), symbols)?;
    let shows = has_directive(statements, TheoryName::Show);
    let variable_flags = shown_variables(
        alloc,
        shows,
        sets.shown.items(),
        found.variables.items(),
        symbols,
    )?;
    let aims = has_objective(statements);
    Ok(ProgramParts {
        ends: found.ends,
        atoms,
        variables: found.variables,
        rules: found.rules,
        has_objective: aims,
        smaller: sets.smaller,
        larger: sets.larger,
        shown_atoms: atom_flags,
        shown_variables: variable_flags,
    })
}
