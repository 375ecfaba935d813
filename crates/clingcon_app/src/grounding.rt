// The ground program of statements over symbols.
ghost use Rattle.std.specs.Prelude.{◌≡◌, true, IfOk};
ghost use Rattle.symbols.specs.Table.{IsOnce};
ghost use Rattle.first_form.specs.Form.{HaveKnown, rules_in};
ghost use Rattle.ground_model.specs.Definite.{is_definite};
ghost use Rattle.clingcon_app.specs.Program.{IsProgramOf};

use crate::numbering::{Numbering, all_shown, numbered};
use first_form::DefiniteStatement;
use ground_model::GroundProgram;
use std::alloc::Global;
use symbols::{Ends, Listed, Memory, SymbolTable};

/// The ground program whose rules are the statements: its atoms are those that occur, in symbol order.
pub(crate) fn program_of(
    alloc: Global,
    symbols: SymbolTable,
    statements: &[DefiniteStatement],
) -> Result<GroundProgram, Memory>
    requires once { IsOnce symbols }
    requires known { HaveKnown symbols statements.now }
    ensures says { IfOk result (IsProgramOf (rules_in symbols statements.now)) }
    ensures definite { IfOk result (λ program. is_definite program ≡ true) }
{
    let Numbering { atoms, rules } = numbered(alloc, &symbols, statements)?;
    let shown_atoms = all_shown(alloc, atoms.len())?;
    Ok(GroundProgram {
        ends: Ends::widest(),
        atoms,
        variables: Listed::new(alloc),
        rules,
        has_objective: false,
        smaller: Listed::new(alloc),
        larger: Listed::new(alloc),
        shown_atoms,
        shown_variables: Listed::new(alloc),
        symbols,
    })
}
