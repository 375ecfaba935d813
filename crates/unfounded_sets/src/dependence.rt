// The positive atoms of bodies.
ghost use Rattle.std.specs.Prelude.{◌≡◌, ◌++◌, map, OnOk, IfOk};
ghost use Rattle.unfounded_sets.specs.Dependence.{positive_atoms};

use crate::rows::Rows;
use linear_normal::Conjunction;
use literals::Lit;
use std::alloc::Global;
use symbols::Memory;

// Adds the positive atoms of a body.
fn add_positive(lits: &[Lit], row: &mut Vec<u32>) -> Result<(), Memory>
    ensures { OnOk result (row.new.items ≡ row.old.items ++ positive_atoms lits.now) }
{
    for lit in lits {
        if let Lit::Atom(atom, true) = lit {
            row.push(*atom)?;
        }
    }
    Ok(())
}

// The positive atoms of each body.
pub(crate) fn positive_rows(alloc: Global, bodies: &[Conjunction]) -> Result<Rows, Memory>
    ensures { IfOk result (λ rows. rows ≡ map (λ body. positive_atoms body.lits) bodies.now) }
{
    let mut rows = Rows::new(alloc);
    let mut row = Vec::new(alloc);
    for body in bodies {
        row.clear();
        add_positive(body.lits.items(), &mut row)?;
        rows.push(&row)?;
    }
    Ok(rows)
}
