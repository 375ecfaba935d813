// The nogoods of atoms.
ghost use Rattle.std.specs.Prelude.{◌≡◌, ◌++◌, ◌∷◌, [], ◌<◌, ◌^◌, true, map, vec_items, length, OnOk, IfOk};
ghost use Rattle.std.specs.List.{All, range_with_len};
ghost use Rattle.literals.specs.declared.lit.Lit.TheVariants.{Atom};
ghost use Rattle.literals.specs.Lits.{IsLit};
ghost use Rattle.literals.specs.Nogoods.{canonical};
ghost use Rattle.ground_model.specs.Answers.{IsNumbered};
ghost use Rattle.completion.specs.Inputs.{atom_nogood};
ghost use Rattle.completion.specs.inner.Parts.{atom_lits, IsSupport};

use linear_normal::Support;
use literals::{Lit, Nogood};
use std::alloc::Global;
use symbols::{Listed, Memory};

// For each atom the literal that it is true.
fn true_atoms(alloc: Global, atoms: usize) -> Result<Vec<Vec<Lit>>, Memory>
    requires { atoms < 2 ^ 32 }
    ensures { IfOk result (λ rows. map vec_items rows.items ≡ map (atom_lits []) (range_with_len 1 atoms)) }
{
    let mut rows = Vec::new(alloc);
    for at in 0..atoms {
        let mut row = Vec::new(alloc);
        row.push(Lit::Atom(at as u32 + 1, true))?;
        rows.push(row)?;
    }
    Ok(rows)
}

// For each atom the literals that it is true, and that the bodies which support it are false.
fn atom_rows(alloc: Global, atoms: usize, supports: &[Support]) -> Result<Vec<Vec<Lit>>, Memory>
    requires atoms { atoms < 2 ^ 32 }
    requires supports { All (IsSupport atoms) supports.now }
    ensures { IfOk result (λ rows. map vec_items rows.items ≡ map (atom_lits supports.now) (range_with_len 1 atoms)) }
{
    let mut rows = true_atoms(alloc, atoms)?;
    for support in supports {
        rows[support.atom as usize - 1].push(Lit::Body(support.body, false))?;
    }
    Ok(rows)
}

// Adds the nogoods of the rows.
fn add_rows(alloc: Global, rows: &[Vec<Lit>], nogoods: &mut Listed<Nogood>) -> Result<(), Memory>
    requires { All (λ row. All IsLit (vec_items row)) rows.now }
    ensures { OnOk result (nogoods.new ≡ nogoods.old ++ map (λ row. canonical (vec_items row)) rows.now) }
{
    for row in rows {
        let nogood = Nogood::from_lits(alloc, row)?;
        nogoods.push(nogood)?;
    }
    Ok(())
}

// Adds that each true atom has a true body.
pub(crate) fn add_atoms(
    alloc: Global,
    atoms: usize,
    supports: &[Support],
    nogoods: &mut Listed<Nogood>,
) -> Result<(), Memory>
    requires atoms { atoms < 2 ^ 32 }
    requires supports { All (IsSupport atoms) supports.now }
    ensures { OnOk result (nogoods.new ≡ nogoods.old ++ map (atom_nogood supports.now) (range_with_len 1 atoms)) }
{
    let rows = atom_rows(alloc, atoms, supports)?;
    add_rows(alloc, &rows, nogoods)
}
