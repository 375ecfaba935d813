// The selecting bodies of a choice, by its atoms.
ghost use Rattle.std.specs.Prelude.{◌≡◌, ◌+◌, ◌<◌, ◌≤◌, ◌^◌, ◌==◌, ℕ, [], true, map, length, slice_index_or, vec_items, IfOk};
ghost use Rattle.std.specs.List.{AllByRecursion, list_any};
ghost use Rattle.ground_model.specs.Answers.{IsNumbered, ascend_from, has_atom};
ghost use Rattle.linear_normal.specs.Bodies.{atoms_in, numbers_with};
ghost use Rattle.linear_normal.specs.inner.Tables.{IsSoundItem};

use ground_model::ChoiceItem;
use std::alloc::Global;
use symbols::Memory;

// The atoms of elements, in their order.
fn atoms_of(alloc: Global, items: &[ChoiceItem]) -> Result<Vec<u32>, Memory>
    ensures { IfOk result (λ atoms. atoms.items ≡ map (λ item. item.atom) items.now) }
{
    let mut atoms = Vec::new(alloc);
    for item in items {
        atoms.push(item.atom)?;
    }
    Ok(atoms)
}

// The different atoms of elements, ascending.
fn ascending_atoms(alloc: Global, items: &[ChoiceItem]) -> Result<Vec<u32>, Memory>
    requires { AllByRecursion IsSoundItem items.now }
    ensures ascends { IfOk result (λ atoms. ascend_from 0 atoms.items ≡ true) }
    ensures members { IfOk result (λ atoms. (a : ℕ) → has_atom atoms.items a ≡ list_any (λ item. item.atom == a) items.now) }
{
    let mut atoms = atoms_of(alloc, items)?;
    atoms.sort_unstable();
    atoms.dedup();
    Ok(atoms)
}

// The place of an atom among these.
fn place_of(atoms: &[u32], atom: u32) -> usize
    requires ascends { ascend_from 0 atoms.now ≡ true }
    requires member { has_atom atoms.now atom ≡ true }
    ensures within { result < length atoms.now }
    ensures is { slice_index_or atoms.now result 0 ≡ atom }
{
    match atoms.binary_search(&atom) {
        Ok(place) => place,
        Err(place) => place,
    }
}

// An empty row for each atom.
fn empty_rows(alloc: Global, atoms: &[u32]) -> Result<Vec<Vec<u32>>, Memory>
    ensures { IfOk result (λ rows. map vec_items rows.items ≡ map (λ a. []) atoms.now) }
{
    let mut rows = Vec::new(alloc);
    for _atom in atoms {
        rows.push(Vec::new(alloc))?;
    }
    Ok(rows)
}

// For each different atom, ascending, the numbers of the elements that have it, where these are numbered
// from the first number on.
//
// O(n log n) in the number of elements.
pub(crate) fn selections(
    alloc: Global,
    first: usize,
    items: &[ChoiceItem],
) -> Result<Vec<Vec<u32>>, Memory>
    requires fits { first + length items.now ≤ 2 ^ 32 }
    requires items { AllByRecursion IsSoundItem items.now }
    ensures { IfOk result (λ rows. (atoms : ℕ) → AllByRecursion (λ item. IsNumbered atoms item.atom) items.now
        → map vec_items rows.items ≡ map (numbers_with first items.now) (atoms_in atoms items.now)) }
{
    let atoms = ascending_atoms(alloc, items)?;
    let mut rows = empty_rows(alloc, &atoms)?;
    let mut number = first;
    for item in items {
        let place = place_of(&atoms, item.atom);
        rows[place].push(number as u32)?;
        number += 1;
    }
    Ok(rows)
}
