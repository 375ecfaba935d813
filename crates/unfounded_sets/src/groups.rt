// The atoms that lie on cycles of the positive dependence, and what is checked of them.
ghost use Rattle.std.specs.Prelude.{◌≡◌, ◌<◌, true, IsTrue, IfOk, slice_index};
ghost use Rattle.std.specs.List.{AllByRecursion};
ghost use Rattle.linear_normal.specs.Steps.{is_among};
ghost use Rattle.unfounded_sets.specs.Dependence.{row_of};
ghost use Rattle.unfounded_sets.specs.inner.Sources.{IsGrouped};
ghost use Rattle.unfounded_sets.specs.inner.Kept.{AreGrouped};

use crate::components::{Components, find_components};
use crate::rows::Rows;
use crate::table::{Buckets, Keyed, at, put};
use linear_normal::Support;
use std::alloc::Global;
use symbols::Memory;

// The atoms on cycles, with the components of all atoms, and what a search for sources needs: the supports of atoms on
// cycles, how many positive atoms of its own component each has, and under each atom the supports that have it so.
// Where `is_checked` the supports of all other atoms have positive atoms of lower components alone.
#[derive(Debug, Drop)]
pub(crate) struct Groups {
    pub(crate) is_checked: bool,
    pub(crate) level: Vec<u32>,
    pub(crate) cyclic: Vec<u32>,
    pub(crate) inner: Vec<u32>,
    pub(crate) needs: Vec<u32>,
    pub(crate) users: Buckets,
}

// The atoms up to a number that are marked, ascending.
fn marked(alloc: Global, atoms: u32, marks: &[u32]) -> Result<Vec<u32>, Memory> {
    let mut found = Vec::new(alloc);
    for atom in 0..atoms {
        if at(marks, atom + 1) == 1 {
            found.push(atom + 1)?;
        }
    }
    Ok(found)
}

// By atom its place among these, counted from 0.
fn places_of(alloc: Global, places: usize, atoms: &[u32]) -> Result<Vec<u32>, Memory> {
    let mut table = vec![in alloc; 0u32; places]?;
    let mut place = 0u32;
    for atom in atoms {
        put(&mut table, *atom, place);
        place = place.wrapping_add(1);
    }
    Ok(table)
}

// Whether the atom is among these, at the place that the table says.
fn is_placed(cyclic: &[u32], places: &[u32], atom: u32) -> bool
    ensures { IsTrue result → is_among cyclic.now atom ≡ true }
{
    let place = at(places, atom) as usize;
    if place >= cyclic.len() {
        return false;
    }
    cyclic[place] == atom
}

// Whether all of these are of lower components than the atom.
fn are_below(level: &[u32], atom: u32, row: &[u32]) -> bool
    ensures { IsTrue result → AllByRecursion (λ b. slice_index level.now b < slice_index level.now atom) row.now }
{
    let own = at(level, atom);
    for other in row {
        if at(level, *other) >= own {
            return false;
        }
    }
    true
}

// Whether the support is of an atom of a cycle, or by lower components alone.
fn is_grouped(
    bodies: &Rows,
    level: &[u32],
    cyclic: &[u32],
    places: &[u32],
    support: Support,
) -> bool
    ensures { IsTrue result → IsGrouped bodies.now level.now cyclic.now support }
{
    if is_placed(cyclic, places, support.atom) {
        return true;
    }
    are_below(level, support.atom, bodies.numbered(support.body))
}

// Whether each support is so.
fn are_grouped(
    bodies: &Rows,
    supports: &[Support],
    level: &[u32],
    cyclic: &[u32],
    places: &[u32],
) -> bool
    ensures { IsTrue result → AllByRecursion (IsGrouped bodies.now level.now cyclic.now) supports.now }
{
    for support in supports {
        if !is_grouped(bodies, level, cyclic, places, *support) {
            return false;
        }
    }
    true
}

// How many of these are of the atom's component; each is noted with the support's place.
fn note_users(
    level: &[u32],
    atom: u32,
    row: &[u32],
    place: u32,
    users: &mut Vec<Keyed>,
) -> Result<u32, Memory> {
    let own = at(level, atom);
    let mut count = 0u32;
    for other in row {
        if at(level, *other) == own {
            count = count.wrapping_add(1);
            users.push(Keyed {
                key: *other,
                number: place,
            })?;
        }
    }
    Ok(count)
}

// Finds the atoms on cycles, and checks them.
pub(crate) fn find_groups(
    alloc: Global,
    atoms: u32,
    bodies: &Rows,
    supports: &[Support],
) -> Result<Groups, Memory>
    ensures { IfOk result (λ groups. AreGrouped bodies.now supports.now groups) }
{
    let found = find_components(alloc, atoms, bodies, supports)?;
    let cyclic = marked(alloc, atoms, &found.on_cycle)?;
    let places = places_of(alloc, atoms as usize + 2, &cyclic)?;
    let mut inner = Vec::new(alloc);
    let mut needs = Vec::new(alloc);
    let mut users = Vec::new(alloc);
    note_supports(bodies, supports, &found, &mut inner, &mut needs, &mut users)?;
    let is_checked = are_grouped(bodies, supports, &found.level, &cyclic, &places);
    let users = Buckets::new(alloc, atoms as usize + 2, &users)?;
    Ok(Groups {
        is_checked,
        level: found.level,
        cyclic,
        inner,
        needs,
        users,
    })
}

// Notes the supports of atoms on cycles, by their places.
fn note_supports(
    bodies: &Rows,
    supports: &[Support],
    found: &Components,
    inner: &mut Vec<u32>,
    needs: &mut Vec<u32>,
    users: &mut Vec<Keyed>,
) -> Result<(), Memory> {
    let mut place = 0u32;
    for support in supports {
        if at(&found.on_cycle, support.atom) == 1 {
            let row = bodies.numbered(support.body);
            let count = note_users(&found.level, support.atom, row, place, users)?;
            inner.push(place)?;
            needs.push(count)?;
        } else {
            needs.push(0)?;
        }
        place = place.wrapping_add(1);
    }
    Ok(())
}
