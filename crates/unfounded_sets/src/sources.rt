// A source for each atom on a cycle: a body that supports it by atoms that stand lower (the source pointers of smodels
// and clasp).
//
// Sources stay well-founded whatever the trail does, so nothing is undone: each call reads whether they are false.
ghost use Rattle.std.specs.Prelude.{◌≡◌, ◌<◌, ◌≤◌, true, false, IsTrue, IfOk};
ghost use Rattle.std.specs.List.{AllByRecursion};
ghost use Rattle.literals.specs.declared.lit.Lit.TheVariants.{Atom, Body};
ghost use Rattle.trail.specs.Assignment.{is_true_on};
ghost use Rattle.unfounded_sets.specs.inner.Kept.{AreSourced};
ghost use Rattle.unfounded_sets.specs.inner.Sources.{IsLower, AreLower, IsSourced, Stands};

use crate::groups::Groups;
use crate::rows::Rows;
use crate::table::{at, put};
use crate::truth::is_true;
use linear_normal::Support;
use literals::Lit;
use std::alloc::Global;
use symbols::Memory;
use trail::Trail;

// By atom the body that is its source, 0 where there is none, the place of that support, and the atom's rank. Where
// `is_checked` each source of an atom on a cycle is by atoms that stand lower.
#[derive(Debug, Drop)]
pub(crate) struct Sources {
    pub(crate) is_checked: bool,
    pub(crate) source: Vec<u32>,
    pub(crate) place: Vec<u32>,
    pub(crate) rank: Vec<u32>,
}

// Whether the body has a number up to the last and is not false.
#[inline]
fn is_open_body(bodies: usize, body: u32, trail: &Trail) -> bool
    requires { bodies ≤ trail.now.shape.bodies }
    ensures { IsTrue result → (1 ≤ body) × (is_true_on trail.now (Body body false) ≡ false) }
{
    if body == 0 || body as usize > bodies {
        return false;
    }
    !is_true(trail, Lit::Body(body, false))
}

// Whether the atom has a number up to the last and is false.
#[inline]
fn is_false_atom(atoms: u32, atom: u32, trail: &Trail) -> bool
    requires { atoms ≤ trail.now.shape.atoms }
    ensures { IsTrue result → is_true_on trail.now (Atom atom false) ≡ true }
{
    if atom == 0 || atom > atoms {
        return false;
    }
    is_true(trail, Lit::Atom(atom, false))
}

// Whether the atom has a number up to the last and is true.
#[inline]
pub(crate) fn is_true_atom(atoms: u32, atom: u32, trail: &Trail) -> bool
    requires { atoms ≤ trail.now.shape.atoms }
{
    if atom == 0 || atom > atoms {
        return false;
    }
    is_true(trail, Lit::Atom(atom, true))
}

// Whether the atom has no source that is not false, and is not false.
#[inline]
pub(crate) fn is_lost(atoms: u32, bodies: usize, source: &[u32], atom: u32, trail: &Trail) -> bool
    requires atoms { atoms ≤ trail.now.shape.atoms }
    requires bodies { bodies ≤ trail.now.shape.bodies }
    ensures { result ≡ false → Stands trail.now source.now atom }
{
    if is_open_body(bodies, at(source, atom), trail) {
        return false;
    }
    !is_false_atom(atoms, atom, trail)
}

// Whether each atom has a source that is not false, or is false.
pub(crate) fn all_stand(
    atoms: u32,
    bodies: usize,
    cyclic: &[u32],
    source: &[u32],
    trail: &Trail,
) -> bool
    requires atoms { atoms ≤ trail.now.shape.atoms }
    requires bodies { bodies ≤ trail.now.shape.bodies }
    ensures { IsTrue result → AllByRecursion (Stands trail.now source.now) cyclic.now }
{
    for atom in cyclic {
        if is_lost(atoms, bodies, source, *atom, trail) {
            return false;
        }
    }
    true
}

// Whether the first stands lower than the second: in a lower component, or in the same by a lower rank.
#[inline]
fn is_lower(level: &[u32], rank: &[u32], first: u32, second: u32) -> bool
    ensures { IsTrue result → IsLower level.now rank.now first second }
{
    let low = at(level, first);
    let high = at(level, second);
    let before = at(rank, first);
    let after = at(rank, second);
    if low < high {
        return true;
    }
    if low > high {
        return false;
    }
    before < after
}

// Whether all of these stand lower than the atom.
fn are_lower(level: &[u32], rank: &[u32], atom: u32, row: &[u32]) -> bool
    ensures { IsTrue result → AreLower level.now rank.now atom row.now }
{
    for other in row {
        if !is_lower(level, rank, *other, atom) {
            return false;
        }
    }
    true
}

// Whether the atom has no source, or one by atoms that stand lower.
fn is_sourced(
    bodies: &Rows,
    supports: &[Support],
    level: &[u32],
    sources: &Sources,
    atom: u32,
) -> bool
    ensures { IsTrue result → IsSourced bodies.now supports.now level.now sources.now.rank.items sources.now.source.items atom }
{
    let body = at(&sources.source, atom);
    if body == 0 {
        return true;
    }
    let place = at(&sources.place, atom) as usize;
    if place >= supports.len() {
        return false;
    }
    let support = supports[place];
    if support.atom != atom || support.body != body {
        return false;
    }
    are_lower(level, &sources.rank, atom, bodies.numbered(body))
}

// Whether each of these is so.
pub(crate) fn are_sourced(
    bodies: &Rows,
    supports: &[Support],
    level: &[u32],
    cyclic: &[u32],
    sources: &Sources,
) -> bool
    ensures { IsTrue result → AllByRecursion (IsSourced bodies.now supports.now level.now sources.now.rank.items sources.now.source.items) cyclic.now }
{
    for atom in cyclic {
        if !is_sourced(bodies, supports, level, sources, *atom) {
            return false;
        }
    }
    true
}

// Takes the support as the source of its atom, if that has none and the body is not false.
fn take_source(
    bodies: usize,
    support: Support,
    place: u32,
    trail: &Trail,
    sources: &mut Sources,
    queue: &mut Vec<u32>,
) -> Result<(), Memory>
    requires { bodies ≤ trail.now.shape.bodies }
    ensures { sources.new.is_checked ≡ sources.old.is_checked }
{
    if at(&sources.source, support.atom) != 0 {
        return Ok(());
    }
    if !is_open_body(bodies, support.body, trail) {
        return Ok(());
    }
    queue.push(support.atom)?;
    let rank = match u32::try_from(queue.len()) {
        Ok(rank) => rank,
        Err(_) => 0,
    };
    put(&mut sources.source, support.atom, support.body);
    put(&mut sources.place, support.atom, place);
    put(&mut sources.rank, support.atom, rank);
    Ok(())
}

// Takes the sources of the atoms away.
fn clear(cyclic: &[u32], sources: &mut Sources)
    ensures { sources.new.is_checked ≡ sources.old.is_checked }
{
    for atom in cyclic {
        put(&mut sources.source, *atom, 0);
        put(&mut sources.rank, *atom, 0);
    }
}

// Takes the supports with no positive atom of their own component.
fn take_first(
    bodies: usize,
    supports: &[Support],
    groups: &Groups,
    trail: &Trail,
    sources: &mut Sources,
    queue: &mut Vec<u32>,
) -> Result<(), Memory>
    requires { bodies ≤ trail.now.shape.bodies }
    ensures { sources.new.is_checked ≡ sources.old.is_checked }
{
    for place in &groups.inner {
        let index = *place as usize;
        if index < supports.len() && at(&groups.needs, *place) == 0 {
            take_source(bodies, supports[index], *place, trail, sources, queue)?;
        }
    }
    Ok(())
}

// Meets one need of each support that has the atom, and takes those with none left.
fn meet(
    bodies: usize,
    supports: &[Support],
    met: &[u32],
    needs: &mut [u32],
    trail: &Trail,
    sources: &mut Sources,
    queue: &mut Vec<u32>,
) -> Result<(), Memory>
    requires { bodies ≤ trail.now.shape.bodies }
    ensures { sources.new.is_checked ≡ sources.old.is_checked }
{
    for place in met {
        let index = *place as usize;
        let left = at(needs, *place).saturating_sub(1);
        put(needs, *place, left);
        if left == 0 && index < supports.len() {
            take_source(bodies, supports[index], *place, trail, sources, queue)?;
        }
    }
    Ok(())
}

// Takes sources anew, from those that need none of their own component on. Linear in the supports of atoms on cycles.
pub(crate) fn repair(
    alloc: Global,
    bodies: usize,
    supports: &[Support],
    groups: &Groups,
    trail: &Trail,
    sources: &mut Sources,
) -> Result<(), Memory>
    requires { bodies ≤ trail.now.shape.bodies }
    ensures { sources.new.is_checked ≡ sources.old.is_checked }
{
    clear(&groups.cyclic, sources);
    let mut needs = Vec::from_slice(alloc, &groups.needs)?;
    let mut queue = Vec::new(alloc);
    take_first(bodies, supports, groups, trail, sources, &mut queue)?;
    for taken in 0..groups.cyclic.len() {
        if taken >= queue.len() {
            return Ok(());
        }
        let met = groups.users.of(queue[taken]);
        meet(
            bodies, supports, met, &mut needs, trail, sources, &mut queue,
        )?;
    }
    Ok(())
}

// No sources yet.
pub(crate) fn no_sources(
    alloc: Global,
    atoms: u32,
    bodies: &Rows,
    supports: &[Support],
    groups: &Groups,
) -> Result<Sources, Memory>
    ensures { IfOk result (λ sources. AreSourced bodies.now supports.now groups.now sources) }
{
    let places = atoms as usize + 2;
    let mut sources = Sources {
        is_checked: false,
        source: vec![in alloc; 0u32; places]?,
        place: vec![in alloc; 0u32; places]?,
        rank: vec![in alloc; 0u32; places]?,
    };
    sources.is_checked = are_sourced(bodies, supports, &groups.level, &groups.cyclic, &sources);
    Ok(sources)
}
