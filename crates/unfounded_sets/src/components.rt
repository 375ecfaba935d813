// Strongly connected components of the positive dependence between atoms (Tarjan 1972).
//
// A component is closed after all that it depends on, so components are numbered from below. Nothing is proved of
// them here but that the walk is safe and ends: what stands on them is checked (`groups`).
use crate::rows::Rows;
use crate::table::{Buckets, Keyed, at, put};
use linear_normal::Support;
use std::alloc::Global;
use symbols::Memory;

// Where a walk over the atoms stands: by atom its place in the order of the visits, the least place that is
// reached from it, the next edge, whether it is in no component yet, its component, and whether it lies on a cycle.
#[derive(Debug, Drop)]
struct Walk {
    visit: Vec<u32>,
    low: Vec<u32>,
    next: Vec<u32>,
    is_open: Vec<u32>,
    level: Vec<u32>,
    on_cycle: Vec<u32>,
    open: Vec<u32>,
    path: Vec<u32>,
    visits: u32,
    levels: u32,
}

// By atom the number of its component, and 1 where it lies on a cycle.
#[derive(Debug, Drop)]
pub(crate) struct Components {
    pub(crate) level: Vec<u32>,
    pub(crate) on_cycle: Vec<u32>,
}

// Each positive atom of a body, under each atom that the body supports.
fn dependences(alloc: Global, bodies: &Rows, supports: &[Support]) -> Result<Vec<Keyed>, Memory> {
    let mut edges = Vec::new(alloc);
    for support in supports {
        for atom in bodies.numbered(support.body) {
            edges.push(Keyed {
                key: support.atom,
                number: *atom,
            })?;
        }
    }
    Ok(edges)
}

fn new_walk(alloc: Global, places: usize) -> Result<Walk, Memory> {
    Ok(Walk {
        visit: vec![in alloc; 0u32; places]?,
        low: vec![in alloc; 0u32; places]?,
        next: vec![in alloc; 0u32; places]?,
        is_open: vec![in alloc; 0u32; places]?,
        level: vec![in alloc; 0u32; places]?,
        on_cycle: vec![in alloc; 0u32; places]?,
        open: Vec::new(alloc),
        path: Vec::new(alloc),
        visits: 0,
        levels: 0,
    })
}

// Visits an atom for the first time.
fn open(walk: &mut Walk, atom: u32) -> Result<(), Memory> {
    let visit = walk.visits.wrapping_add(1);
    walk.visits = visit;
    put(&mut walk.visit, atom, visit);
    put(&mut walk.low, atom, visit);
    put(&mut walk.is_open, atom, 1);
    walk.open.push(atom)?;
    walk.path.push(atom)?;
    Ok(())
}

// Lowers what is reached from an atom.
fn lower(walk: &mut Walk, atom: u32, place: u32) {
    if place < at(&walk.low, atom) {
        put(&mut walk.low, atom, place);
    }
}

// Goes along an edge.
fn follow(walk: &mut Walk, from: u32, to: u32) -> Result<(), Memory> {
    if from == to {
        put(&mut walk.on_cycle, from, 1);
    }
    let visit = at(&walk.visit, to);
    if visit == 0 {
        return open(walk, to);
    }
    if at(&walk.is_open, to) == 1 {
        lower(walk, from, visit);
    }
    Ok(())
}

// Closes the component of which this atom was visited first.
fn close(walk: &mut Walk, first: u32) {
    let level = walk.levels.wrapping_add(1);
    walk.levels = level;
    for _ in 0..walk.open.len() {
        let Some(atom) = walk.open.pop() else {
            return;
        };
        put(&mut walk.is_open, atom, 0);
        put(&mut walk.level, atom, level);
        if atom == first {
            return;
        }
        put(&mut walk.on_cycle, atom, 1);
        put(&mut walk.on_cycle, first, 1);
    }
}

// Leaves an atom all of whose edges were followed.
fn leave(walk: &mut Walk, atom: u32) {
    let low = at(&walk.low, atom);
    if low == at(&walk.visit, atom) {
        close(walk, atom);
        return;
    }
    if let Some(before) = last_of(&walk.path) {
        lower(walk, before, low);
    }
}

fn last_of(path: &[u32]) -> Option<u32> {
    match path.last() {
        Some(atom) => Some(*atom),
        None => None,
    }
}

// One step: along the next edge of the last atom of the path, or back from it.
fn step(walk: &mut Walk, edges: &Buckets) -> Result<bool, Memory> {
    let Some(atom) = last_of(&walk.path) else {
        return Ok(false);
    };
    let next = at(&walk.next, atom);
    let row = edges.of(atom);
    if (next as usize) < row.len() {
        put(&mut walk.next, atom, next.wrapping_add(1));
        follow(walk, atom, row[next as usize])?;
        return Ok(true);
    }
    walk.path.pop();
    leave(walk, atom);
    Ok(true)
}

// Walks from an atom on until the path is empty, or for so many steps.
fn walk_from(walk: &mut Walk, edges: &Buckets, atom: u32, steps: usize) -> Result<(), Memory> {
    if at(&walk.visit, atom) != 0 {
        return Ok(());
    }
    open(walk, atom)?;
    for _ in 0..steps {
        if !step(walk, edges)? {
            return Ok(());
        }
    }
    Ok(())
}

// The components of the atoms up to a number. Linear in the supports, the positive atoms of their bodies, and the atoms.
pub(crate) fn find_components(
    alloc: Global,
    atoms: u32,
    bodies: &Rows,
    supports: &[Support],
) -> Result<Components, Memory> {
    let places = atoms as usize + 2;
    let pairs = dependences(alloc, bodies, supports)?;
    let edges = Buckets::new(alloc, places, &pairs)?;
    let mut walk = new_walk(alloc, places)?;
    let steps = pairs.len().saturating_add(places).saturating_add(places);
    for atom in 0..atoms {
        walk_from(&mut walk, &edges, atom + 1, steps)?;
    }
    Ok(Components {
        level: walk.level,
        on_cycle: walk.on_cycle,
    })
}
