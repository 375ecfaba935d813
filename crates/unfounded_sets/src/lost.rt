// Loops on a trail at rest, by the sources of the atoms on cycles.
ghost use Rattle.std.specs.Prelude.{◌≡◌, length, IsTrue, IfOk, IfSome, IfNone};
ghost use Rattle.unfounded_sets.specs.Dependence.{Fits};
ghost use Rattle.unfounded_sets.specs.Loops.{IsLoopFree, IsLoop, AreSupported};
ghost use Rattle.unfounded_sets.specs.inner.Outer.{IsWhole, of_parts};
ghost use Rattle.unfounded_sets.specs.inner.Kept.{AreGrouped, AreSourced};

use crate::cut::{all_but_lost, cut_loop};
use crate::groups::Groups;
use crate::loops::find_loop;
use crate::rows::Rows;
use crate::sources::{Sources, all_stand, are_sourced, repair};
use linear_normal::Support;
use literals::Reason;
use std::alloc::Global;
use symbols::Memory;
use trail::Trail;

// Whether each atom on a cycle has a source that is not false, or is false: then no set is unfounded.
fn is_free(
    atoms: u32,
    bodies: &Rows,
    supports: &[Support],
    groups: &Groups,
    sources: &Sources,
    trail: &Trail,
) -> bool
    requires fits { Fits (of_parts atoms bodies.now supports.now) trail.now.shape }
    requires whole { IsWhole (of_parts atoms bodies.now supports.now) }
    requires supported { AreSupported (of_parts atoms bodies.now supports.now) trail.now }
    requires grouped { AreGrouped bodies.now supports.now groups.now }
    requires sourced { AreSourced bodies.now supports.now groups.now sources.now }
    ensures { IsTrue result → IsLoopFree (of_parts atoms bodies.now supports.now) trail.now }
{
    if !groups.is_checked {
        return false;
    }
    if !sources.is_checked {
        return false;
    }
    all_stand(atoms, bodies.len(), &groups.cyclic, &sources.source, trail)
}

// Takes sources anew, and checks them.
fn renew(
    alloc: Global,
    bodies: &Rows,
    supports: &[Support],
    groups: &Groups,
    sources: &mut Sources,
    trail: &Trail,
) -> Result<(), Memory>
    requires fits { trail.now.shape.bodies ≡ length bodies.now }
    ensures { AreSourced bodies.now supports.now groups.now sources.new }
{
    sources.is_checked = false;
    match repair(alloc, bodies.len(), supports, groups, trail, sources) {
        Ok(()) => {
            sources.is_checked = are_sourced(
                bodies,
                supports,
                &groups.level,
                &groups.cyclic,
                sources,
            );
            Ok(())
        }
        Err(memory) => Err(memory),
    }
}

// The loop nogood of an atom of an unfounded set, where there is one.
pub(crate) fn find_lost(
    alloc: Global,
    atoms: u32,
    bodies: &Rows,
    supports: &[Support],
    groups: &Groups,
    sources: &mut Sources,
    trail: &Trail,
) -> Result<Option<Reason>, Memory>
    requires fits { Fits (of_parts atoms bodies.now supports.now) trail.now.shape }
    requires whole { IsWhole (of_parts atoms bodies.now supports.now) }
    requires supported { AreSupported (of_parts atoms bodies.now supports.now) trail.now }
    requires grouped { AreGrouped bodies.now supports.now groups.now }
    requires sourced { AreSourced bodies.now supports.now groups.now sources.old }
    ensures sourced { AreSourced bodies.now supports.now groups.now sources.new }
    ensures none { IfOk result (λ found. IfNone found (IsLoopFree (of_parts atoms bodies.now supports.now) trail.now)) }
    ensures some { IfOk result (λ found. IfSome found (IsLoop (of_parts atoms bodies.now supports.now) trail.now)) }
{
    if is_free(atoms, bodies, supports, groups, sources, trail) {
        return Ok(None);
    }
    renew(alloc, bodies, supports, groups, sources, trail)?;
    if is_free(atoms, bodies, supports, groups, sources, trail) {
        return Ok(None);
    }
    let given = all_but_lost(alloc, atoms, bodies.len(), groups, &sources.source, trail)?;
    let cut = cut_loop(alloc, atoms, bodies, supports, &given, trail)?;
    if let Some(reason) = cut {
        return Ok(Some(reason));
    }
    find_loop(alloc, atoms, bodies, supports, trail)
}
