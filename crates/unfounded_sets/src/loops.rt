// The loop nogood of an atom that no derivation reaches.
ghost use Rattle.std.specs.Prelude.{◌≡◌, IfOk, IfSome, IfNone};
ghost use Rattle.unfounded_sets.specs.Dependence.{Fits};
ghost use Rattle.unfounded_sets.specs.Loops.{IsLoopFree, IsLoop};
ghost use Rattle.unfounded_sets.specs.inner.Outer.{IsWhole, of_parts};

use crate::flags::left;
use crate::founded::given;
use crate::reason::{make_reason, named_atom, outer};
use crate::rows::Rows;
use linear_normal::Support;
use literals::Reason;
use std::alloc::Global;
use symbols::Memory;
use trail::Trail;

// The loop nogood of an atom that no derivation reaches, where there is one.
pub(crate) fn find_loop(
    alloc: Global,
    atoms: u32,
    bodies: &Rows,
    supports: &[Support],
    trail: &Trail,
) -> Result<Option<Reason>, Memory>
    requires fits { Fits (of_parts atoms bodies.now supports.now) trail.now.shape }
    requires whole { IsWhole (of_parts atoms bodies.now supports.now) }
    ensures none { IfOk result (λ found. IfNone found (IsLoopFree (of_parts atoms bodies.now supports.now) trail.now)) }
    ensures some { IfOk result (λ found. IfSome found (IsLoop (of_parts atoms bodies.now supports.now) trail.now)) }
{
    let given = given(alloc, atoms, bodies, supports, trail)?;
    let set = left(alloc, given.items())?;
    let Some(atom) = named_atom(&set, trail) else {
        return Ok(None);
    };
    let outside = outer(alloc, bodies, supports, given.items())?;
    let reason = make_reason(alloc, set, atom, &outside)?;
    Ok(Some(reason))
}
