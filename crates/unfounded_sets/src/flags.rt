// Atoms without a flag.
ghost use Rattle.std.specs.Prelude.{◌≡◌, ◌<◌, ◌≤◌, ◌-◌, ◌^◌, length, IfOk};
ghost use Rattle.definite_rules.specs.Least.{flag_at};
ghost use Rattle.unfounded_sets.specs.inner.Outer.{left_of};

use std::alloc::Global;
use symbols::Memory;

// Whether the atom has a flag.
#[inline]
pub(crate) fn has_flag(given: &[bool], atom: u32) -> bool
    requires { atom < length given.now }
    ensures { result ≡ flag_at given.now atom }
{
    given[atom as usize]
}

// The atoms from 1 on that have no flag, ascending.
pub(crate) fn left(alloc: Global, given: &[bool]) -> Result<Vec<u32>, Memory>
    requires some { 1 ≤ length given.now }
    requires few { length given.now ≤ 2 ^ 32 }
    ensures { IfOk result (λ set. set.items ≡ left_of given.now (length given.now - 1)) }
{
    let mut set = Vec::new(alloc);
    for at in 1..given.len() {
        let atom = at as u32;
        if has_flag(given, atom) {
            continue;
        }
        set.push(atom)?;
    }
    Ok(set)
}
