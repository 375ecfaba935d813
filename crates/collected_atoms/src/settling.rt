// Guards that are linear.
ghost use Rattle.std.specs.Prelude.{Some, IfSome, IfNone};
ghost use Rattle.collected_atoms.specs.inner.Settled.{IsSettledOf, IsCrooked};

use crate::atom::CollectedGuard;
use crate::gathering::JudgedGuard;
use collected_elements::JudgedTerm;
use symbols::Rel;

// A guard that is linear: whether it is too large, and else its right side.
#[derive(Drop)]
pub(crate) struct SettledGuard {
    pub(crate) large: bool,
    pub(crate) guard: Option<CollectedGuard>,
}

// A guard, if it is linear.
pub(crate) fn settled_guard(guard: Option<JudgedGuard>) -> Option<SettledGuard>
    ensures some { IfSome result (IsSettledOf guard) }
    ensures none { IfNone result (IsCrooked guard) }
{
    match guard {
        None => Some(SettledGuard {
            large: false,
            guard: None,
        }),
        Some(guard) => settled_right(guard.rel, guard.right),
    }
}

fn settled_right(rel: Rel, right: JudgedTerm) -> Option<SettledGuard>
    ensures some { IfSome result (IsSettledOf (Some (record { rel = rel; right = right }))) }
    ensures none { IfNone result (IsCrooked (Some (record { rel = rel; right = right }))) }
{
    match right {
        JudgedTerm::NotLinear => None,
        JudgedTerm::Large => Some(SettledGuard {
            large: true,
            guard: None,
        }),
        JudgedTerm::Form(right) => Some(SettledGuard {
            large: false,
            guard: Some(CollectedGuard { rel, right }),
        }),
    }
}
