// One propagator among those of a program.
ghost use Rattle.std.specs.Prelude.{◌≡◌};

use crate::domain::DomainPropagator;
use propagator_core::{Outcome, Propagator, Touch};
use std::alloc::Global;
use sum_propagator::SumPropagator;
use symbols::{Listed, Memory};
use trail::Trail;

/// The propagator of a constraint, whatever its kind.
#[derive(Debug, Drop)]
pub enum Any {
    Sum(SumPropagator),
    Domain(DomainPropagator),
}

impl Propagator for Any {
    ghost use Rattle.propagators.specs.declared.any.Any.TheVariants.{Sum, Domain};

    ghost meaning = { elim [ Sum p ↦ ⟦<SumPropagator as Propagator>⟧.meaning p | Domain p ↦ ⟦<DomainPropagator as Propagator>⟧.meaning p ] };

    ghost looked = { elim [ Sum p ↦ ⟦<SumPropagator as Propagator>⟧.looked p | Domain p ↦ ⟦<DomainPropagator as Propagator>⟧.looked p ] };

    ghost stands = { elim [ Sum p ↦ ⟦<SumPropagator as Propagator>⟧.stands p | Domain p ↦ ⟦<DomainPropagator as Propagator>⟧.stands p ] };

    fn constraint(&self) -> u32 {
        match self {
            Any::Sum(sum) => sum.constraint(),
            Any::Domain(domain) => domain.constraint(),
        }
    }

    fn touches(&self, alloc: Global) -> Result<Listed<Touch>, Memory> {
        match self {
            Any::Sum(sum) => sum.touches(alloc),
            Any::Domain(domain) => domain.touches(alloc),
        }
    }

    fn seen(&self) -> usize {
        match self {
            Any::Sum(sum) => sum.seen(),
            Any::Domain(domain) => domain.seen(),
        }
    }

    fn undo(&mut self, trail: &Trail) {
        match self {
            Any::Sum(sum) => sum.undo(trail),
            Any::Domain(domain) => domain.undo(trail),
        }
    }

    fn propagate(&mut self, alloc: Global, trail: &mut Trail) -> Result<Outcome, Memory> {
        match self {
            Any::Sum(sum) => sum.propagate(alloc, trail),
            Any::Domain(domain) => domain.propagate(alloc, trail),
        }
    }
}
