// The propagator of a domain constraint.
ghost use Rattle.std.specs.Prelude.{◌≡◌, ◌<◌, length, true, false, Some, None, IsTrue, IfOk, IfSome, IfNone, OnOk};
ghost use Rattle.linear_normal.specs.Steps.{none_between};
ghost use Rattle.trail.specs.Assignment.{IsAssignment, truth_on, lower_on, upper_on};
ghost use Rattle.trail.specs.Growth.{Grows};
ghost use Rattle.propagator_core.specs.Shown.{IsShown};
ghost use Rattle.propagator_core.specs.Quiet.{Answers};
ghost use Rattle.propagators.specs.Domains.{fits_domain, valid_domain, domain_meaning};
ghost use Rattle.propagators.specs.inner.Gaps.{IsGap, IsUnder, IsAtBound};

use crate::gap::{Gap, gap_at};
use crate::reason::{Domain, beside, explain};
use ground_model::IntSet;
use literals::Lit;
use propagator_core::{Outcome, Propagator, Touch};
use std::alloc::Global;
use symbols::{Listed, Memory};
use trail::{Trail, Why};

// Sets the bound that the gap gives, or tells the conflict, the constraint being true.
fn narrow(alloc: Global, trail: &mut Trail, domain: &Domain, gap: Gap) -> Result<Outcome, Memory>
    requires assignment { IsAssignment trail.old }
    requires fits { IsTrue (fits_domain domain.now.number domain.now.variable trail.old.shape) }
    requires on { truth_on trail.old (Lit.Constraint domain.now.number true) ≡ Some true }
    requires gap { IsAtBound trail.old domain.now.variable domain.now.set.intervals gap }
    ensures grows { Grows (IsShown (valid_domain domain.now.number domain.now.variable domain.now.set)) trail.old trail.new }
    ensures answer { IfOk result (λ outcome. Answers (domain_meaning domain.now.number domain.now.variable domain.now.set) trail.old trail.new outcome) }
{
    let reason = explain(alloc, trail, domain, gap)?;
    match beside(trail, domain.variable, gap) {
        None => Ok(Outcome::Conflict(reason)),
        Some(lit) => {
            trail.set(lit, Why::Shown(reason))?;
            Ok(Outcome::Narrowed)
        }
    }
}

// Answers for a constraint that is true.
fn keep_within(alloc: Global, trail: &mut Trail, domain: &Domain) -> Result<Outcome, Memory>
    requires assignment { IsAssignment trail.old }
    requires fits { IsTrue (fits_domain domain.now.number domain.now.variable trail.old.shape) }
    requires on { truth_on trail.old (Lit.Constraint domain.now.number true) ≡ Some true }
    ensures grows { Grows (IsShown (valid_domain domain.now.number domain.now.variable domain.now.set)) trail.old trail.new }
    ensures answer { IfOk result (λ outcome. Answers (domain_meaning domain.now.number domain.now.variable domain.now.set) trail.old trail.new outcome) }
{
    let intervals = domain.set.intervals.items();
    match gap_at(intervals, trail.lower(domain.variable)) {
        Some(gap) => narrow(alloc, trail, domain, gap),
        None => match gap_at(intervals, trail.upper(domain.variable)) {
            Some(gap) => narrow(alloc, trail, domain, gap),
            None => Ok(Outcome::Quiet),
        },
    }
}

// The gap in which all numbers within the variable's bounds lie, if none of them is in the set.
fn gap_around(trail: &Trail, domain: &Domain) -> Option<Gap>
    requires assignment { IsAssignment trail.now }
    requires fits { IsTrue (fits_domain domain.now.number domain.now.variable trail.now.shape) }
    ensures none { IfNone result (none_between (lower_on trail.now domain.now.variable) (upper_on trail.now domain.now.variable) domain.now.set.intervals ≡ false) }
    ensures some { IfSome result (λ gap. IsGap domain.now.set.intervals (lower_on trail.now domain.now.variable) gap) }
    ensures under { IfSome result (λ gap. IsUnder gap (upper_on trail.now domain.now.variable)) }
{
    let intervals = domain.set.intervals.items();
    match gap_at(intervals, trail.lower(domain.variable)) {
        None => None,
        Some(gap) => match gap.above {
            Some(above) if above <= trail.upper(domain.variable) => None,
            _ => Some(gap),
        },
    }
}

// Answers for a constraint that is open.
fn decide(alloc: Global, trail: &mut Trail, domain: &Domain) -> Result<Outcome, Memory>
    requires assignment { IsAssignment trail.old }
    requires fits { IsTrue (fits_domain domain.now.number domain.now.variable trail.old.shape) }
    requires unknown { truth_on trail.old (Lit.Constraint domain.now.number true) ≡ None }
    ensures grows { Grows (IsShown (valid_domain domain.now.number domain.now.variable domain.now.set)) trail.old trail.new }
    ensures answer { IfOk result (λ outcome. Answers (domain_meaning domain.now.number domain.now.variable domain.now.set) trail.old trail.new outcome) }
{
    match gap_around(trail, domain) {
        None => Ok(Outcome::Quiet),
        Some(gap) => {
            let reason = explain(alloc, trail, domain, gap)?;
            trail.set(Lit::Constraint(domain.number, false), Why::Shown(reason))?;
            Ok(Outcome::Narrowed)
        }
    }
}

/// The constraint that a variable has one of the numbers of a set, at work on a trail.
///
/// A call costs O(log n) for n intervals.
#[derive(Debug, Drop)]
pub struct DomainPropagator {
    domain: Domain,
    seen: usize,
}

impl DomainPropagator {
    // The variable has one of the numbers. It has looked at nothing.
    pub(crate) fn new(number: u32, variable: u32, set: IntSet) -> DomainPropagator
        ensures meaning { domain_meaning result.domain.number result.domain.variable result.domain.set ≡ domain_meaning number variable set }
        ensures seen { result.seen ≡ 0 }
    {
        DomainPropagator {
            domain: Domain {
                number,
                variable,
                set,
            },
            seen: 0,
        }
    }
}

impl Propagator for DomainPropagator {
    ghost use Rattle.propagators.specs.Domains.{domain_meaning};

    ghost meaning = { λ p. domain_meaning p.domain.number p.domain.variable p.domain.set };

    ghost looked = { λ p. p.seen };

    ghost stands = { λ p ends entries. Unit {0} };

    fn constraint(&self) -> u32 {
        self.domain.number
    }

    fn touches(&self, alloc: Global) -> Result<Listed<Touch>, Memory> {
        let touches = [
            Touch::Truth(self.domain.number),
            Touch::Bounds(self.domain.variable),
        ];
        Listed::from_slice(alloc, &touches)
    }

    fn seen(&self) -> usize {
        self.seen
    }

    fn undo(&mut self, _trail: &Trail) {
        self.seen = 0;
    }

    fn propagate(&mut self, alloc: Global, trail: &mut Trail) -> Result<Outcome, Memory> {
        self.seen = trail.length();
        match trail.truth(Lit::Constraint(self.domain.number, true)) {
            Some(false) => Ok(Outcome::Quiet),
            Some(true) => keep_within(alloc, trail, &self.domain),
            None => decide(alloc, trail, &self.domain),
        }
    }
}
