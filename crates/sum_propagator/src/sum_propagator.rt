// The propagator of a sum.
ghost use Rattle.std.specs.Prelude.{◌≡◌, ◌<◌, ◌≤◌, ◌^◌, pos, ◌+ℤ◌, ◌≤ℤ◌, ◌<ℤ◌, length, List, Some, None, true, [], IsTrue, IfOk, IsSomeAnd, OnOk};
ghost use Rattle.std.specs.Int.RustNames.{unsigned_abs};
ghost use Rattle.std.specs.Option.{ForSome};
ghost use Rattle.symbols.specs.declared.ends.Ends.{Ends};
ghost use Rattle.linear_normal.specs.Bounds.{least_sum, greatest_sum};
ghost use Rattle.trail.specs.Assignment.{IsAssignment, truth_on};
ghost use Rattle.trail.specs.Growth.{Grows};
ghost use Rattle.propagator_core.specs.Shown.{IsShown};
ghost use Rattle.propagator_core.specs.Quiet.{Answers};
ghost use Rattle.propagator_core.specs.Standing.{StandsFor};
ghost use Rattle.numbering_laws.specs.Items.{are_items};
ghost use Rattle.sum_propagator.specs.Sums.{fits_sum, valid_sum, sum_meaning, totals_after, AreWithin, StandsAt};
ghost use Rattle.trail_bounds.specs.OnTrail.{bounds_on};
ghost use Rattle.sum_propagator.specs.Kinds.{meaning_of, IsOn, IsObjective};
ghost use Rattle.sum_propagator.specs.Objective.{objective_meaning};
ghost use Rattle.sum_propagator.specs.declared.sum.Kind.TheVariants as kind;
ghost use Rattle.trail.specs.declared.entry.Entry.{Entry};
ghost use Rattle.sum_propagator.specs.Moves.{AreRising};
ghost use Rattle.sum_propagator.specs.Sides.{AreSmall, limit_of};
ghost use Rattle.trail_bounds.specs.Sides.{side_sum};

use crate::moves::totals_from;
use crate::narrow::press;
use crate::places::are_rising;
use crate::reason::explain;
use crate::sum::{
    Kind, Sum, Totals, coefficients, excluded, few, limit, total, totals_on, widest_on,
};
use crate::touches::touches_of;
use linear_normal::Item;
use literals::Lit;
use propagator_core::{Outcome, Propagator, Touch};
use std::alloc::Global;
use symbols::{Listed, Memory};
use trail::{Trail, Why};

// How far the total is below the limit.
fn slack_of(limit: i128, total: i128) -> u128
    requires order { total ≤ℤ limit }
    requires limit { unsigned_abs limit ≤ 2 ^ 121 }
    requires total { unsigned_abs total ≤ 2 ^ 126 }
    ensures { (total +ℤ pos result) ≡ limit }
{
    (limit - total).unsigned_abs()
}

// How much more the total may be smaller and still exceed the limit.
fn excess_of(limit: i128, total: i128) -> u128
    requires order { limit <ℤ total }
    requires limit { unsigned_abs limit ≤ 2 ^ 121 }
    requires total { unsigned_abs total ≤ 2 ^ 126 }
    ensures { (limit +ℤ pos result) <ℤ total }
{
    (total - limit - 1).unsigned_abs()
}

// Whether it is known that all items' values lie no further apart than this.
fn is_at_most(widest: Option<u128>, slack: u128) -> bool
    ensures { IsTrue result → IsSomeAnd widest (λ w. w ≤ slack) }
{
    match widest {
        Some(widest) => widest <= slack,
        None => false,
    }
}

// Answers for a sum that is true on this side.
fn decided(
    alloc: Global,
    trail: &mut Trail,
    sum: &Sum,
    side: bool,
    total: i128,
    widest: &mut Option<u128>,
) -> Result<Outcome, Memory>
    requires assignment { IsAssignment trail.old }
    requires fits { IsTrue ((meaning_of sum.now.kind sum.now.number sum.now.items sum.now.most).fits trail.old.shape) }
    requires on { IsOn trail.old sum.now.kind sum.now.number side }
    requires total { total ≡ side_sum side (bounds_on trail.old) sum.now.items }
    requires small { unsigned_abs total ≤ 2 ^ 126 }
    requires widest { AreWithin widest.old (bounds_on trail.old) sum.now.items }
    ensures widest { AreWithin widest.new (bounds_on trail.old) sum.now.items }
    ensures grows { Grows (IsShown (meaning_of sum.now.kind sum.now.number sum.now.items sum.now.most).valid) trail.old trail.new }
    ensures answer { IfOk result (λ outcome. Answers (meaning_of sum.now.kind sum.now.number sum.now.items sum.now.most) trail.old trail.new outcome) }
{
    let limit = limit(sum.most, side);
    if total > limit {
        let spare = excess_of(limit, total);
        let none = Lit::Constraint(sum.number, side);
        let reason = explain(alloc, trail, sum, side, sum.items.len(), none, spare)?;
        return Ok(Outcome::Conflict(reason));
    }
    let slack = slack_of(limit, total);
    if is_at_most(*widest, slack) {
        return Ok(Outcome::Quiet);
    }
    let before = trail.length();
    press(alloc, trail, sum, side, slack)?;
    if trail.length() == before {
        *widest = Some(widest_on(trail, sum.items.items()));
        Ok(Outcome::Quiet)
    } else {
        Ok(Outcome::Narrowed)
    }
}

// Sets the open constraint to the other side, this one being excluded.
fn settle(
    alloc: Global,
    trail: &mut Trail,
    sum: &Sum,
    side: bool,
    total: i128,
) -> Result<(), Memory>
    requires assignment { IsAssignment trail.old }
    requires constraint { sum.now.kind ≡ kind.Constraint }
    requires fits { IsTrue (fits_sum sum.now.number sum.now.items trail.old.shape) }
    requires unknown { truth_on trail.old (Lit.Constraint sum.now.number true) ≡ None }
    requires total { total ≡ side_sum side (bounds_on trail.old) sum.now.items }
    requires small { unsigned_abs total ≤ 2 ^ 126 }
    requires beyond { limit_of side sum.now.most <ℤ total }
    ensures grows { Grows (IsShown (valid_sum sum.now.number sum.now.items sum.now.most)) trail.old trail.new }
    ensures longer { OnOk result (length trail.old.entries < length trail.new.entries) }
{
    let spare = excess_of(limit(sum.most, side), total);
    let on = Lit::Constraint(sum.number, side);
    let reason = explain(alloc, trail, sum, side, sum.items.len(), on, spare)?;
    trail.set(Lit::Constraint(sum.number, !side), Why::Shown(reason))?;
    Ok(())
}

// Answers for a constraint with these totals.
fn judge(
    alloc: Global,
    trail: &mut Trail,
    sum: &Sum,
    totals: Totals,
    widest: &mut Option<u128>,
) -> Result<Outcome, Memory>
    requires assignment { IsAssignment trail.old }
    requires constraint { sum.now.kind ≡ kind.Constraint }
    requires fits { IsTrue (fits_sum sum.now.number sum.now.items trail.old.shape) }
    requires least { totals.least ≡ least_sum (bounds_on trail.old) sum.now.items }
    requires greatest { totals.greatest ≡ greatest_sum (bounds_on trail.old) sum.now.items }
    requires small { AreSmall totals }
    requires widest { AreWithin widest.old (bounds_on trail.old) sum.now.items }
    ensures widest { AreWithin widest.new (bounds_on trail.old) sum.now.items }
    ensures grows { Grows (IsShown (valid_sum sum.now.number sum.now.items sum.now.most)) trail.old trail.new }
    ensures answer { IfOk result (λ outcome. Answers (sum_meaning sum.now.number sum.now.items sum.now.most) trail.old trail.new outcome) }
{
    match trail.truth(Lit::Constraint(sum.number, true)) {
        Some(side) => decided(alloc, trail, sum, side, total(totals, side), widest),
        None => match excluded(sum.most, totals) {
            None => Ok(Outcome::Quiet),
            Some(side) => {
                settle(alloc, trail, sum, side, total(totals, side))?;
                Ok(Outcome::Narrowed)
            }
        },
    }
}

// Answers for these totals.
fn answer(
    alloc: Global,
    trail: &mut Trail,
    sum: &Sum,
    totals: Totals,
    widest: &mut Option<u128>,
) -> Result<Outcome, Memory>
    requires assignment { IsAssignment trail.old }
    requires fits { IsTrue ((meaning_of sum.now.kind sum.now.number sum.now.items sum.now.most).fits trail.old.shape) }
    requires least { totals.least ≡ least_sum (bounds_on trail.old) sum.now.items }
    requires greatest { totals.greatest ≡ greatest_sum (bounds_on trail.old) sum.now.items }
    requires small { AreSmall totals }
    requires widest { AreWithin widest.old (bounds_on trail.old) sum.now.items }
    ensures widest { AreWithin widest.new (bounds_on trail.old) sum.now.items }
    ensures grows { Grows (IsShown (meaning_of sum.now.kind sum.now.number sum.now.items sum.now.most).valid) trail.old trail.new }
    ensures answer { IfOk result (λ outcome. Answers (meaning_of sum.now.kind sum.now.number sum.now.items sum.now.most) trail.old trail.new outcome) }
{
    match sum.kind {
        Kind::Constraint => judge(alloc, trail, sum, totals, widest),
        Kind::Unbounded => Ok(Outcome::Quiet),
        Kind::Bounded => decided(alloc, trail, sum, true, totals.least, widest),
    }
}

// Whether it costs less to take the totals on from so many new entries than to take them anew.
fn are_few(sum: &Sum, new: usize) -> bool
    ensures { IsTrue result → AreRising sum.now.items }
{
    sum.rising && new <= sum.items.len() / 8
}

// The totals on the trail: those that are kept where nothing is new, on from them where little is new,
// else anew.
#[tactic(auto, using(crate::proofs::Moving::totals_seen))]
fn look(trail: &Trail, sum: &Sum, seen: usize, kept: Option<Totals>) -> Totals
    requires assignment { IsAssignment trail.now }
    requires fits { IsTrue ((meaning_of sum.now.kind sum.now.number sum.now.items sum.now.most).fits trail.now.shape) }
    requires stands { StandsFor (λ ends entries. kept ≡ totals_after sum.now.items ends entries) seen trail.now }
    requires small { ForSome kept AreSmall }
    ensures least { result.least ≡ least_sum (bounds_on trail.now) sum.now.items }
    ensures greatest { result.greatest ≡ greatest_sum (bounds_on trail.now) sum.now.items }
    ensures small { AreSmall result }
{
    match kept {
        Some(totals) if seen == trail.length() => totals,
        Some(totals) if are_few(sum, trail.length() - seen) => totals_from(
            trail, sum, seen, totals,
        ),
        _ => totals_on(trail, sum.items.items()),
    }
}

// What is kept of totals: nothing before the first entry.
fn kept(seen: usize, totals: Totals) -> Option<Totals>
    requires { AreSmall totals }
    ensures none { seen ≡ 0 → result ≡ None }
    ensures some { 0 < seen → result ≡ Some totals }
    ensures small { ForSome result AreSmall }
{
    if seen == 0 { None } else { Some(totals) }
}

/// The constraint that a sum of items is at most a number, at work on a trail.
///
/// It keeps the least and the greatest sum for the entries at which it has looked, and how far apart an
/// item's values lie at most. A call takes the sums on from the new entries where they are few, and looks
/// at the items one by one only where one of them may be forced.
#[derive(Debug, Drop)]
pub struct SumPropagator {
    sum: Sum,
    seen: usize,
    totals: Option<Totals>,
    widest: Option<u128>,
    ghost small: { ForSome totals AreSmall },
}

impl SumPropagator {
    /// The sum of the items is at most this number. It has looked at nothing.
    pub fn new(number: u32, items: Listed<Item>, most: i64) -> Result<SumPropagator, Memory>
        requires { IsTrue (are_items number items) }
        ensures meaning { IfOk result (λ p. meaning_of p.sum.kind p.sum.number p.sum.items p.sum.most ≡ sum_meaning number items most) }
        ensures seen { IfOk result (λ p. p.seen ≡ 0) }
        ensures stands { IfOk result (λ p. (e : Ends) → StandsAt p.sum.items p.totals p.widest e []) }
    {
        few(number, items.items());
        coefficients(items.items());
        let rising = are_rising(items.items());
        Ok(SumPropagator {
            sum: Sum {
                kind: Kind::Constraint,
                number,
                items,
                most: i128::from(most),
                rising,
            },
            seen: 0,
            totals: None,
            widest: None,
        })
    }

    /// The objective's sum, whose number is 0. It has no bound yet, and has looked at nothing.
    pub fn objective(items: Listed<Item>) -> Result<SumPropagator, Memory>
        requires { IsTrue (are_items 0 items) }
        ensures meaning { IfOk result (λ p. meaning_of p.sum.kind p.sum.number p.sum.items p.sum.most ≡ objective_meaning items None) }
        ensures objective { IfOk result (λ p. IsObjective p.sum.kind) }
        ensures items { IfOk result (λ p. p.sum.items ≡ items) }
        ensures seen { IfOk result (λ p. p.seen ≡ 0) }
        ensures stands { IfOk result (λ p. (e : Ends) → StandsAt p.sum.items p.totals p.widest e []) }
    {
        few(0, items.items());
        coefficients(items.items());
        let rising = are_rising(items.items());
        Ok(SumPropagator {
            sum: Sum {
                kind: Kind::Unbounded,
                number: 0,
                items,
                most: 0,
                rising,
            },
            seen: 0,
            totals: None,
            widest: None,
        })
    }

    /// Bounds the objective's sum, which is at most this number from now on. What it keeps of the trail
    /// stays. O(1).
    pub fn tighten(&mut self, most: i128)
        requires objective { IsObjective self.old.sum.kind }
        requires most { unsigned_abs most < 2 ^ 120 }
        ensures meaning { meaning_of self.new.sum.kind self.new.sum.number self.new.sum.items self.new.sum.most ≡ objective_meaning self.old.sum.items (Some most) }
        ensures objective { IsObjective self.new.sum.kind }
        ensures items { self.new.sum.items ≡ self.old.sum.items }
        ensures seen { self.new.seen ≡ self.old.seen }
        ensures stands { (e : Ends) (es : List Entry) → StandsAt self.old.sum.items self.old.totals self.old.widest e es → StandsAt self.new.sum.items self.new.totals self.new.widest e es }
    {
        self.sum.kind = Kind::Bounded;
        self.sum.most = most;
    }
}

impl Propagator for SumPropagator {
    ghost use Rattle.std.specs.Prelude.{◌≡◌};
    ghost use Rattle.sum_propagator.specs.Sums.{StandsAt};
    ghost use Rattle.sum_propagator.specs.Kinds.{meaning_of};

    ghost meaning = { λ p. meaning_of p.sum.kind p.sum.number p.sum.items p.sum.most };

    ghost looked = { λ p. p.seen };

    ghost stands = { λ p ends entries. StandsAt p.sum.items p.totals p.widest ends entries };

    fn constraint(&self) -> u32 {
        match self.sum.kind {
            Kind::Constraint => self.sum.number,
            Kind::Unbounded | Kind::Bounded => 0,
        }
    }

    fn touches(&self, alloc: Global) -> Result<Listed<Touch>, Memory> {
        touches_of(alloc, &self.sum)
    }

    fn seen(&self) -> usize {
        self.seen
    }

    fn undo(&mut self, _trail: &Trail) {
        self.seen = 0;
        self.totals = None;
        self.widest = None;
    }

    fn propagate(&mut self, alloc: Global, trail: &mut Trail) -> Result<Outcome, Memory> {
        let length = trail.length();
        let totals = look(trail, &self.sum, self.seen, self.totals);
        self.seen = length;
        self.totals = kept(length, totals);
        answer(alloc, trail, &self.sum, totals, &mut self.widest)
    }
}
