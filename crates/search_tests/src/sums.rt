// Sums on a trail, word by word.
ghost use Rattle.std.specs.Prelude.{◌≡◌, IsTrue, IfOk};
ghost use Rattle.trail.specs.declared.shape.Shape.{Shape};
ghost use Rattle.trail.specs.Assignment.{Names};
ghost use Rattle.propagator_core.specs.Standing.{StandsFor};
ghost use Rattle.numbering_laws.specs.Items.{are_items};
ghost use Rattle.sum_propagator.specs.Sums.{fits_sum, StandsAt};
ghost use Rattle.sum_propagator.specs.Kinds.{meaning_of};

use crate::words::{add_lit, add_lits, is_named, lit_of, nine_of_each};
use linear_normal::Item;
use literals::{Lit, Reason};
use propagator_core::{Outcome, Propagator};
use std::alloc::Global;
use std::test::Fail;
use sum_propagator::SumPropagator;
use symbols::{Ends, Listed, Memory};
use trail::{Entry, Trail, Why};

// The sums that are tried, each constraint 1.
#[derive(Clone, Copy)]
enum Sum {
    // v1 - v2 <= -1 with values from 0 to 1
    Below,
    // 2 v1 + 3 v2 <= 10
    Weighted,
    // v1 + 5 c2 <= 4
    WithTruth,
    // 2 v1 - v2 <= 4
    Twice,
    // 3 v1 - 2 v2 + 4 c3 <= 5
    Three,
    // 2 v1 - 3 v2 + 5 c2 <= 2
    Levels,
    // -2^63 c2 + (2^63 - 1) v3 <= 0 with the widest values
    Widest,
    // seventeen items, whose totals move with few entries, at most this number
    Seventeen(i64),
}

// Goes back to a level.
fn back<P: Propagator>(sum: &mut P, trail: &mut Trail, level: usize)
    requires fits { IsTrue ((P.meaning sum.old).fits trail.old.shape) }
    requires stands { StandsFor (P.stands sum.old) (P.looked sum.old) trail.old }
    ensures meaning { P.meaning sum.new ≡ P.meaning sum.old }
    ensures shape { trail.new.shape ≡ trail.old.shape }
    ensures stands { StandsFor (P.stands sum.new) (P.looked sum.new) trail.new }
{
    if level <= trail.level() {
        trail.undo_to(level);
        sum.undo(trail);
    }
}

// Sets a literal that the shape has.
fn put<P: Propagator>(sum: &P, trail: &mut Trail, lit: Lit) -> Result<(), Memory>
    requires stands { StandsFor (P.stands sum.now) (P.looked sum.now) trail.old }
    ensures shape { trail.new.shape ≡ trail.old.shape }
    ensures stands { StandsFor (P.stands sum.now) (P.looked sum.now) trail.new }
{
    if is_named(trail.shape(), lit) {
        trail.set(lit, Why::Decision)?;
    }
    Ok(())
}

// Does what a word says: `(` opens a level, `)1` goes back to level 1, and literals with `&` between them are set.
fn take<P: Propagator>(sum: &mut P, trail: &mut Trail, word: &str) -> Result<(), Memory>
    requires fits { IsTrue ((P.meaning sum.old).fits trail.old.shape) }
    requires stands { StandsFor (P.stands sum.old) (P.looked sum.old) trail.old }
    ensures meaning { P.meaning sum.new ≡ P.meaning sum.old }
    ensures shape { trail.new.shape ≡ trail.old.shape }
    ensures stands { StandsFor (P.stands sum.new) (P.looked sum.new) trail.new }
{
    if word == "(" {
        return trail.open_level();
    }
    if let Some(level) = word.strip_prefix(')') {
        back(sum, trail, level.parse().unwrap_or(0));
        return Ok(());
    }
    let (first, second) = word.split_once('&').unwrap_or((word, ""));
    put(sum, trail, lit_of(first))?;
    put(sum, trail, lit_of(second))
}

// Adds the literals of a reason in braces.
fn add_reason(alloc: Global, reason: &Reason, out: &mut String) -> Result<(), Memory> {
    out.push_str(" {")?;
    add_lits(alloc, reason.nogood.lits(), out)?;
    Ok(out.push_str(" }")?)
}

// Adds an entry with its reason.
fn add_entry(alloc: Global, entry: &Entry, out: &mut String) -> Result<(), Memory> {
    add_lit(alloc, entry.lit, out)?;
    match &entry.why {
        Why::Shown(reason) => add_reason(alloc, reason, out),
        _ => Ok(()),
    }
}

// Adds the entries from a place on, and the conflict where there is one.
fn add_told(
    alloc: Global,
    trail: &Trail,
    from: usize,
    outcome: Outcome,
    out: &mut String,
) -> Result<(), Memory> {
    for at in from..trail.length() {
        add_entry(alloc, trail.entry(at), out)?;
    }
    match outcome {
        Outcome::Conflict(reason) => {
            out.push_str(" conflict")?;
            add_reason(alloc, &reason, out)
        }
        _ => Ok(()),
    }
}

// Takes each word and calls the sum after it, and says what came of it.
fn walk<P: Propagator>(
    alloc: Global,
    sum: &mut P,
    trail: &mut Trail,
    words: &str,
) -> Result<String, Memory>
    requires fits { IsTrue ((P.meaning sum.old).fits trail.old.shape) }
    requires stands { StandsFor (P.stands sum.old) (P.looked sum.old) trail.old }
{
    let mut out = String::new(alloc);
    for word in words.split_whitespace() {
        take(sum, trail, word)?;
        let from = trail.length();
        let outcome = sum.propagate(alloc, trail)?;
        add_told(alloc, trail, from, outcome, &mut out)?;
    }
    Ok(out)
}

// A new sum of number 1 at a trail.
fn start(alloc: Global, trail: &Trail, items: &[Item], most: i64) -> Result<SumPropagator, Memory>
    requires items { IsTrue (are_items 1 items.now) }
    requires fits { IsTrue (fits_sum 1 items.now trail.now.shape) }
    ensures fits { IfOk result (λ sum. IsTrue ((meaning_of sum.sum.kind sum.sum.number sum.sum.items sum.sum.most).fits trail.now.shape)) }
    ensures stands { IfOk result (λ sum. StandsFor (StandsAt sum.sum.items sum.totals sum.widest) sum.seen trail.now) }
{
    let list = Listed::from_slice(alloc, items)?;
    match SumPropagator::new(1, list, most) {
        Ok(sum) => Ok(sum),
        Err(memory) => Err(memory),
    }
}

// What comes of the words for a sum of these items on a new trail.
fn work(alloc: Global, ends: Ends, items: &[Item], most: i64, words: &str) -> Result<String, Memory>
    requires items { IsTrue (are_items 1 items.now) }
    requires fits { (s : Shape) → s.constraints ≡ 9 → s.variables ≡ 9 → IsTrue (fits_sum 1 items.now s) }
{
    let mut shape = nine_of_each();
    shape.ends = ends;
    let mut trail = Trail::new(alloc, shape)?;
    let mut sum = start(alloc, &trail, items, most)?;
    walk(alloc, &mut sum, &mut trail, words)
}

// What comes of the words for the seventeen items.
fn work_on_seventeen(alloc: Global, most: i64, words: &str) -> Result<String, Memory> {
    let items = [
        Item::Value(1, 1),
        Item::Value(2, -1),
        Item::Truth(2, 6),
        Item::Value(3, 1),
        Item::Truth(3, -6),
        Item::Value(4, -1),
        Item::Truth(4, 5),
        Item::Value(5, 3),
        Item::Truth(5, -5),
        Item::Value(6, -1),
        Item::Truth(6, 4),
        Item::Value(7, 1),
        Item::Truth(7, -4),
        Item::Value(8, -1),
        Item::Truth(8, 2),
        Item::Value(9, 2),
        Item::Truth(9, -2),
    ];
    work(alloc, Ends { min: 0, max: 9 }, &items, most, words)
}

// What comes of the words for a sum.
fn shown(alloc: Global, sum: Sum, words: &str) -> Result<String, Memory> {
    let ends = Ends { min: 0, max: 9 };
    match sum {
        Sum::Below => {
            let items = [Item::Value(1, 1), Item::Value(2, -1)];
            work(alloc, Ends { min: 0, max: 1 }, &items, -1, words)
        }
        Sum::Weighted => work(
            alloc,
            ends,
            &[Item::Value(1, 2), Item::Value(2, 3)],
            10,
            words,
        ),
        Sum::WithTruth => work(
            alloc,
            ends,
            &[Item::Value(1, 1), Item::Truth(2, 5)],
            4,
            words,
        ),
        Sum::Twice => work(
            alloc,
            ends,
            &[Item::Value(1, 2), Item::Value(2, -1)],
            4,
            words,
        ),
        Sum::Three => {
            let items = [Item::Value(1, 3), Item::Value(2, -2), Item::Truth(3, 4)];
            work(alloc, ends, &items, 5, words)
        }
        Sum::Levels => {
            let items = [Item::Value(1, 2), Item::Value(2, -3), Item::Truth(2, 5)];
            work(alloc, ends, &items, 2, words)
        }
        Sum::Widest => {
            let items = [Item::Truth(2, i64::MIN), Item::Value(3, i64::MAX)];
            work(alloc, Ends::widest(), &items, 0, words)
        }
        Sum::Seventeen(most) => work_on_seventeen(alloc, most, words),
    }
}

// Whether the words come to this for a sum.
fn comes_to(alloc: Global, sum: Sum, words: &str, wanted: &str) -> Result<bool, Memory> {
    Ok(shown(alloc, sum, words)?.as_str() == wanted)
}

#[test]
fn sums_are_narrowed(rt: HostRuntime) -> Result<(), Fail> {
    let rows = [
        (Sum::Below, "c1", " v1<=0 { c1 v1>=1 } v2>=1 { c1 v2<=0 }"),
        (Sum::Weighted, "~c1&v1<=4", " v2>=1 { ~c1 v1<=5 v2<=0 }"),
        (Sum::WithTruth, "c2", " ~c1 { c1 c2 }"),
        (Sum::Twice, "v1<=3&v2>=2", " c1 { ~c1 v1<=3 v2>=2 }"),
        (Sum::Twice, "v1<=3&v2>=1", ""),
        (
            Sum::Three,
            "v1>=4&v2<=5 c3&c1",
            " conflict { c1 c3 v1>=4 v2<=5 }",
        ),
        (
            Sum::Widest,
            "c1&v3>=1",
            " c2 { c1 ~c2 v3>=1 } v3<=1 { c1 v3>=2 }",
        ),
    ];
    for (sum, words, wanted) in rows {
        assert!(rt; comes_to(rt.alloc(), sum, words, wanted)?, "{words}");
    }
    Ok(())
}

#[test]
fn sums_follow_a_trail_that_goes_back(rt: HostRuntime) -> Result<(), Fail> {
    let rows = [
        (
            Sum::Levels,
            "v2<=5 ( c1 ( v2<=2 ( v1>=3 )2 c2 )1 v1>=7 )0 v1>=9",
            " v1<=8 { c1 v1>=9 v2<=5 } v1<=4 { c1 v1>=5 v2<=2 } v2>=2 { c1 v1>=3 v2<=1 } ~c2 { c1 c2 v1>=2 v2<=2 } v1<=1 { c1 c2 v1>=2 v2<=2 } v2>=1 { c1 c2 v2<=0 } v2>=4 { c1 v1>=6 v2<=3 } ~c2 { c1 c2 v1>=7 v2<=5 } ~c1 { c1 v1>=9 v2<=5 }",
        ),
        (
            Sum::Seventeen(-27),
            "v2<=5 ( c1 ( v1>=3 ( ~c7 )2 v4<=7 )1 v9>=2 )0 v9>=9 v1>=5",
            " v5<=7 { c1 v2<=6 v5>=8 } v5<=6 { c1 v1>=2 v2<=5 v5>=7 } v5<=5 { c1 ~c7 v1>=1 v2<=5 v5>=6 } v9<=7 { c1 ~c7 v1>=3 v2<=5 v9>=8 } v5<=5 { c1 v1>=3 v2<=5 v4<=7 v5>=6 } v9<=8 { c1 v1>=3 v2<=5 v4<=7 v9>=9 } v5<=6 { c1 v2<=7 v5>=7 v9>=2 } ~c1 { c1 v1>=5 v2<=5 v9>=9 }",
        ),
        (
            Sum::Seventeen(62),
            "~c1 ( v1<=4 ( ~c2 ( v3<=0&v7<=1 )1 v2>=2",
            " v5>=1 { ~c1 v5<=0 } v5>=2 { ~c1 v1<=6 v5<=1 } v5>=4 { ~c1 ~c2 v1<=6 v5<=3 } v9>=2 { ~c1 ~c2 v1<=4 v9<=1 } conflict { ~c1 ~c2 v1<=5 v3<=0 v7<=1 } v5>=3 { ~c1 v1<=5 v2>=2 v5<=2 }",
        ),
    ];
    for (sum, words, wanted) in rows {
        assert!(rt; comes_to(rt.alloc(), sum, words, wanted)?, "{words}");
    }
    Ok(())
}
