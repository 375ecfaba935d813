// Unit propagation over two nogoods, and what is learned from its conflicts.
ghost use Rattle.std.specs.Prelude.{◌≡◌, [], ◌∷◌, ◌++◌, IfOk, OnOk};
ghost use Rattle.std.specs.List.{All};
ghost use Rattle.literals.specs.Lits.{IsLit};
ghost use Rattle.literals.specs.Nogoods.{canonical};
ghost use Rattle.trail.specs.Assignment.{Names};
ghost use Rattle.nogood_store.specs.Holding.{numbered_from, IsFront, seen_of};
ghost use Rattle.nogood_store.specs.Propagation.{AllNamed};
ghost use Rattle.conflict_analysis.specs.Justified.{IsJustified};

use crate::words::{add_lit, add_lits, add_number, lits_of, nine_of_each};
use conflict_analysis::{Learned, Link, Marks, Start, analyse};
use literals::{Lit, Nogood};
use nogood_store::{Store, Unit};
use std::alloc::Global;
use std::test::Fail;
use symbols::{Listed, Memory};
use trail::{Shape, Trail, Why};

fn push(list: &mut Listed<Nogood>, alloc: Global, lits: &[Lit]) -> Result<(), Memory>
    requires { All IsLit lits.now }
    ensures { OnOk result (list.new ≡ list.old ++ canonical lits.now ∷ []) }
{
    list.push(Nogood::from_lits(alloc, lits)?)
}

// The store of two nogoods.
fn store_of(alloc: Global, first: &[Lit], second: &[Lit]) -> Result<Store, Memory>
    requires first { All IsLit first.now }
    requires second { All IsLit second.now }
    ensures { IfOk result (λ s. s ≡ record { held = numbered_from 1 (canonical first.now ∷ canonical second.now ∷ []); looked = [] }) }
{
    let mut input = Listed::new(alloc);
    push(&mut input, alloc, first)?;
    push(&mut input, alloc, second)?;
    Store::new(alloc, input)
}

// Opens a level and decides the literal there.
fn decide(trail: &mut Trail, store: &Store, lit: Lit) -> Result<(), Memory>
    requires named { Names trail.old.shape lit }
    requires justified { IsJustified store.now.held trail.old }
    ensures justified { OnOk result (IsJustified store.now.held trail.new) }
    ensures shape { OnOk result (trail.new.shape ≡ trail.old.shape) }
{
    let _ = trail.level();
    trail.open_level()?;
    trail.set(lit, Why::Decision)?;
    Ok(())
}

// Decides the literals, each at a level of its own.
fn decide_all(trail: &mut Trail, store: &Store, lits: &[Lit]) -> Result<(), Memory>
    requires named { All (Names trail.old.shape) lits.now }
    requires justified { IsJustified store.now.held trail.old }
    ensures justified { OnOk result (IsJustified store.now.held trail.new) }
    ensures shape { OnOk result (trail.new.shape ≡ trail.old.shape) }
{
    for lit in lits {
        decide(trail, store, *lit)?;
    }
    Ok(())
}

// What is learned from the conflict of unit propagation, nothing where it is quiet.
fn learn(alloc: Global, store: &mut Store, trail: &mut Trail) -> Result<Option<Learned>, Memory>
    requires named { AllNamed trail.old.shape store.old.held }
    requires looked { IsFront store.old.looked (seen_of trail.old.entries) }
    requires justified { IsJustified store.old.held trail.old }
{
    let mut marks = Marks::new(alloc);
    match store.unit_propagate(trail)? {
        Unit::Quiet => Ok(None),
        Unit::Conflict(id) => {
            Ok(Some(analyse(alloc, &mut marks, trail, store, Start::Held(id))?))
        }
    }
}

// The id of a held nogood, 0 for another reason.
fn id_of(start: &Start) -> u64 {
    match start {
        Start::Held(id) => *id,
        Start::Shown(_) => 0,
    }
}

// Adds a pivot with the nogood that was used there.
fn add_link(alloc: Global, link: &Link, out: &mut String) -> Result<(), Memory> {
    add_lit(alloc, link.pivot, out)?;
    add_number(alloc, ":", id_of(&link.used), out)
}

// Adds the nogood of the conflict, the learned literals and their level.
fn add_learned(alloc: Global, learned: &Learned, out: &mut String) -> Result<(), Memory> {
    add_number(alloc, " =", id_of(&learned.first), out)?;
    add_lits(alloc, learned.nogood.lits(), out)?;
    add_number(alloc, " @", learned.level as u64, out)
}

// Adds the literals of the entries.
fn add_entries(alloc: Global, trail: &Trail, out: &mut String) -> Result<(), Memory> {
    for at in 0..trail.length() {
        add_lit(alloc, trail.entry(at).lit, out)?;
    }
    Ok(())
}

// Adds what was learned and the chain of resolutions.
fn add_found(alloc: Global, found: &Option<Learned>, out: &mut String) -> Result<(), Memory> {
    if let Some(learned) = found {
        add_learned(alloc, learned, out)?;
        for link in learned.chain.items() {
            add_link(alloc, link, out)?;
        }
    }
    Ok(())
}

// Whether a text is one of those with `|` between them.
fn is_one_of(told: &str, wanted: &str) -> bool {
    for one in wanted.split('|') {
        if told == one {
            return true;
        }
    }
    false
}

// Whether the entries and what was learned are one of those of a text.
fn are(
    alloc: Global,
    trail: &Trail,
    found: &Option<Learned>,
    wanted: &str,
) -> Result<bool, Memory> {
    let mut out = String::new(alloc);
    add_entries(alloc, trail, &mut out)?;
    add_found(alloc, found, &mut out)?;
    Ok(is_one_of(out.as_str(), wanted))
}

// Whether this comes of two held nogoods and these decisions.
fn learned(
    alloc: Global,
    shape: Shape,
    first: &[Lit],
    second: &[Lit],
    decisions: &[Lit],
    wanted: &str,
) -> Result<bool, Memory>
    requires first { All (Names shape) first.now }
    requires second { All (Names shape) second.now }
    requires decisions { All (Names shape) decisions.now }
{
    let mut store = store_of(alloc, first, second)?;
    let mut trail = Trail::new(alloc, shape)?;
    decide_all(&mut trail, &store, decisions)?;
    let found = learn(alloc, &mut store, &mut trail)?;
    are(alloc, &trail, &found, wanted)
}

// Whether this comes of the two nogoods and the decisions of a text, with `;` between them.
fn comes_to(alloc: Global, text: &str, wanted: &str) -> Result<bool, Memory> {
    let shape = nine_of_each();
    let (first, rest) = text.split_once(';').unwrap_or((text, ""));
    let (second, decisions) = rest.split_once(';').unwrap_or((rest, ""));
    let first = lits_of(alloc, shape, first)?;
    let second = lits_of(alloc, shape, second)?;
    let decisions = lits_of(alloc, shape, decisions)?;
    learned(
        alloc,
        shape,
        first.items(),
        second.items(),
        decisions.items(),
        wanted,
    )
}

// After the entries stand the nogood of the conflict, the learned literals, their level but the highest, and each
// pivot with the nogood that was used there, 0 for what the ends of a variable say. Which nogood is looked at first is
// not promised, so there are two such lines where that matters.
#[test]
fn conflicts_are_learned_from(rt: HostRuntime) -> Result<(), Fail> {
    let rows = [
        (
            "a1 a2; a1 ~a2; a1",
            " a1 ~a2 =2 a1 @0 ~a2:1| a1 a2 =1 a1 @0 a2:2",
        ),
        (
            "a1 v1<=2; a1 a3 v1>=3; a2 a3 a1",
            " a2 a3 a1 v1>=3 =2 a1 a3 @2 v1>=3:1| a2 a3 a1 v1<=2 =1 a1 a3 @2 v1<=2:2",
        ),
        ("a1; ~a1;", " ~a1 =2 @0 ~a1:1| a1 =1 @0 a1:2"),
        ("; ~a1;", " =1 @0| a1 =1 @0"),
        (
            "a1 v1>=0; a4; a1",
            " a1 =1 a1 @0 v1>=0:0| a1 ~a4 =1 a1 @0 v1>=0:0",
        ),
        ("a2 v1>=4; a1 ~a2; a1", " a1 a2 v1<=3"),
    ];
    for (text, wanted) in rows {
        assert!(rt; comes_to(rt.alloc(), text, wanted)?, "{text}");
    }
    Ok(())
}
