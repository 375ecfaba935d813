// Which literal is decided next. What is preferred is advice: where it has none, all are looked at in turn.
ghost use Rattle.std.specs.Prelude.{◌≡◌, IfSome, None};
ghost use Rattle.trail_worlds.specs.Total.{IsTotal};
ghost use Rattle.decisions.specs.Open.{IsOpen};

use crate::order::Order;
use crate::scan::open_literal;
use crate::subjects::{open_of, place_of, places_of, subject_at};
use conflict_analysis::Learned;
use literals::Lit;
use std::alloc::Global;
use symbols::Memory;
use trail::{Shape, Trail};

/// What a search prefers to decide: what it learned from last, with the truth or the value that it had last.
///
/// Nothing holds of it, and no clause speaks of it.
#[derive(Debug, Drop)]
pub struct Advice {
    shape: Shape,
    order: Order,
    // The last truth of each place, 1 or 0, or the last value.
    saved: Vec<Option<i32>>,
}

// The saved one of the place.
fn saved_at(saved: &[Option<i32>], place: u32) -> Option<i32> {
    if (place as usize) < saved.len() {
        saved[place as usize]
    } else {
        None
    }
}

// The variable's value on the trail, where it has one alone.
fn value_on(trail: &Trail, x: u32) -> Option<i32> {
    if trail.shape().variables < x {
        return None;
    }
    let lower = trail.lower(x);
    if lower == trail.upper(x) {
        Some(lower)
    } else {
        None
    }
}

// What the trail says of the literal's subject: a truth, or a value.
fn known_of(trail: &Trail, lit: Lit) -> Option<i32> {
    match lit {
        Lit::Atom(_, sign) | Lit::Body(_, sign) | Lit::Constraint(_, sign) => Some(i32::from(sign)),
        Lit::AtMost(x, _) | Lit::AtLeast(x, _) => value_on(trail, x),
    }
}

// An open literal of what stands at the place, if there is one.
fn open_at(trail: &Trail, place: u32, saved: Option<i32>) -> Option<Lit>
    ensures { IfSome result (IsOpen trail.now) }
{
    match subject_at(trail.shape(), place, saved) {
        None => None,
        Some(subject) => open_of(trail, subject, saved),
    }
}

// The first open literal in the order, if one is found.
fn proposed(advice: &mut Advice, trail: &Trail) -> Option<Lit>
    ensures { IfSome result (IsOpen trail.now) }
{
    let mut place = advice.order.at();
    for _ in 0..advice.order.len() {
        let saved = saved_at(&advice.saved, place);
        if let Some(lit) = open_at(trail, place, saved) {
            advice.order.begin_at(place);
            return Some(lit);
        }
        match advice.order.behind(place) {
            None => return None,
            Some(behind) => place = behind,
        }
    }
    None
}

/// An open literal to decide, or none where all is decided.
///
/// It costs the decided places before it in the order that were not met since the search went back, and where all is
/// decided the whole shape.
pub fn choose(advice: &mut Advice, trail: &Trail) -> Option<Lit>
    ensures some { IfSome result (IsOpen trail.now) }
    ensures none { result ≡ None → IsTotal trail.now }
{
    match proposed(advice, trail) {
        Some(lit) => Some(lit),
        None => {
            advice.order.begin_anew();
            open_literal(trail)
        }
    }
}

impl Advice {
    /// Advice on trails of the shape, before anything is learned: by number, atoms first, then constraints, bodies and
    /// variables.
    pub fn new(alloc: Global, shape: Shape) -> Result<Advice, Memory> {
        let count = places_of(shape);
        let order = Order::new(alloc, count)?;
        let mut saved = Vec::new(alloc);
        saved.resize(count as usize, None)?;
        Ok(Advice {
            shape,
            order,
            saved,
        })
    }

    // Prefers what the literal is about.
    fn prefer(&mut self, lit: Lit) {
        if let Some(place) = place_of(self.shape, lit) {
            self.order.prefer(place);
        }
    }

    /// Something was learned: what its chain resolved away and what is left is preferred. It costs as much as they are.
    pub fn learned(&mut self, learned: &Learned) {
        for link in learned.chain.items() {
            self.prefer(link.pivot);
        }
        for lit in learned.nogood.lits() {
            self.prefer(*lit);
        }
    }

    // Keeps what the trail says at the place.
    fn save(&mut self, place: u32, known: Option<i32>) {
        if known.is_some() && (place as usize) < self.saved.len() {
            self.saved[place as usize] = known;
        }
    }

    // The literal's subject will be open again.
    fn reopen(&mut self, trail: &Trail, lit: Lit) {
        if let Some(place) = place_of(self.shape, lit) {
            self.save(place, known_of(trail, lit));
            self.order.reopen(place);
        }
    }

    /// To be called before the trail is undone to the level, and behind `learned` where something was. It costs the
    /// entries that are undone.
    pub fn undoing(&mut self, trail: &Trail, level: usize) {
        let mut place = trail.length();
        while place > 0 {
            place -= 1;
            let entry = trail.entry(place);
            if entry.level <= level {
                return;
            }
            self.reopen(trail, entry.lit);
        }
    }
}
