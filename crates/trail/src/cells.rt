// What is known now, laid out for reading at once.
ghost use Rattle.std.specs.Prelude.{◌≡◌, ◌<◌, ◌+◌, ◌*◌, length, set, replicate, None, IfOk};
ghost use Rattle.literals.specs.Places.{places_of};
ghost use Rattle.trail.specs.Assignment.{counts_of};
ghost use Rattle.trail.specs.inner.Cells.{HasPlace, truth_in, upper_in, lower_in, saved_in, mark_in, bound_of as of_lit, decided, written, applied, reverted, end_pairs};

use crate::shape::Shape;
use literals::{Lit, Places};
use std::alloc::{AllocError, Global};
use std::marker::Model;

/// For each place of a literal its truth and the place of the entry that gave it, and two bounds for each
/// variable.
///
/// A truth stands at the literal's place and, turned, at its opposite's: reading one is one look.
#[derive(Debug, Drop)]
pub(crate) struct Cells {
    places: Places,
    truths: Vec<Option<bool>>,
    bounds: Vec<i32>,
    marks: Vec<Option<usize>>,
}

impl Model for Cells {
    ghost use Rattle.trail.specs.inner.Cells.{Layout};

    ghost Value = { Layout };

    ghost view = { λ c. record { counts = c.places; truths = c.truths.items; bounds = c.bounds.items; marks = c.marks.items } };
}

// True where the first test holds, false where the second does.
#[inline]
fn decide(holds: bool, fails: bool) -> Option<bool>
    ensures { result ≡ decided holds fails }
{
    if holds {
        Some(true)
    } else if fails {
        Some(false)
    } else {
        None
    }
}

// The bound that the literal is.
#[inline]
fn bound_of(lit: Lit) -> i32
    ensures { result ≡ of_lit lit }
{
    match lit {
        Lit::Atom(..) | Lit::Body(..) | Lit::Constraint(..) => 0,
        Lit::AtMost(_, k) | Lit::AtLeast(_, k) => k,
    }
}

// The upper and the lower end, as often as there are variables.
fn pairs_of(alloc: Global, variables: usize, min: i32, max: i32) -> Result<Vec<i32>, AllocError>
    ensures { IfOk result (λ pairs. pairs.items ≡ end_pairs variables min max) }
{
    let mut pairs = Vec::new(alloc);
    for _ in 0..variables {
        pairs.push(max)?;
        pairs.push(min)?;
    }
    Ok(pairs)
}

// Writes a truth at a place, and another at the opposite's.
#[inline]
fn write_pair(
    truths: &mut Vec<Option<bool>>,
    place: usize,
    opposite: usize,
    known: Option<bool>,
    other: Option<bool>,
)
    requires place { place < length truths.old.items }
    requires opposite { opposite < length truths.old.items }
    ensures { truths.new.items ≡ set (set truths.old.items place known) opposite other }
{
    truths[place] = known;
    truths[opposite] = other;
}

impl Cells {
    /// Nothing is known, and each variable is between the ends.
    pub(crate) fn new(alloc: Global, shape: Shape) -> Result<Cells, AllocError>
        ensures counts { IfOk result (λ c. c.counts ≡ counts_of shape) }
        ensures truths { IfOk result (λ c. c.truths ≡ replicate (places_of (counts_of shape)) None) }
        ensures pairs { IfOk result (λ c. c.bounds ≡ end_pairs (shape.variables + 1) shape.ends.min shape.ends.max) }
        ensures marks { IfOk result (λ c. c.marks ≡ replicate (places_of (counts_of shape)) None) }
    {
        let places = Places::new(shape.counts());
        let count = places.count();
        let truths = vec![in alloc; None; count]?;
        let bounds = pairs_of(
            alloc,
            shape.variables as usize + 1,
            shape.ends.min,
            shape.ends.max,
        )?;
        let marks = vec![in alloc; None; count]?;
        Ok(Cells {
            places,
            truths,
            bounds,
            marks,
        })
    }

    /// The least number that the variable may have.
    #[inline]
    pub(crate) fn lower(&self, x: u32) -> i32
        requires { 2 * x + 1 < length self.now.bounds }
        ensures { result ≡ lower_in self.now x }
    {
        self.bounds[2 * x as usize + 1]
    }

    /// The greatest number that the variable may have.
    #[inline]
    pub(crate) fn upper(&self, x: u32) -> i32
        requires { 2 * x + 1 < length self.now.bounds }
        ensures { result ≡ upper_in self.now x }
    {
        self.bounds[2 * x as usize]
    }

    /// How the literal stands.
    #[inline]
    pub(crate) fn truth(&self, lit: Lit) -> Option<bool>
        requires { HasPlace self.now lit }
        ensures { result ≡ truth_in self.now lit }
    {
        match lit {
            Lit::Atom(..) | Lit::Body(..) | Lit::Constraint(..) => self.truths[self
                .places
                .place(lit)],
            Lit::AtMost(x, k) => {
                let upper = self.bounds[2 * x as usize];
                let lower = self.bounds[2 * x as usize + 1];
                decide(upper <= k, k < lower)
            }
            Lit::AtLeast(x, k) => {
                let upper = self.bounds[2 * x as usize];
                let lower = self.bounds[2 * x as usize + 1];
                decide(k <= lower, upper < k)
            }
        }
    }

    /// The bound that the literal would replace.
    #[inline]
    pub(crate) fn saved(&self, lit: Lit) -> i32
        requires { HasPlace self.now lit }
        ensures { result ≡ saved_in self.now lit }
    {
        match lit {
            Lit::AtMost(x, _) => self.bounds[2 * x as usize],
            Lit::AtLeast(x, _) => self.bounds[2 * x as usize + 1],
            _ => 0,
        }
    }

    /// The entry that gave what the literal would replace.
    #[inline]
    pub(crate) fn mark(&self, lit: Lit) -> Option<usize>
        requires { HasPlace self.now lit }
        ensures { result ≡ mark_in self.now lit }
    {
        self.marks[self.places.place(lit)]
    }

    // Writes at the places of the literal: one truth for it and another for its opposite, or a bound; and
    // a mark.
    #[inline]
    fn write(
        &mut self,
        lit: Lit,
        known: Option<bool>,
        other: Option<bool>,
        bound: i32,
        mark: Option<usize>,
    )
        requires { HasPlace self.old lit }
        ensures { self.new ≡ written self.old lit known other bound mark }
    {
        let place = self.places.place(lit);
        self.marks[place] = mark;
        match lit {
            Lit::Atom(n, sign) => {
                let opposite = self.places.place(Lit::Atom(n, !sign));
                write_pair(&mut self.truths, place, opposite, known, other);
            }
            Lit::Body(n, sign) => {
                let opposite = self.places.place(Lit::Body(n, !sign));
                write_pair(&mut self.truths, place, opposite, known, other);
            }
            Lit::Constraint(n, sign) => {
                let opposite = self.places.place(Lit::Constraint(n, !sign));
                write_pair(&mut self.truths, place, opposite, known, other);
            }
            Lit::AtMost(x, _) => self.bounds[2 * x as usize] = bound,
            Lit::AtLeast(x, _) => self.bounds[2 * x as usize + 1] = bound,
        }
    }

    /// Makes the literal known by the entry at the place.
    #[inline]
    pub(crate) fn apply(&mut self, lit: Lit, at: usize)
        requires { HasPlace self.old lit }
        ensures { self.new ≡ applied self.old lit at }
    {
        self.write(lit, Some(true), Some(false), bound_of(lit), Some(at));
    }

    /// Takes the literal back, with the bound and the mark that it replaced.
    #[inline]
    pub(crate) fn revert(&mut self, lit: Lit, saved: i32, mark: Option<usize>)
        requires { HasPlace self.old lit }
        ensures { self.new ≡ reverted self.old lit saved mark }
    {
        self.write(lit, None, None, saved, mark);
    }
}
