// Marks of the literals that were met.
ghost use Rattle.std.specs.Prelude.{◌≡◌, ◌<◌, ◌^◌, ℕ, [], length, get_or, MatchOption, OnOk};
ghost use Rattle.conflict_analysis.specs.Marked.{Fits, IsBoard, IsClear, Takes, HasPlace, mark_of, marked_with, unmarked};

use literals::{Counts, Lit, Places};
use std::alloc::Global;
use std::marker::Model;
use symbols::Memory;
use trail::Shape;

/// How a literal was met.
#[derive(Clone, Copy, Debug)]
pub(crate) enum Mark {
    Clear,
    /// The ends imply this literal.
    ByEnds(Lit),
    /// This literal became true by the entry at the place.
    ByEntry(Lit, usize),
}

/// Room for the marks of an analysis. It is kept from one to the next, and grows to the shape of the
/// trails that it meets.
#[derive(Debug, Drop)]
pub struct Marks {
    places: Places,
    marks: Vec<Mark>,
    touched: Vec<usize>,
}

impl Model for Marks {
    ghost use Rattle.conflict_analysis.specs.Marked.{Board, IsBoard};

    ghost Value = { Board };

    ghost view = { λ m. record { counts = m.places; marks = m.marks.items; touched = m.touched.items } };

    ghost invariant = { λ m. IsBoard m.marks.items m.touched.items };
}

// Clears what was touched.
fn clear_all(marks: &mut Vec<Mark>, touched: &mut Vec<usize>)
    requires { IsBoard marks.old.items touched.old.items }
    ensures clear { (i : ℕ) → get_or marks.new.items i Mark.Clear ≡ Mark.Clear }
    ensures none { touched.new.items ≡ [] }
    ensures size { length marks.new.items ≡ length marks.old.items }
{
    'clear: loop {
        match touched.pop() {
            Some(place) => marks[place] = Mark::Clear,
            None => return,
        }
    }
}

impl Marks {
    /// No marks, and no memory for them.
    pub fn new(alloc: Global) -> Marks {
        Marks {
            places: Places::new(Counts {
                atoms: 0,
                bodies: 0,
                constraints: 0,
                variables: 0,
            }),
            marks: Vec::new(alloc),
            touched: Vec::new(alloc),
        }
    }

    /// Makes room for the literals of the shape, none of them marked. It costs what was touched, and
    /// where the shape has changed its size.
    pub(crate) fn begin(&mut self, shape: Shape) -> Result<(), Memory>
        ensures fits { OnOk result (Fits shape self.new) }
        ensures clear { OnOk result (IsClear self.new) }
    {
        clear_all(&mut self.marks, &mut self.touched);
        let places = Places::new(shape.counts());
        let size = places.count();
        if size != self.marks.len() {
            self.marks.clear();
            self.marks.resize(size, Mark::Clear)?;
        }
        self.places = places;
        Ok(())
    }

    /// The mark at the literal's place.
    #[inline]
    pub(crate) fn mark(&self, lit: Lit) -> Mark
        requires { HasPlace self.now lit }
        ensures mark { result ≡ mark_of self.now lit }
        ensures few { length self.now.marks < 2 ^ 64 }
    {
        self.marks[self.places.place(lit)]
    }

    /// Marks the literal's place.
    pub(crate) fn set(&mut self, lit: Lit, mark: Mark) -> Result<(), Memory>
        requires { HasPlace self.old lit }
        ensures { OnOk result (self.new ≡ marked_with self.old lit mark) }
    {
        let place = self.places.place(lit);
        match self.marks[place] {
            Mark::Clear => {
                self.touched.push(place)?;
                self.marks[place] = mark;
                Ok(())
            }
            _ => {
                self.marks[place] = mark;
                Ok(())
            }
        }
    }

    /// Clears the literal's place.
    pub(crate) fn unset(&mut self, lit: Lit)
        requires { HasPlace self.old lit }
        ensures { self.new ≡ unmarked self.old lit }
    {
        let place = self.places.place(lit);
        self.marks[place] = Mark::Clear;
    }

    /// Takes the mark at the last touched place, if there is one.
    pub(crate) fn take(&mut self) -> Option<Mark>
        ensures { MatchOption result (IsClear self.old × (self.new ≡ self.old) × (self.old.touched ≡ [])) (λ m. Takes self.old self.new m) }
    {
        match self.touched.pop() {
            Some(place) => {
                let mark = self.marks[place];
                self.marks[place] = Mark::Clear;
                Some(mark)
            }
            None => None,
        }
    }
}
