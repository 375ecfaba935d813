// The trail.
ghost use Rattle.std.specs.Prelude.{◌≡◌, ◌<◌, ◌≤◌, ◌+◌, [], length, slice_get, take, Some, IfOk, OnOk, OnErr};
ghost use Rattle.trail.specs.declared.entry.Entry.{Entry};
ghost use Rattle.trail.specs.Implied.{bound_before};
ghost use Rattle.trail.specs.Assignment.{Assignment, lits_of, truth_on, lower_on, upper_on, since_on, Names, undone_to, Places, orders_with, IsAssignment};
ghost use Rattle.trail.specs.inner.Kept.{IsBoundOf};

use crate::cells::Cells;
use crate::entry::{Entry, Placed, Slot, Why, replaced_by};
use crate::shape::Shape;
use crate::since::{first_of, is_by_ends};
use crate::undo::{drop_last, pop_above, take_back};
use literals::Lit;
use order_literals::OrderTable;
use std::alloc::Global;
use std::marker::Model;
use symbols::Memory;

/// The literals that were set, in order, with their levels and reasons. Clauses see the shape, the open
/// level, the order literals that were made, and the entries.
#[derive(Debug, Drop)]
pub struct Trail {
    shape: Shape,
    level: usize,
    slots: Vec<Slot>,
    cells: Cells,
    orders: OrderTable,
}

impl Model for Trail {
    ghost use Rattle.trail.specs.Assignment.{Assignment};
    ghost use Rattle.trail.specs.inner.Kept.{IsTrail, entries_of};

    ghost Value = { Assignment };

    ghost view = { λ t. record { shape = t.shape; level = t.level; orders = t.orders; entries = entries_of t.slots.items } };

    ghost invariant = { λ t. IsTrail t.shape t.level t.slots.items t.cells t.orders.variables };
}

// Makes the order literal that a bound names.
fn make_order(orders: &mut OrderTable, lit: Lit) -> Result<(), Memory>
    requires { IsBoundOf orders.old.variables lit }
    ensures ok { OnOk result (orders.new ≡ orders_with orders.old lit) }
    ensures err { OnErr result (orders.new ≡ orders.old) }
{
    match lit {
        Lit::AtMost(x, k) => orders.literal(x, k)?,
        Lit::AtLeast(x, k) => orders.literal(x, k - 1)?,
        _ => return Ok(()),
    };
    Ok(())
}

impl Trail {
    /// Nothing is set, at level 0, and every variable is between the ends.
    pub fn new(alloc: Global, shape: Shape) -> Result<Trail, Memory>
        ensures { IfOk result (λ t. t ≡ record { shape = shape; level = 0; orders = record { variables = shape.variables; made = [] }; entries = [] }) }
    {
        let cells = Cells::new(alloc, shape)?;
        let orders = OrderTable::new(alloc, shape.variables)?;
        Ok(Trail {
            shape,
            level: 0,
            slots: Vec::new(alloc),
            cells,
            orders,
        })
    }

    /// The shape that the trail is over.
    #[inline]
    pub fn shape(&self) -> Shape
        ensures value { result ≡ self.now.shape }
        ensures assignment { IsAssignment self.now }
    {
        self.shape
    }

    /// The open level.
    #[inline]
    pub fn level(&self) -> usize
        ensures value { result ≡ self.now.level }
        ensures assignment { IsAssignment self.now }
    {
        self.level
    }

    /// How many entries there are.
    #[inline]
    pub fn length(&self) -> usize
        ensures value { result ≡ length self.now.entries }
        ensures assignment { IsAssignment self.now }
    {
        self.slots.len()
    }

    /// The entry at a place, counted from 0.
    #[inline]
    pub fn entry(&self, index: usize) -> &Entry
        requires { index < length self.now.entries }
        ensures { slice_get self.now.entries index ≡ Some result.now }
    {
        &self.slots[index].entry
    }

    /// The bound of its variable that stood before the entry at a place: nothing where the entry is no
    /// bound. O(1).
    #[inline]
    pub fn replaced(&self, index: usize) -> Option<i32>
        requires { index < length self.now.entries }
        ensures { (e : Entry) → slice_get self.now.entries index ≡ Some e → result ≡ bound_before self.now.shape.ends (take index (lits_of self.now.entries)) e.lit }
    {
        replaced_by(&self.slots[index])
    }

    /// The order literals that were made.
    #[inline]
    pub fn orders(&self) -> &OrderTable
        ensures { result.now ≡ self.now.orders }
    {
        &self.orders
    }

    /// The least number that the variable may have. O(1).
    #[inline]
    pub fn lower(&self, x: u32) -> i32
        requires { x ≤ self.now.shape.variables }
        ensures { result ≡ lower_on self.now x }
    {
        self.cells.lower(x)
    }

    /// The greatest number that the variable may have. O(1).
    #[inline]
    pub fn upper(&self, x: u32) -> i32
        requires { x ≤ self.now.shape.variables }
        ensures { result ≡ upper_on self.now x }
    {
        self.cells.upper(x)
    }

    /// How the literal stands: nothing where neither it nor its opposite is implied. O(1).
    #[inline]
    pub fn truth(&self, lit: Lit) -> Option<bool>
        requires { Names self.now.shape lit }
        ensures { result ≡ truth_on self.now lit }
    {
        self.cells.truth(lit)
    }

    /// The place of the entry at which the literal became true: nothing where the ends imply it, or no
    /// entry does. O(1) but for a bound, where it costs the later entries of that bound.
    pub fn since(&self, lit: Lit) -> Option<usize>
        requires { Names self.now.shape lit }
        ensures { result ≡ since_on self.now lit }
    {
        if is_by_ends(self.shape.ends, lit) {
            return None;
        }
        first_of(&self.slots, lit, self.cells.mark(lit))
    }

    /// Opens the next level.
    pub fn open_level(&mut self) -> Result<(), Memory>
        ensures ok { OnOk result (self.new ≡ record self.old { level = self.old.level + 1 }) }
        ensures err { OnErr result (self.new ≡ self.old) }
    {
        match self.level.checked_add(1) {
            Some(level) => {
                self.level = level;
                Ok(())
            }
            None => Err(Memory),
        }
    }

    /// Sets the literal, unless it or its opposite is implied. O(1) but for the order literal.
    pub fn set(&mut self, lit: Lit, why: Why) -> Result<Placed, Memory>
        requires { Names self.old.shape lit }
        ensures ok { IfOk result (λ placed. Places self.old lit why placed self.new) }
        ensures err { OnErr result (self.new ≡ self.old) }
        ensures shape { self.new.shape ≡ self.old.shape }
        ensures level { self.new.level ≡ self.old.level }
    {
        match self.cells.truth(lit) {
            Some(true) => return Ok(Placed::Already),
            Some(false) => return Ok(Placed::Clash),
            None => {}
        }
        let at = self.slots.len();
        let entry = Entry {
            lit,
            level: self.level,
            why,
        };
        let saved = self.cells.saved(lit);
        let mark = self.cells.mark(lit);
        self.slots.push(Slot { entry, saved, mark })?;
        match make_order(&mut self.orders, lit) {
            Ok(()) => {
                self.cells.apply(lit, at);
                Ok(Placed::Done)
            }
            Err(memory) => {
                drop_last(&mut self.slots);
                Err(memory)
            }
        }
    }

    /// Takes back the entries above the level. The order literals stay made.
    ///
    /// It costs what is undone, and takes no memory.
    pub fn undo_to(&mut self, level: usize)
        requires { level ≤ self.old.level }
        ensures { self.new ≡ undone_to level self.old }
    {
        'undo: loop {
            match pop_above(&mut self.slots, level) {
                Some(slot) => take_back(&mut self.cells, slot),
                None => break,
            }
        }
        self.level = level;
    }
}
