// The table of order literals.
ghost use Rattle.std.specs.Prelude.{◌≡◌, ◌≤◌, ◌<◌, ◌+◌, None, [], length, slice_set, slice_index_or, IfOk, OnOk, OnErr, replicate};
ghost use Rattle.order_literals.specs.inner.Rows.{found, placed};
ghost use Rattle.order_literals.specs.Orders.{OrderLits, place_of, with_literal, IsNearestBelow, IsNearestAbove};

use crate::order_id::OrderId;
use crate::row::Row;
use std::alloc::{AllocError, Global};
use std::marker::Model;
use symbols::Memory;

/// The order literal `x <= number` of the variable x.
#[derive(Clone, Copy, Debug, PartialEq, Eq)]
pub struct OrderLit {
    pub variable: u32,
    pub number: i32,
}

/// The order literals that were made. Clauses see the table as how many variables there are, and the
/// list of the literals in the order of making, where an id is a place.
#[derive(Debug, Drop)]
pub struct OrderTable {
    variables: u32,
    made: Vec<OrderLit>,
    rows: Vec<Row>,
}

impl Model for OrderTable {
    ghost use Rattle.order_literals.specs.Orders.{OrderLits, IsTable};

    ghost Value = { OrderLits };

    ghost view = { λ table. record { variables = table.variables; made = table.made.items } };

    ghost invariant = { λ table. IsTable table.variables table.made.items table.rows.items };
}

// A row of no literal for each of so many variables.
fn empty_rows(alloc: Global, count: usize) -> Result<Vec<Row>, AllocError>
    ensures { IfOk result (λ rows. rows.items ≡ replicate count []) }
{
    let mut rows = Vec::new(alloc);
    for _ in 0..count {
        rows.push(Row::new(alloc))?;
    }
    Ok(rows)
}

// Adds the literal with this number to one of the rows.
fn put_in(rows: &mut Vec<Row>, x: usize, number: i32, place: usize) -> Result<(), AllocError>
    requires within { x < length rows.old.items }
    requires absent { found number (slice_index_or rows.old.items x []) ≡ None }
    ensures ok { OnOk result (rows.new.items ≡ slice_set rows.old.items x (placed number place (slice_index_or rows.old.items x []))) }
    ensures err { OnErr result (rows.new.items ≡ rows.old.items) }
{
    let row = &mut rows[x];
    row.put(number, place)
}

impl OrderTable {
    /// The table of no literal, over variables numbered from 1.
    ///
    /// It holds a few words for each variable, whatever the numbers that the variable may have.
    pub fn new(alloc: Global, variables: u32) -> Result<OrderTable, Memory>
        ensures { IfOk result (λ table. table ≡ record { variables = variables; made = [] }) }
    {
        let rows = empty_rows(alloc, variables as usize + 1)?;
        Ok(OrderTable {
            variables,
            made: Vec::new(alloc),
            rows,
        })
    }

    /// How many literals were made.
    #[inline]
    pub fn made(&self) -> usize
        ensures { result ≡ length self.now.made }
    {
        self.made.len()
    }

    /// The literal `x <= k`, if it was made. O(log n) in the literals of x.
    pub fn find(&self, x: u32, k: i32) -> Option<OrderId>
        requires { x ≤ self.now.variables }
        ensures { result ≡ place_of self.now.made x k }
    {
        match self.rows[x as usize].find(k) {
            Some(place) => Some(OrderId::at(place)),
            None => None,
        }
    }

    /// The literal `x <= k`, made now if it was not made before. O(log n) in the literals of x where it
    /// was.
    pub fn literal(&mut self, x: u32, k: i32) -> Result<OrderId, Memory>
        requires { x ≤ self.old.variables }
        ensures made { OnOk result (self.new ≡ with_literal self.old x k) }
        ensures id { IfOk result (λ id. place_of self.new.made x k ≡ Some id) }
        ensures err { OnErr result (self.new ≡ self.old) }
    {
        match self.find(x, k) {
            Some(id) => Ok(id),
            None => self.make(x, k),
        }
    }

    // Makes the literal `x <= k`.
    fn make(&mut self, x: u32, k: i32) -> Result<OrderId, Memory>
        requires within { x ≤ self.old.variables }
        requires new { place_of self.old.made x k ≡ None }
        ensures made { OnOk result (self.new ≡ with_literal self.old x k) }
        ensures id { IfOk result (λ id. place_of self.new.made x k ≡ Some id) }
        ensures err { OnErr result (self.new ≡ self.old) }
    {
        let place = self.made.len();
        self.made.push(OrderLit {
            variable: x,
            number: k,
        })?;
        match put_in(&mut self.rows, x as usize, k, place) {
            Ok(()) => Ok(OrderId::at(place)),
            Err(_) => {
                self.made.pop();
                Err(Memory)
            }
        }
    }

    /// The nearest numbers below and above k at which literals of x were made. O(log n) in them.
    pub fn neighbours(&self, x: u32, k: i32) -> (Option<i32>, Option<i32>)
        requires { x ≤ self.now.variables }
        ensures below { IsNearestBelow self.now.made x k result.0 }
        ensures above { IsNearestAbove self.now.made x k result.1 }
    {
        let row = &self.rows[x as usize];
        (row.below(k), row.above(k))
    }
}
