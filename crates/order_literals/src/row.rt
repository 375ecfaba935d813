// The order literals of one variable, ascending by their numbers.
ghost use Rattle.std.specs.Prelude.{◌≡◌, ◌≤◌, ◌<◌, None, [], length, OnOk, OnErr};
ghost use Rattle.order_literals.specs.inner.Rows.{Ascends, place_in, found, below_in, above_in, placed};

use std::alloc::{AllocError, Global};
use std::marker::Model;

// An order literal of the row's variable, with its place in the table.
#[derive(Clone, Copy, Debug)]
pub(crate) struct Made {
    pub(crate) number: i32,
    pub(crate) place: usize,
}

// How many of an ascending list lie below the number.
fn place_of_number(list: &[Made], number: i32) -> usize
    requires { Ascends list.now }
    ensures value { result ≡ place_in list.now number }
    ensures within { result ≤ length list.now }
{
    let mut low = 0;
    let mut high = list.len();
    'halve: while low < high {
        let middle = low + (high - low) / 2;
        if list[middle].number < number {
            low = middle + 1;
        } else {
            high = middle;
        }
    }
    low
}

/// The order literals of one variable. Clauses see them as the list of their numbers with their places.
///
/// A look-up is O(log n); adding one moves those above it.
#[derive(Debug, Drop)]
pub(crate) struct Row {
    list: Vec<Made>,
}

impl Model for Row {
    ghost use Rattle.std.specs.Prelude.{List};
    ghost use Rattle.order_literals.specs.declared.row.Made.{Made};

    ghost Value = { List Made };

    ghost use Rattle.order_literals.specs.inner.Rows.{Ascends};

    ghost view = { λ row. row.list.items };

    ghost invariant = { λ row. Ascends row.list.items };
}

impl Row {
    /// The row of no literal, which holds no memory.
    pub(crate) fn new(alloc: Global) -> Row
        ensures { result ≡ [] }
    {
        Row {
            list: Vec::new(alloc),
        }
    }

    /// The place in the table of the literal with this number, if it was made.
    pub(crate) fn find(&self, number: i32) -> Option<usize>
        ensures { result ≡ found number self.now }
    {
        let at = place_of_number(&self.list, number);
        if at == self.list.len() {
            return None;
        }
        let made = self.list[at];
        if made.number != number {
            return None;
        }
        Some(made.place)
    }

    /// The greatest number made that is less.
    pub(crate) fn below(&self, number: i32) -> Option<i32>
        ensures { result ≡ below_in number self.now }
    {
        let at = place_of_number(&self.list, number);
        if at == 0 {
            return None;
        }
        let made = self.list[at - 1];
        Some(made.number)
    }

    /// The least number made that is greater.
    pub(crate) fn above(&self, number: i32) -> Option<i32>
        ensures { result ≡ above_in number self.now }
    {
        let at = place_of_number(&self.list, number);
        if at == self.list.len() {
            return None;
        }
        let made = self.list[at];
        if made.number > number {
            return Some(made.number);
        }
        let next = at + 1;
        if next == self.list.len() {
            return None;
        }
        let after = self.list[next];
        Some(after.number)
    }

    /// Adds the literal with this number.
    pub(crate) fn put(&mut self, number: i32, place: usize) -> Result<(), AllocError>
        requires { found number self.old ≡ None }
        ensures ok { OnOk result (self.new ≡ placed number place self.old) }
        ensures err { OnErr result (self.new ≡ self.old) }
    {
        let at = place_of_number(&self.list, number);
        self.list.insert(at, Made { number, place })?;
        Ok(())
    }
}
