// Rows of numbers, side by side in one list.
ghost use Rattle.std.specs.Prelude.{◌≡◌, ◌<◌, ◌≤◌, ◌++◌, [], ◌∷◌, length, slice_index, slice_index_or, OnOk, OnErr};
ghost use Rattle.unfounded_sets.specs.Dependence.{row_of};
ghost use Rattle.unfounded_sets.specs.inner.Rows.{rows_from, row_start, AreEnds};

use std::alloc::Global;
use std::marker::Model;
use symbols::Memory;

// Rows of numbers. Clauses see them as the list of the rows.
#[derive(Debug, Drop)]
pub(crate) struct Rows {
    ends: Vec<usize>,
    items: Vec<u32>,
}

impl Model for Rows {
    ghost use Rattle.std.specs.Prelude.{List, ℕ, vec_len};
    ghost use Rattle.unfounded_sets.specs.inner.Rows.{rows_from, AreEnds};

    ghost Value = { List (List ℕ) };

    ghost view = { λ rows. rows_from 0 rows.ends.items rows.items.items };

    ghost invariant = { λ rows. AreEnds 0 rows.ends.items (vec_len rows.items) };
}

impl Rows {
    // No rows.
    pub(crate) fn new(alloc: Global) -> Rows
        ensures { result ≡ [] }
    {
        Rows {
            ends: Vec::new(alloc),
            items: Vec::new(alloc),
        }
    }

    // How many rows there are.
    pub(crate) fn len(&self) -> usize
        ensures { result ≡ length self.now }
    {
        self.ends.len()
    }

    // Adds a row at the end, or leaves the rows as they were.
    pub(crate) fn push(&mut self, row: &[u32]) -> Result<(), Memory>
        ensures ok { OnOk result (self.new ≡ self.old ++ row.now ∷ []) }
        ensures err { OnErr result (self.new ≡ self.old) }
    {
        let kept = self.items.len();
        self.items.extend_from_slice(row)?;
        match self.ends.push(self.items.len()) {
            Ok(()) => Ok(()),
            Err(_) => {
                self.items.truncate(kept);
                Err(Memory)
            }
        }
    }

    // The row at a place, counted from 0.
    #[inline]
    pub(crate) fn row(&self, place: usize) -> &[u32]
        requires { place < length self.now }
        ensures { result.now ≡ slice_index_or self.now place [] }
    {
        stretch(&self.ends, &self.items, place)
    }

    // The row of that number, counted from 1: empty where there is none.
    #[inline]
    pub(crate) fn numbered(&self, number: u32) -> &[u32]
        ensures { result.now ≡ row_of self.now number }
    {
        if number == 0 || number as usize > self.len() {
            return &[];
        }
        self.row(number as usize - 1)
    }
}

// Where the row at a place begins.
#[inline]
fn start_of(ends: &[usize], items: &[u32], place: usize) -> usize
    requires place { place < length ends.now }
    requires ends { AreEnds 0 ends.now (length items.now) }
    ensures start { result ≡ row_start 0 ends.now place }
    ensures ordered { result ≤ slice_index ends.now place }
    ensures within { slice_index ends.now place ≤ length items.now }
{
    if place == 0 {
        return 0;
    }
    ends[place - 1]
}

// The row at a place.
#[inline]
fn stretch<'a>(ends: &[usize], items: &'a [u32], place: usize) -> &'a [u32]
    requires place { place < length ends.now }
    requires ends { AreEnds 0 ends.now (length items.now) }
    ensures { result.now ≡ slice_index_or (rows_from 0 ends.now items.now) place [] }
{
    let start = start_of(ends, items, place);
    let end = ends[place];
    &items[start..end]
}
