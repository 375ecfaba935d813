// A growable list that contracts see as a list.
ghost use Rattle.std.specs.Prelude.{◌≡◌, ◌<◌, ◌≤◌, ◌↔◌, [], ◌∷◌, ◌++◌, length, take, reverse as reversed, slice_set, IsTrue, OnOk, OnErr, IfOk, MatchOption};
ghost use Rattle.std.specs.Cmp.Lexicographic.{pointwise, lists_per, lists_equiv};
ghost use Rattle.std.specs.Fn.{CalledAt};
ghost use Rattle.std.specs.List.{AllZip};
ghost use Rattle.std.specs.List.Retain.{IsFiltered};
ghost use Rattle.std.specs.Hash as fed;
ghost use Rattle.std.specs.Hash.{items_Alike};

use crate::memory::Memory;
use std::alloc::{AllocError, Global};
use std::hash::{Hash, Hasher};
use std::marker::Model;

/// A list that grows at its end. Clauses see it as the list of its items.
///
/// A push is amortised O(1); `items` lends the whole list as a slice.
#[derive(Debug, Drop)]
pub struct Listed<T> {
    held: Vec<T>,
}

impl<T> Model for Listed<T> {
    ghost use Rattle.std.specs.Prelude.{List};
    ghost use Rattle.std.specs.Coded.{coded_list};

    ghost Value = { List T };

    ghost coded = { coded_list T.code };

    ghost view = { λ list. list.held.items };
}

impl<T> Listed<T> {
    /// The empty list, which holds no memory.
    pub fn new(alloc: Global) -> Self
        ensures { result ≡ [] }
    {
        Listed {
            held: Vec::new(alloc),
        }
    }

    /// The list of the items of a vector, which moves none of them.
    pub fn from_vec(held: Vec<T>) -> Self
        ensures { result ≡ held.items }
    {
        Listed { held }
    }

    /// How many items there are.
    pub fn len(&self) -> usize
        ensures { result ≡ length self.now }
    {
        self.held.len()
    }

    /// Whether there is no item.
    pub fn is_empty(&self) -> bool
        ensures { IsTrue result ↔ (self.now ≡ []) }
    {
        self.held.is_empty()
    }

    /// Every item, in order.
    #[inline]
    pub fn items(&self) -> &[T]
        ensures { result.now ≡ self.now }
    {
        &self.held
    }

    /// Takes the last item, if there is one.
    pub fn pop(&mut self) -> Option<T>
        ensures { MatchOption result ((self.old ≡ []) × (self.new ≡ [])) (λ last. self.old ≡ self.new ++ last ∷ []) }
    {
        self.held.pop()
    }

    /// Turns the order of the items round, in place.
    pub fn reverse(&mut self)
        ensures { self.new ≡ reversed self.old }
    {
        self.held.reverse();
    }

    /// Moves the items of another list behind these, or leaves both lists as they were.
    pub fn append_list(&mut self, other: &mut Listed<T>) -> Result<(), Memory>
        ensures ok { OnOk result (self.new ≡ self.old ++ other.old) }
        ensures emptied { OnOk result (other.new ≡ []) }
        ensures err { OnErr result (self.new ≡ self.old) }
        ensures other_err { OnErr result (other.new ≡ other.old) }
    {
        self.held.append(&mut other.held)?;
        Ok(())
    }

    /// The items as a vector, which moves none of them.
    pub fn into_vec(self) -> Vec<T>
        ensures { result.items ≡ self }
    {
        self.held
    }
}

impl<T: Drop> Listed<T> {
    /// Adds an item at the end, or leaves the list as it was.
    pub fn push(&mut self, item: T) -> Result<(), Memory>
        ensures ok { OnOk result (self.new ≡ self.old ++ item ∷ []) }
        ensures err { OnErr result (self.new ≡ self.old) }
    {
        self.held.push(item)?;
        Ok(())
    }

    /// Puts an item in the place of another.
    pub fn set(&mut self, place: usize, item: T)
        requires { place < length self.old }
        ensures { self.new ≡ slice_set self.old place item }
    {
        self.held[place] = item;
    }

    /// Keeps the items at which `test` answers true, in their order; each is tested once, from the first on.
    pub fn retain<F: FnMut(&T) -> bool>(&mut self, test: F)
        requires { F.IsAlwaysCallable test }
        ensures filtered { IsFiltered (CalledAt F.FnMut) test self.old self.new }
        ensures bound { length self.new ≤ length self.old }
    {
        self.held.retain(test);
    }

    /// Keeps the first `n` items, or all where there are fewer.
    pub fn truncate(&mut self, n: usize)
        ensures { self.new ≡ take n self.old }
    {
        self.held.truncate(n);
    }
}

impl<T: Copy> Listed<T> {
    /// A list of these items.
    pub fn from_slice(alloc: Global, items: &[T]) -> Result<Self, Memory>
        ensures { IfOk result (λ list. list ≡ items.now) }
    {
        Ok(Listed {
            held: Vec::from_slice(alloc, items)?,
        })
    }

    /// Adds these items at the end, or leaves the list as it was.
    pub fn append(&mut self, items: &[T]) -> Result<(), Memory>
        ensures ok { OnOk result (self.new ≡ self.old ++ items.now) }
        ensures err { OnErr result (self.new ≡ self.old) }
    {
        self.held.extend_from_slice(items)?;
        Ok(())
    }
}

impl<T: Clone> Clone for Listed<T> {
    ghost is_clone = { λ list copy. AllZip T.is_clone list copy };

    fn clone(&self) -> Result<Self, AllocError> {
        Ok(Listed {
            held: self.held.clone()?,
        })
    }
}

impl<T: PartialEq> PartialEq for Listed<T> {
    ghost eq = { λ x y. pointwise T.eq x y };

    ghost laws = { lists_per T.laws };

    fn eq(&self, other: &Self) -> bool {
        self.held == other.held
    }
}

impl<T: Eq> Eq for Listed<T> {
    ghost laws = { lists_equiv T.Eq.laws };
}

impl<T: Hash> Hash for Listed<T> {
    ghost hash_input = { λ list. fed.slice T.hash_input list };

    ghost respects_eq = { (items_Alike (record { fed = T.respects_eq })).fed };

    fn hash<H: Hasher>(&self, state: &mut H) {
        self.held.hash(state);
    }
}
