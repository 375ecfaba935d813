// Watches, and the lists of them.
ghost use Rattle.std.specs.Prelude.{◌≡◌, ◌<◌, ◌++◌, ◌∷◌, [], length, slice_index_or, OnOk, OnErr};
ghost use Rattle.nogood_store.specs.inner.Watching.{IsTaken};

use literals::Lit;
use std::alloc::{AllocError, Global};
use std::marker::Model;

/// A literal of a nogood, which is looked at when it becomes true, and another literal of it: while that
/// one is false, nothing more of the nogood is read.
#[derive(Clone, Copy, Debug)]
pub(crate) struct Watch {
    pub(crate) slot: usize,
    pub(crate) lit: Lit,
    pub(crate) other: Lit,
}

/// The watches of one place.
#[derive(Debug, Drop)]
pub(crate) struct WatchList {
    list: Vec<Watch>,
}

impl Model for WatchList {
    ghost use Rattle.std.specs.Prelude.{List};
    ghost use Rattle.nogood_store.specs.declared.watch.Watch.{Watch};

    ghost Value = { List Watch };

    ghost view = { λ w. w.list.items };
}

impl WatchList {
    /// The list of no watch, which holds no memory.
    pub(crate) fn new(alloc: Global) -> WatchList
        ensures { result ≡ [] }
    {
        WatchList {
            list: Vec::new(alloc),
        }
    }

    #[inline]
    pub(crate) fn count(&self) -> usize
        ensures { result ≡ length self.now }
    {
        self.list.len()
    }

    #[inline]
    pub(crate) fn at(&self, index: usize) -> Watch
        requires { index < length self.now }
        ensures { result ≡ slice_index_or self.now index result }
    {
        self.list[index]
    }

    #[inline]
    pub(crate) fn push(&mut self, watch: Watch) -> Result<(), AllocError>
        ensures ok { OnOk result (self.new ≡ self.old ++ watch ∷ []) }
        ensures err { OnErr result (self.new ≡ self.old) }
    {
        self.list.push(watch)?;
        Ok(())
    }

    /// Takes the watch out: the last one takes its place.
    #[inline]
    pub(crate) fn take_out(&mut self, index: usize) -> Watch
        requires { index < length self.old }
        ensures value { result ≡ slice_index_or self.old index result }
        ensures taken { IsTaken self.old self.new index }
    {
        self.list.swap_remove(index)
    }
}
