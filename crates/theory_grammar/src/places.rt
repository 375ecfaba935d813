// Places that were seen, and one that is found late, among those that follow it.
ghost use Rattle.std.specs.Prelude.{◌≡◌, ◌≤◌, ◌<◌, ◌++◌, ◌∷◌, length, map, take, drop, OnOk, OnErr};
ghost use Rattle.theory_grammar.specs.State.{noted};

use lexer::Token;
use std::alloc::Global;
use symbols::{Listed, Memory};

/// Where a variable, a `_`, an interval that is an argument, or an atom stands.
#[derive(Clone, Copy, Debug, PartialEq, Eq)]
pub struct Place {
    /// In bytes from 0.
    pub start: usize,
    /// The number of the word, from 0.
    pub at: usize,
    /// Whether the rule has one variable more from here on, where each `_` and each interval is one.
    pub adds: bool,
}

// The place of a word.
pub(crate) fn place_at(tokens: &[Token], at: usize, adds: bool) -> Place
    requires { at < length tokens.now }
    ensures { result ≡ noted tokens.now at adds }
{
    Place {
        start: tokens[at].start,
        at,
        adds,
    }
}

// Puts a place before those from a number on.
pub(crate) fn insert(places: &mut Listed<Place>, number: usize, place: Place) -> Result<(), Memory>
    requires { number ≤ length places.old }
    ensures { OnOk result (places.new ≡ take number places.old ++ place ∷ drop number places.old) }
{
    let mut carried = place;
    for at in number..places.len() {
        let next = places.items()[at];
        places.set(at, carried);
        carried = next;
    }
    places.push(carried)
}

// Adds where places begin to those so far.
fn write_starts(starts: &mut Listed<usize>, places: &[Place]) -> Result<(), Memory>
    ensures { OnOk result (starts.new ≡ starts.old ++ map (λ place. place.start) places.now) }
{
    for place in places {
        starts.push(place.start)?;
    }
    Ok(())
}

/// Adds where places begin, in bytes from 0, to those so far.
pub fn give_starts(starts: &mut Listed<usize>, places: Listed<Place>) -> Result<(), Memory>
    ensures { OnOk result (starts.new ≡ starts.old ++ map (λ place. place.start) places) }
{
    write_starts(starts, places.items())
}

// Adds where places begin to those so far, or leaves these as they were.
pub(crate) fn add_starts(
    alloc: Global,
    starts: &mut Listed<usize>,
    places: Listed<Place>,
) -> Result<(), Memory>
    ensures ok { OnOk result (starts.new ≡ starts.old ++ map (λ place. place.start) places) }
    ensures err { OnErr result (starts.new ≡ starts.old) }
{
    let mut more = Listed::new(alloc);
    give_starts(&mut more, places)?;
    starts.append(more.items())
}
