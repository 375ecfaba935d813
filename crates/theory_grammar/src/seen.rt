// What was seen while reading.
ghost use Rattle.std.specs.Prelude.{◌≡◌, ◌<◌, ◌≤◌, ◌==◌, true, false, ◌++◌, ◌∷◌, [], None, length, take, drop, OnOk, IfOk};
ghost use Rattle.grammar.specs.Check.{places_where};
ghost use Rattle.grammar.specs.Tree.{number_of};
ghost use Rattle.theory_grammar.specs.State.{lesser, least, refused, noted, argued, with_name};

use crate::names::Names;
use crate::places::{Place, insert, place_at};
use grammar::Shape;
use lexer::Token;
use std::alloc::Global;
use symbols::{Listed, Memory};
use syntax_tree::Name;

/// What was seen of a rule so far.
#[derive(Drop)]
pub struct Seen {
    /// The named variables by number, from 1.
    pub names: Names,
    /// In the text's order, an interval and an atom before what is inside it.
    pub places: Listed<Place>,
    /// The least word, by its number from 0, where a term stands that may not, or a mark.
    pub bad: Option<usize>,
}

// The lesser of a place and the one so far.
fn lesser(so_far: Option<usize>, at: usize) -> Option<usize>
    ensures { result ≡ lesser so_far at }
{
    match so_far {
        Some(bad) => { if at < bad { Some(at) } else { Some(bad) } }
        None => Some(at),
    }
}

impl Seen {
    // Nothing was seen yet of a rule with these names.
    pub(crate) fn behind(alloc: Global, names: &[Name]) -> Result<Seen, Memory>
        ensures { IfOk result (λ seen. seen ≡ record { names = names.now; places = []; bad = None }) }
    {
        Ok(Seen {
            names: Names::copied(alloc, names)?,
            places: Listed::new(alloc),
            bad: None,
        })
    }

    // Notes where a variable stands.
    pub(crate) fn see(&mut self, tokens: &[Token], at: usize, adds: bool) -> Result<(), Memory>
        requires { at < length tokens.now }
        ensures { OnOk result (self.new ≡ record self.old { places = self.old.places ++ noted tokens.now at adds ∷ [] }) }
    {
        self.places.push(place_at(tokens, at, adds))
    }

    // Notes where a variable stands, and gives its number.
    pub(crate) fn number(
        &mut self,
        alloc: Global,
        tokens: &[Token],
        at: usize,
        name: &[u8],
    ) -> Result<u32, Memory>
        requires { at < length tokens.now }
        ensures { IfOk result (λ number. (self.new ≡ record self.old { names = with_name self.old.names name.now; places = self.old.places ++ noted tokens.now at (number_of self.old.names name.now == 0) ∷ [] }) × (number ≡ number_of self.new.names name.now)) }
    {
        let known = self.names.len();
        let number = self.names.number(alloc, name)?;
        let adds = known < self.names.len();
        self.see(tokens, at, adds)?;
        Ok(number)
    }

    // Notes an argument, before what was noted inside it, where it is an interval.
    pub(crate) fn argue(
        &mut self,
        shape: Shape,
        before: usize,
        tokens: &[Token],
        at: usize,
    ) -> Result<(), Memory>
        requires before { before ≤ length self.old.places }
        requires at { at < length tokens.now }
        ensures { OnOk result (self.new ≡ record self.old { places = argued self.old.places shape before (noted tokens.now at true) }) }
    {
        match shape {
            Shape::Interval => insert(&mut self.places, before, place_at(tokens, at, true)),
            _ => Ok(()),
        }
    }

    // Notes an operand, which may be no interval.
    pub(crate) fn refuse(&mut self, shape: Shape, at: usize)
        ensures { self.new ≡ record self.old { bad = refused self.old.bad shape at } }
    {
        if let Shape::Interval = shape {
            self.bad = lesser(self.bad, at);
        }
    }

    /// Notes an atom that was read from a place on, before what was noted inside it; `before` is the number of
    /// places before it.
    pub fn enter(&mut self, before: usize, tokens: &[Token], at: usize) -> Result<(), Memory>
        requires before { before ≤ length self.old.places }
        requires at { at < length tokens.now }
        ensures { OnOk result (self.new ≡ record self.old { places = take before self.old.places ++ noted tokens.now at false ∷ drop before self.old.places }) }
    {
        insert(&mut self.places, before, place_at(tokens, at, false))
    }

    // Notes a word where a check fails, if it does.
    pub(crate) fn fail_at(&mut self, fails: bool, at: usize)
        ensures { self.new ≡ record self.old { bad = least self.old.bad (places_where fails at) } }
    {
        if fails {
            self.bad = lesser(self.bad, at);
        }
    }
}
