// Conditions of elements. Places are those of words.
ghost use Rattle.std.specs.Prelude.{◌≡◌, ◌+◌, ◌<◌, ◌≤◌, ◌∷◌, false, length};
ghost use Rattle.grammar.specs.Spelled.{AreTokens, bytes_at as bytes_there, word_by};
ghost use Rattle.grammar.specs.Word.{words_at};
ghost use Rattle.grammar.specs.declared.words.WordKind.TheVariants as kind;
ghost use Rattle.grammar.specs.Reading.{starts_next};
ghost use Rattle.grammar.specs.TheoryReading.{is_negation};
ghost use Rattle.theory_grammar.specs.State.{PlainRead};
ghost use Rattle.theory_grammar.specs.TheoryState.{PlainTake, atom_class, condition_class, conditions_class, held_class, given_class};

use crate::comparison::{compared, judged_term};
use crate::fault::Stop;
use crate::parse::MAX_DEPTH;
use crate::seen::Seen;
use crate::signs::relation;
use crate::term::named;
use crate::words::{begins, is_not};
use grammar::{Mark, Shape, WordKind, is_mark, word_at};
use lexer::Token;
use sqlite_items::Items;
use std::alloc::Global;
use syntax_tree::{Literal, Term};

/// The atom at a place.
pub fn atom(
    alloc: Global,
    text: &[u8],
    tokens: &[Token],
    at: usize,
    seen: &mut Seen,
) -> Result<(Term, usize), Stop>
    requires tokens { AreTokens text.now tokens.now }
    requires at { at ≤ length tokens.now }
    ensures { PlainRead atom_class text.now tokens.now at seen.old seen.new result }
{
    match word_at(text, tokens, at) {
        Some(kind) => atom_by(alloc, text, tokens, at, seen, kind),
        None => Err(Stop::Expected(at)),
    }
}

// The atom that begins with a word of this kind.
fn atom_by(
    alloc: Global,
    text: &[u8],
    tokens: &[Token],
    at: usize,
    seen: &mut Seen,
    kind: WordKind,
) -> Result<(Term, usize), Stop>
    requires tokens { AreTokens text.now tokens.now }
    requires at { at < length tokens.now }
    requires word { words_at text.now tokens.now at ≡ word_by kind (bytes_there text.now tokens.now at) ∷ words_at text.now tokens.now (at + 1) }
    ensures { PlainRead atom_class text.now tokens.now at seen.old seen.new result }
{
    match kind {
        WordKind::Name => entered(alloc, text, tokens, at, seen),
        _ => Err(Stop::Expected(at)),
    }
}

// The atom whose name stands at a place.
fn entered(
    alloc: Global,
    text: &[u8],
    tokens: &[Token],
    at: usize,
    seen: &mut Seen,
) -> Result<(Term, usize), Stop>
    requires tokens { AreTokens text.now tokens.now }
    requires at { at < length tokens.now }
    requires word { words_at text.now tokens.now at ≡ word_by kind.Name (bytes_there text.now tokens.now at) ∷ words_at text.now tokens.now (at + 1) }
    ensures { PlainRead atom_class text.now tokens.now at seen.old seen.new result }
{
    let before = seen.places.len();
    match named(alloc, text, tokens, at, MAX_DEPTH, seen) {
        Ok(read) => match seen.enter(before, tokens, at) {
            Ok(()) => Ok((read.term, read.next)),
            Err(_) => Err(Stop::Memory),
        },
        Err(stop) => Err(stop),
    }
}

// The condition at a place.
fn condition(
    alloc: Global,
    text: &[u8],
    tokens: &[Token],
    at: usize,
    seen: &mut Seen,
) -> Result<(Literal, usize), Stop>
    requires tokens { AreTokens text.now tokens.now }
    requires at { at ≤ length tokens.now }
    ensures { PlainRead condition_class text.now tokens.now at seen.old seen.new result }
{
    if !is_not(text, tokens, at) {
        return positive(alloc, text, tokens, at, seen);
    }
    match atom(alloc, text, tokens, at + 1, seen) {
        Ok((term, next)) => Ok((Literal::Atom(term, false), next)),
        Err(stop) => Err(stop),
    }
}

/// The atom or the comparison at a place, where no `not` stands.
pub fn positive(
    alloc: Global,
    text: &[u8],
    tokens: &[Token],
    at: usize,
    seen: &mut Seen,
) -> Result<(Literal, usize), Stop>
    requires tokens { AreTokens text.now tokens.now }
    requires at { at ≤ length tokens.now }
    requires plain { starts_next is_negation (words_at text.now tokens.now at) ≡ false }
    ensures { PlainRead condition_class text.now tokens.now at seen.old seen.new result }
{
    let before = seen.places.len();
    let left = match judged_term(alloc, text, tokens, at, false, seen) {
        Ok(left) => left,
        Err(stop) => return Err(stop),
    };
    match relation(text, tokens, left.next) {
        Some(rel) => match compared(alloc, text, tokens, left.next, true, rel, seen) {
            Ok((guard, next)) => Ok((Literal::Compare(left.term, guard.rel, guard.right), next)),
            Err(stop) => Err(stop),
        },
        None => match left.shape {
            Shape::Atom => match seen.enter(before, tokens, at) {
                Ok(()) => Ok((Literal::Atom(left.term, true), left.next)),
                Err(_) => Err(Stop::Memory),
            },
            _ => Err(Stop::Expected(left.next)),
        },
    }
}

// Conditions with commas between them.
fn conditions(
    alloc: Global,
    text: &[u8],
    tokens: &[Token],
    at: usize,
    seen: &mut Seen,
) -> Result<(Items<Literal>, usize), Stop>
    requires tokens { AreTokens text.now tokens.now }
    requires at { at ≤ length tokens.now }
    ensures { PlainRead conditions_class text.now tokens.now at seen.old seen.new result }
{
    let mut found = Items::new(alloc);
    let (first, mut next) = match condition(alloc, text, tokens, at, seen) {
        Ok(read) => read,
        Err(stop) => return Err(stop),
    };
    match found.push(first) {
        Ok(()) => {}
        Err(_) => return Err(Stop::Memory),
    }
    'turns: while is_mark(text, tokens, next, Mark::Comma) {
        match condition(alloc, text, tokens, next + 1, seen) {
            Ok((item, after)) => {
                match found.push(item) {
                    Ok(()) => next = after,
                    Err(_) => return Err(Stop::Memory),
                }
            }
            Err(stop) => return Err(stop),
        }
    }
    Ok((found, next))
}

// The conditions at a place, where there are some.
fn held(
    alloc: Global,
    text: &[u8],
    tokens: &[Token],
    at: usize,
    seen: &mut Seen,
) -> Result<(Items<Literal>, usize), Stop>
    requires tokens { AreTokens text.now tokens.now }
    requires at { at ≤ length tokens.now }
    ensures { PlainTake held_class text.now tokens.now at seen.old seen.new result }
{
    if !begins(text, tokens, at) {
        return Ok((Items::new(alloc), at));
    }
    conditions(alloc, text, tokens, at, seen)
}

/// What stands behind an element: nothing, `:`, or `:` and conditions. Where it is refused, `:` is a bad term.
pub fn given(
    alloc: Global,
    text: &[u8],
    tokens: &[Token],
    at: usize,
    refused: bool,
    seen: &mut Seen,
) -> Result<(Items<Literal>, usize), Stop>
    requires tokens { AreTokens text.now tokens.now }
    requires at { at ≤ length tokens.now }
    ensures { PlainTake (given_class refused) text.now tokens.now at seen.old seen.new result }
{
    if !is_mark(text, tokens, at, Mark::Colon) {
        return Ok((Items::new(alloc), at));
    }
    seen.fail_at(refused, at);
    held(alloc, text, tokens, at + 1, seen)
}
