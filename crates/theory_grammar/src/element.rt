// Elements of theory atoms. Places are those of words, and `name` is that of the atom.
ghost use Rattle.std.specs.Prelude.{◌≡◌, ◌+◌, ◌<◌, ◌≤◌, ◌&&◌, not, nat_lt, length};
ghost use Rattle.grammar.specs.Spelled.{AreTokens};
ghost use Rattle.grammar.specs.Check.{is_diff as is_diff_there};
ghost use Rattle.theory_grammar.specs.State.{TermRead, PlainRead};
ghost use Rattle.theory_grammar.specs.TheoryState.{PlainTake, first_class, duration_class, place_class, row_class, places_class, element_class, all_class, elements_class, ends_by_minus, is_minus, tree_is_difference as difference_there};

use crate::comparison::judged_term;
use crate::condition::given;
use crate::fault::Stop;
use crate::read_term::ReadTerm;
use crate::seen::Seen;
use crate::theory_names::{has_one_place, is_diff, is_disjoint, is_dom};
use crate::words::begins_term;
use grammar::{Mark, is_mark};
use lexer::Token;
use sqlite_items::Items;
use std::alloc::Global;
use symbols::Listed;
use syntax_tree::{Op, Part, Term, TheoryElement, TheoryName};

// Whether parts are two, with `-` before the second.
fn subtracts(parts: &[Part]) -> bool
    ensures { result ≡ ends_by_minus parts.now }
{
    match parts {
        [_, second] => matches_minus(second.op),
        _ => false,
    }
}

fn matches_minus(op: Op) -> bool
    ensures { result ≡ is_minus op }
{
    match op {
        Op::Minus => true,
        _ => false,
    }
}

// Whether a term is the difference of two.
fn is_difference(term: &Term) -> bool
    ensures { result ≡ difference_there term.now }
{
    match term {
        Term::Sum(parts) => subtracts(parts.as_slice()),
        _ => false,
    }
}

// Whether a term is no difference where the atom wants one.
fn lacks_difference(name: TheoryName, term: &Term) -> bool
    ensures { result ≡ (is_diff_there name && not (difference_there term.now)) }
{
    is_diff(name) && !is_difference(term)
}

// The first place of an element.
fn first_place(
    alloc: Global,
    text: &[u8],
    tokens: &[Token],
    at: usize,
    name: TheoryName,
    seen: &mut Seen,
) -> Result<ReadTerm, Stop>
    requires tokens { AreTokens text.now tokens.now }
    requires at { at ≤ length tokens.now }
    ensures { TermRead (first_class name) text.now tokens.now at seen.old seen.new result }
{
    match judged_term(alloc, text, tokens, at, is_dom(name), seen) {
        Ok(read) => {
            seen.fail_at(lacks_difference(name, &read.term), at);
            Ok(read)
        }
        Err(stop) => Err(stop),
    }
}

// The duration at a place, in an element that begins at `first`, where there is one.
fn duration(
    alloc: Global,
    text: &[u8],
    tokens: &[Token],
    at: usize,
    name: TheoryName,
    first: usize,
    seen: &mut Seen,
) -> Result<(Option<Term>, usize), Stop>
    requires tokens { AreTokens text.now tokens.now }
    requires at { at ≤ length tokens.now }
    ensures { PlainTake (duration_class name first) text.now tokens.now at seen.old seen.new result }
{
    if !is_mark(text, tokens, at, Mark::At) {
        seen.fail_at(is_disjoint(name), first);
        return Ok((None, at));
    }
    seen.fail_at(!is_disjoint(name), at);
    match judged_term(alloc, text, tokens, at + 1, false, seen) {
        Ok(read) => Ok((Some(read.term), read.next)),
        Err(stop) => Err(stop),
    }
}

// A further place of an element.
fn place(
    alloc: Global,
    text: &[u8],
    tokens: &[Token],
    at: usize,
    name: TheoryName,
    seen: &mut Seen,
) -> Result<ReadTerm, Stop>
    requires tokens { AreTokens text.now tokens.now }
    requires at { at ≤ length tokens.now }
    ensures { TermRead (place_class name) text.now tokens.now at seen.old seen.new result }
{
    seen.fail_at(has_one_place(name), at);
    judged_term(alloc, text, tokens, at, false, seen)
}

// Further places with commas between them.
fn row(
    alloc: Global,
    text: &[u8],
    tokens: &[Token],
    at: usize,
    name: TheoryName,
    seen: &mut Seen,
) -> Result<(Listed<Term>, usize), Stop>
    requires tokens { AreTokens text.now tokens.now }
    requires at { at ≤ length tokens.now }
    ensures { PlainRead (row_class name) text.now tokens.now at seen.old seen.new result }
{
    let mut found = Listed::new(alloc);
    let (first, mut next) = match place(alloc, text, tokens, at, name, seen) {
        Ok(read) => (read.term, read.next),
        Err(stop) => return Err(stop),
    };
    match found.push(first) {
        Ok(()) => {}
        Err(_) => return Err(Stop::Memory),
    }
    'turns: while is_mark(text, tokens, next, Mark::Comma) {
        match place(alloc, text, tokens, next + 1, name, seen) {
            Ok(read) => {
                match found.push(read.term) {
                    Ok(()) => next = read.next,
                    Err(_) => return Err(Stop::Memory),
                }
            }
            Err(stop) => return Err(stop),
        }
    }
    Ok((found, next))
}

// The further places at a place, where there are some.
fn places(
    alloc: Global,
    text: &[u8],
    tokens: &[Token],
    at: usize,
    name: TheoryName,
    seen: &mut Seen,
) -> Result<(Listed<Term>, usize), Stop>
    requires tokens { AreTokens text.now tokens.now }
    requires at { at ≤ length tokens.now }
    ensures { PlainTake (places_class name) text.now tokens.now at seen.old seen.new result }
{
    if !is_mark(text, tokens, at, Mark::Comma) {
        return Ok((Listed::new(alloc), at));
    }
    row(alloc, text, tokens, at + 1, name, seen)
}

// The element at a place.
fn element(
    alloc: Global,
    text: &[u8],
    tokens: &[Token],
    at: usize,
    name: TheoryName,
    seen: &mut Seen,
) -> Result<(TheoryElement, usize), Stop>
    requires tokens { AreTokens text.now tokens.now }
    requires at { at ≤ length tokens.now }
    ensures { PlainRead (element_class name) text.now tokens.now at seen.old seen.new result }
{
    let first = match first_place(alloc, text, tokens, at, name, seen) {
        Ok(first) => first,
        Err(stop) => return Err(stop),
    };
    let (long, behind) = match duration(alloc, text, tokens, first.next, name, at, seen) {
        Ok(read) => read,
        Err(stop) => return Err(stop),
    };
    let (rest, last) = match places(alloc, text, tokens, behind, name, seen) {
        Ok(read) => read,
        Err(stop) => return Err(stop),
    };
    match given(alloc, text, tokens, last, is_diff(name), seen) {
        Ok((condition, next)) => {
            Ok((
                TheoryElement {
                    first: first.term,
                    duration: long,
                    rest,
                    condition,
                },
                next,
            ))
        }
        Err(stop) => Err(stop),
    }
}

// Whether a second element was read where there may be one alone.
fn has_second(name: TheoryName, behind: usize, next: usize) -> bool
    ensures { result ≡ (nat_lt behind next && is_diff_there name) }
{
    behind < next && is_diff(name)
}

// Elements with `;` between them.
fn all_elements(
    alloc: Global,
    text: &[u8],
    tokens: &[Token],
    at: usize,
    name: TheoryName,
    seen: &mut Seen,
) -> Result<(Items<TheoryElement>, usize), Stop>
    requires tokens { AreTokens text.now tokens.now }
    requires at { at ≤ length tokens.now }
    ensures { PlainRead (all_class name) text.now tokens.now at seen.old seen.new result }
{
    let mut found = Items::new(alloc);
    let (first, behind) = match element(alloc, text, tokens, at, name, seen) {
        Ok(read) => read,
        Err(stop) => return Err(stop),
    };
    match found.push(first) {
        Ok(()) => {}
        Err(_) => return Err(Stop::Memory),
    }
    let mut next = behind;
    'turns: while is_mark(text, tokens, next, Mark::Semicolon) {
        match element(alloc, text, tokens, next + 1, name, seen) {
            Ok((item, after)) => {
                match found.push(item) {
                    Ok(()) => next = after,
                    Err(_) => return Err(Stop::Memory),
                }
            }
            Err(stop) => return Err(stop),
        }
    }
    seen.fail_at(has_second(name, behind, next), behind + 1);
    Ok((found, next))
}

// The elements at a place, where there are some.
pub(crate) fn elements(
    alloc: Global,
    text: &[u8],
    tokens: &[Token],
    at: usize,
    name: TheoryName,
    seen: &mut Seen,
) -> Result<(Items<TheoryElement>, usize), Stop>
    requires tokens { AreTokens text.now tokens.now }
    requires at { at ≤ length tokens.now }
    ensures { PlainTake (elements_class name) text.now tokens.now at seen.old seen.new result }
{
    if !begins_term(text, tokens, at) {
        seen.fail_at(is_diff(name), at);
        return Ok((Items::new(alloc), at));
    }
    all_elements(alloc, text, tokens, at, name, seen)
}
