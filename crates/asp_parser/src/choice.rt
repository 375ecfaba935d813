// Choices from their opening brace on. Places are those of words.
ghost use Rattle.std.specs.Prelude.{◌≡◌, ◌≤◌, None, length, IfOk};
ghost use Rattle.grammar.specs.Spelled.{AreTokens};
ghost use Rattle.grammar.specs.Word.{words_at};
ghost use Rattle.grammar.specs.Reading.{sign_at};
ghost use Rattle.grammar.specs.Theory.{relation as relation_there};
ghost use Rattle.asp_parser.specs.StatementState.{Taken, chosen_class, chosens_class, elements_class, braces_class, right_class, choice_class};

use crate::kept::Kept;
use crate::words::is_name;
use grammar::{Mark, is_mark};
use lexer::Token;
use sqlite_items::Items;
use std::alloc::Global;
use symbols::{Listed, Memory, Rel};
use syntax_tree::{Choice, ChoiceElement, Guard, Literal};
use theory_grammar::{Stop, atom, begins_term, compared, given, judged_term, relation};

// The items of a condition, in a list.
fn listed(alloc: Global, items: Items<Literal>) -> Result<Listed<Literal>, Memory>
    ensures { IfOk result (λ list. list ≡ items) }
{
    let mut from_end = items;
    let mut backwards = Listed::new(alloc);
    'backwards: while let Some(item) = from_end.pop() {
        backwards.push(item)?;
    }
    let mut list = Listed::new(alloc);
    'forwards: while let Some(item) = backwards.pop() {
        list.push(item)?;
    }
    Ok(list)
}

// The element at a place: an atom and its condition.
fn chosen(
    alloc: Global,
    text: &[u8],
    tokens: &[Token],
    at: usize,
    kept: &mut Kept,
) -> Result<(ChoiceElement, usize), Stop>
    requires tokens { AreTokens text.now tokens.now }
    requires at { at ≤ length tokens.now }
    ensures { Taken chosen_class text.now tokens.now at kept.old kept.new result }
{
    let (atom, behind) = match atom(alloc, text, tokens, at, &mut kept.seen) {
        Ok(read) => read,
        Err(stop) => return Err(stop),
    };
    match given(alloc, text, tokens, behind, false, &mut kept.seen) {
        Ok((items, next)) => match listed(alloc, items) {
            Ok(condition) => Ok((ChoiceElement { atom, condition }, next)),
            Err(_) => Err(Stop::Memory),
        },
        Err(stop) => Err(stop),
    }
}

// One element or more, with `;` between them.
fn chosens(
    alloc: Global,
    text: &[u8],
    tokens: &[Token],
    at: usize,
    kept: &mut Kept,
) -> Result<(Listed<ChoiceElement>, usize), Stop>
    requires tokens { AreTokens text.now tokens.now }
    requires at { at ≤ length tokens.now }
    ensures { Taken chosens_class text.now tokens.now at kept.old kept.new result }
{
    let mut found = Listed::new(alloc);
    let (first, mut next) = match chosen(alloc, text, tokens, at, kept) {
        Ok(read) => read,
        Err(stop) => return Err(stop),
    };
    match found.push(first) {
        Ok(()) => {}
        Err(_) => return Err(Stop::Memory),
    }
    'turns: while is_mark(text, tokens, next, Mark::Semicolon) {
        match chosen(alloc, text, tokens, next + 1, kept) {
            Ok((item, after)) => match found.push(item) {
                Ok(()) => next = after,
                Err(_) => return Err(Stop::Memory),
            },
            Err(stop) => return Err(stop),
        }
    }
    Ok((found, next))
}

// The elements at a place, where there are some.
fn elements(
    alloc: Global,
    text: &[u8],
    tokens: &[Token],
    at: usize,
    kept: &mut Kept,
) -> Result<(Listed<ChoiceElement>, usize), Stop>
    requires tokens { AreTokens text.now tokens.now }
    requires at { at ≤ length tokens.now }
    ensures { Taken elements_class text.now tokens.now at kept.old kept.new result }
{
    if !is_name(text, tokens, at) {
        return Ok((Listed::new(alloc), at));
    }
    chosens(alloc, text, tokens, at, kept)
}

// The elements at a place between their braces.
fn braces(
    alloc: Global,
    text: &[u8],
    tokens: &[Token],
    at: usize,
    kept: &mut Kept,
) -> Result<(Listed<ChoiceElement>, usize), Stop>
    requires tokens { AreTokens text.now tokens.now }
    requires at { at ≤ length tokens.now }
    ensures { Taken braces_class text.now tokens.now at kept.old kept.new result }
{
    if !is_mark(text, tokens, at, Mark::OpenBrace) {
        return Err(Stop::Expected(at));
    }
    match elements(alloc, text, tokens, at + 1, kept) {
        Ok((found, brace)) => {
            if !is_mark(text, tokens, brace, Mark::CloseBrace) {
                return Err(Stop::Expected(brace));
            }
            Ok((found, brace + 1))
        }
        Err(stop) => Err(stop),
    }
}

// The bound without a relation at a place, where there is one: the count is at most it.
fn upper(
    alloc: Global,
    text: &[u8],
    tokens: &[Token],
    at: usize,
    kept: &mut Kept,
) -> Result<(Option<Guard>, usize), Stop>
    requires tokens { AreTokens text.now tokens.now }
    requires at { at ≤ length tokens.now }
    requires plain { sign_at relation_there (words_at text.now tokens.now at) ≡ None }
    ensures { Taken right_class text.now tokens.now at kept.old kept.new result }
{
    if !begins_term(text, tokens, at) {
        return Ok((None, at));
    }
    match judged_term(alloc, text, tokens, at, false, &mut kept.seen) {
        Ok(read) => Ok((
            Some(Guard {
                rel: Rel::LessEqual,
                right: read.term,
            }),
            read.next,
        )),
        Err(stop) => Err(stop),
    }
}

// The right bound at a place, where there is one.
fn right(
    alloc: Global,
    text: &[u8],
    tokens: &[Token],
    at: usize,
    kept: &mut Kept,
) -> Result<(Option<Guard>, usize), Stop>
    requires tokens { AreTokens text.now tokens.now }
    requires at { at ≤ length tokens.now }
    ensures { Taken right_class text.now tokens.now at kept.old kept.new result }
{
    match relation(text, tokens, at) {
        Some(rel) => match compared(alloc, text, tokens, at, false, rel, &mut kept.seen) {
            Ok((guard, next)) => Ok((Some(guard), next)),
            Err(stop) => Err(stop),
        },
        None => upper(alloc, text, tokens, at, kept),
    }
}

// The choice whose opening brace stands at a place, behind this left bound.
pub(crate) fn choice(
    alloc: Global,
    text: &[u8],
    tokens: &[Token],
    at: usize,
    left: Option<Guard>,
    kept: &mut Kept,
) -> Result<(Choice, usize), Stop>
    requires tokens { AreTokens text.now tokens.now }
    requires at { at ≤ length tokens.now }
    ensures { Taken (choice_class left) text.now tokens.now at kept.old kept.new result }
{
    let (elements, behind) = match braces(alloc, text, tokens, at, kept) {
        Ok(read) => read,
        Err(stop) => return Err(stop),
    };
    match right(alloc, text, tokens, behind, kept) {
        Ok((right, next)) => Ok((
            Choice {
                left,
                elements,
                right,
            },
            next,
        )),
        Err(stop) => Err(stop),
    }
}
