// Terms, and what stands in them. Places are those of words, and `depth` is how deep argument lists,
// parentheses and signs may nest from there.
ghost use Rattle.std.specs.Prelude.{◌+◌, ◌≡◌, ◌<◌, ◌≤◌, ◌∷◌, length};
ghost use Rattle.grammar.specs.Spelled.{AreTokens, bytes_at as bytes_there, word_by};
ghost use Rattle.grammar.specs.Word.{words_at};
ghost use Rattle.grammar.specs.declared.mark.Mark.TheVariants as mark;
ghost use Rattle.grammar.specs.declared.words.WordKind.TheVariants as kind;
ghost use Rattle.theory_grammar.specs.State.{TermRead, PlainRead, unary_class, part_class, product_class, sum_class, term_class, argument_class, args_class, rest_class};

use crate::fault::Stop;
use crate::leaf::{anonymous, number, string, variable};
use crate::read_term::{ReadTerm, grouped, interval, joined, other};
use crate::seen::Seen;
use crate::signs::{adding, multiplying};
use grammar::{Mark, Shape, WordKind, bytes_at, is_mark, word_at};
use lexer::Token;
use sqlite_items::{Boxed, Items};
use std::alloc::Global;
use symbols::Listed;
use syntax_tree::{Op, Part, Term};

// The operand at a place.
#[cycle(term)]
pub(crate) fn unary(
    alloc: Global,
    text: &[u8],
    tokens: &[Token],
    at: usize,
    depth: usize,
    seen: &mut Seen,
) -> Result<ReadTerm, Stop>
    requires tokens { AreTokens text.now tokens.now }
    requires at { at ≤ length tokens.now }
    ensures { TermRead (unary_class depth) text.now tokens.now at seen.old seen.new result }
{
    match word_at(text, tokens, at) {
        Some(kind) => operand(alloc, text, tokens, at, depth, seen, kind),
        None => Err(Stop::Expected(at)),
    }
}

// The operand that begins with a word of this kind.
#[cycle(term)]
fn operand(
    alloc: Global,
    text: &[u8],
    tokens: &[Token],
    at: usize,
    depth: usize,
    seen: &mut Seen,
    kind: WordKind,
) -> Result<ReadTerm, Stop>
    requires tokens { AreTokens text.now tokens.now }
    requires at { at < length tokens.now }
    requires word { words_at text.now tokens.now at ≡ word_by kind (bytes_there text.now tokens.now at) ∷ words_at text.now tokens.now (at + 1) }
    ensures { TermRead (unary_class depth) text.now tokens.now at seen.old seen.new result }
{
    match kind {
        WordKind::Number => number(text, tokens, at, depth, seen),
        WordKind::Text => string(alloc, text, tokens, at, depth, seen),
        WordKind::Variable => variable(alloc, text, tokens, at, depth, seen),
        WordKind::Anonymous => anonymous(text, tokens, at, depth, seen),
        WordKind::Name => named(alloc, text, tokens, at, depth, seen),
        WordKind::Mark(mark) => opened(alloc, text, tokens, at, depth, seen, mark),
        WordKind::Not | WordKind::Const | WordKind::Show => Err(Stop::Expected(at)),
    }
}

// The name at a place, and its arguments.
#[cycle(term)]
pub(crate) fn named(
    alloc: Global,
    text: &[u8],
    tokens: &[Token],
    at: usize,
    depth: usize,
    seen: &mut Seen,
) -> Result<ReadTerm, Stop>
    requires tokens { AreTokens text.now tokens.now }
    requires at { at < length tokens.now }
    requires word { words_at text.now tokens.now at ≡ word_by kind.Name (bytes_there text.now tokens.now at) ∷ words_at text.now tokens.now (at + 1) }
    ensures { TermRead (unary_class depth) text.now tokens.now at seen.old seen.new result }
{
    let name = match Listed::from_slice(alloc, bytes_at(text, tokens, at)) {
        Ok(name) => name,
        Err(_) => return Err(Stop::Memory),
    };
    if !is_mark(text, tokens, at + 1, Mark::Open) {
        return Ok(ReadTerm {
            term: Term::Function(name, Items::new(alloc)),
            shape: Shape::Atom,
            next: at + 1,
        });
    }
    if depth == 0 {
        return Err(Stop::TooDeep(at + 1));
    }
    match arguments(alloc, text, tokens, at + 2, depth - 1, seen) {
        Ok((args, after)) => {
            if !is_mark(text, tokens, after, Mark::Close) {
                return Err(Stop::Expected(after));
            }
            Ok(ReadTerm {
                term: Term::Function(name, args),
                shape: Shape::Atom,
                next: after + 1,
            })
        }
        Err(stop) => Err(stop),
    }
}

// The operand that begins with a mark.
#[cycle(term)]
fn opened(
    alloc: Global,
    text: &[u8],
    tokens: &[Token],
    at: usize,
    depth: usize,
    seen: &mut Seen,
    mark: Mark,
) -> Result<ReadTerm, Stop>
    requires tokens { AreTokens text.now tokens.now }
    requires at { at < length tokens.now }
    requires word { words_at text.now tokens.now at ≡ word_by (kind.Mark mark) (bytes_there text.now tokens.now at) ∷ words_at text.now tokens.now (at + 1) }
    ensures { TermRead (unary_class depth) text.now tokens.now at seen.old seen.new result }
{
    match mark {
        Mark::Minus => negated(alloc, text, tokens, at, depth, seen),
        Mark::Open => bracket(alloc, text, tokens, at, depth, seen),
        _ => Err(Stop::Expected(at)),
    }
}

// A sign with its operand.
#[cycle(term)]
fn negated(
    alloc: Global,
    text: &[u8],
    tokens: &[Token],
    at: usize,
    depth: usize,
    seen: &mut Seen,
) -> Result<ReadTerm, Stop>
    requires tokens { AreTokens text.now tokens.now }
    requires at { at < length tokens.now }
    requires word { words_at text.now tokens.now at ≡ word_by (kind.Mark mark.Minus) (bytes_there text.now tokens.now at) ∷ words_at text.now tokens.now (at + 1) }
    ensures { TermRead (unary_class depth) text.now tokens.now at seen.old seen.new result }
{
    if depth == 0 {
        return Err(Stop::TooDeep(at));
    }
    match unary(alloc, text, tokens, at + 1, depth - 1, seen) {
        Ok(inner) => {
            seen.refuse(inner.shape, at + 1);
            match Boxed::new(alloc, inner.term) {
                Ok(boxed) => Ok(other(Term::Minus(boxed), inner.next)),
                Err(_) => Err(Stop::Memory),
            }
        }
        Err(stop) => Err(stop),
    }
}

// What stands in parentheses: nothing, a term, or the places of a tuple.
#[cycle(term)]
fn bracket(
    alloc: Global,
    text: &[u8],
    tokens: &[Token],
    at: usize,
    depth: usize,
    seen: &mut Seen,
) -> Result<ReadTerm, Stop>
    requires tokens { AreTokens text.now tokens.now }
    requires at { at < length tokens.now }
    requires word { words_at text.now tokens.now at ≡ word_by (kind.Mark mark.Open) (bytes_there text.now tokens.now at) ∷ words_at text.now tokens.now (at + 1) }
    ensures { TermRead (unary_class depth) text.now tokens.now at seen.old seen.new result }
{
    if depth == 0 {
        return Err(Stop::TooDeep(at));
    }
    if is_mark(text, tokens, at + 1, Mark::Close) {
        return Ok(other(Term::Tuple(Items::new(alloc)), at + 2));
    }
    let before = seen.places.len();
    match term(alloc, text, tokens, at + 1, depth - 1, seen) {
        Ok(first) => {
            if is_mark(text, tokens, first.next, Mark::Close) {
                return Ok(ReadTerm {
                    term: first.term,
                    shape: grouped(first.shape),
                    next: first.next + 1,
                });
            }
            if !is_mark(text, tokens, first.next, Mark::Comma) {
                return Err(Stop::Expected(first.next));
            }
            match seen.argue(first.shape, before, tokens, at + 1) {
                Ok(()) => {}
                Err(_) => return Err(Stop::Memory),
            }
            match behind_comma(alloc, text, tokens, first.next + 1, depth - 1, seen) {
                Ok((more, after)) => joined(alloc, first.term, more, after),
                Err(stop) => Err(stop),
            }
        }
        Err(stop) => Err(stop),
    }
}

// The further places of a tuple, with its closing parenthesis.
#[cycle(term)]
fn behind_comma(
    alloc: Global,
    text: &[u8],
    tokens: &[Token],
    at: usize,
    depth: usize,
    seen: &mut Seen,
) -> Result<(Items<Term>, usize), Stop>
    requires tokens { AreTokens text.now tokens.now }
    requires at { at ≤ length tokens.now }
    ensures { PlainRead (rest_class (unary_class depth)) text.now tokens.now at seen.old seen.new result }
{
    if is_mark(text, tokens, at, Mark::Close) {
        return Ok((Items::new(alloc), at + 1));
    }
    match arguments(alloc, text, tokens, at, depth, seen) {
        Ok((args, after)) => {
            if !is_mark(text, tokens, after, Mark::Close) {
                return Err(Stop::Expected(after));
            }
            Ok((args, after + 1))
        }
        Err(stop) => Err(stop),
    }
}

// One term or more, with commas between them.
#[cycle(term)]
fn arguments(
    alloc: Global,
    text: &[u8],
    tokens: &[Token],
    at: usize,
    depth: usize,
    seen: &mut Seen,
) -> Result<(Items<Term>, usize), Stop>
    requires tokens { AreTokens text.now tokens.now }
    requires at { at ≤ length tokens.now }
    ensures { PlainRead (args_class (unary_class depth)) text.now tokens.now at seen.old seen.new result }
{
    let mut found = Items::new(alloc);
    let (first, mut next) = match argument(alloc, text, tokens, at, depth, seen) {
        Ok(read) => read,
        Err(stop) => return Err(stop),
    };
    match found.push(first) {
        Ok(()) => {}
        Err(_) => return Err(Stop::Memory),
    }
    'turns: while is_mark(text, tokens, next, Mark::Comma) {
        match argument(alloc, text, tokens, next + 1, depth, seen) {
            Ok((item, after)) => {
                match found.push(item) {
                    Ok(()) => next = after,
                    Err(_) => return Err(Stop::Memory),
                }
            }
            Err(stop) => return Err(stop),
        }
    }
    Ok((found, next))
}

// A term as an argument, which may be an interval.
#[cycle(term)]
fn argument(
    alloc: Global,
    text: &[u8],
    tokens: &[Token],
    at: usize,
    depth: usize,
    seen: &mut Seen,
) -> Result<(Term, usize), Stop>
    requires tokens { AreTokens text.now tokens.now }
    requires at { at ≤ length tokens.now }
    ensures { PlainRead (argument_class (term_class (unary_class depth))) text.now tokens.now at seen.old seen.new result }
{
    let before = seen.places.len();
    match term(alloc, text, tokens, at, depth, seen) {
        Ok(read) => {
            match seen.argue(read.shape, before, tokens, at) {
                Ok(()) => Ok((read.term, read.next)),
                Err(_) => Err(Stop::Memory),
            }
        }
        Err(stop) => Err(stop),
    }
}

// The term at a place.
#[cycle(term)]
pub(crate) fn term(
    alloc: Global,
    text: &[u8],
    tokens: &[Token],
    at: usize,
    depth: usize,
    seen: &mut Seen,
) -> Result<ReadTerm, Stop>
    requires tokens { AreTokens text.now tokens.now }
    requires at { at ≤ length tokens.now }
    ensures { TermRead (term_class (unary_class depth)) text.now tokens.now at seen.old seen.new result }
{
    let left = match sum(alloc, text, tokens, at, depth, seen) {
        Ok(left) => left,
        Err(stop) => return Err(stop),
    };
    if !is_mark(text, tokens, left.next, Mark::Dots) {
        return Ok(left);
    }
    seen.refuse(left.shape, at);
    match sum(alloc, text, tokens, left.next + 1, depth, seen) {
        Ok(right) => {
            seen.refuse(right.shape, left.next + 1);
            interval(alloc, left.term, right.term, right.next)
        }
        Err(stop) => Err(stop),
    }
}

// The sum at a place.
#[cycle(term)]
fn sum(
    alloc: Global,
    text: &[u8],
    tokens: &[Token],
    at: usize,
    depth: usize,
    seen: &mut Seen,
) -> Result<ReadTerm, Stop>
    requires tokens { AreTokens text.now tokens.now }
    requires at { at ≤ length tokens.now }
    ensures { TermRead (sum_class (unary_class depth)) text.now tokens.now at seen.old seen.new result }
{
    let first = match product(alloc, text, tokens, at, depth, seen) {
        Ok(first) => first,
        Err(stop) => return Err(stop),
    };
    match adding(text, tokens, first.next) {
        Some(_) => {}
        None => return Ok(first),
    }
    seen.refuse(first.shape, at);
    let mut parts = Items::new(alloc);
    let mut next = first.next;
    match parts.push(Part {
        op: Op::Plus,
        term: first.term,
    }) {
        Ok(()) => {}
        Err(_) => return Err(Stop::Memory),
    }
    'turns: while let Some(op) = adding(text, tokens, next) {
        match addend(alloc, text, tokens, next + 1, depth, seen) {
            Ok((term, after)) => {
                match parts.push(Part { op, term }) {
                    Ok(()) => next = after,
                    Err(_) => return Err(Stop::Memory),
                }
            }
            Err(stop) => return Err(stop),
        }
    }
    Ok(other(Term::Sum(parts), next))
}

// A product as a part of a sum.
#[cycle(term)]
fn addend(
    alloc: Global,
    text: &[u8],
    tokens: &[Token],
    at: usize,
    depth: usize,
    seen: &mut Seen,
) -> Result<(Term, usize), Stop>
    requires tokens { AreTokens text.now tokens.now }
    requires at { at ≤ length tokens.now }
    ensures { PlainRead (part_class (product_class (unary_class depth))) text.now tokens.now at seen.old seen.new result }
{
    match product(alloc, text, tokens, at, depth, seen) {
        Ok(read) => {
            seen.refuse(read.shape, at);
            Ok((read.term, read.next))
        }
        Err(stop) => Err(stop),
    }
}

// The product at a place.
#[cycle(term)]
fn product(
    alloc: Global,
    text: &[u8],
    tokens: &[Token],
    at: usize,
    depth: usize,
    seen: &mut Seen,
) -> Result<ReadTerm, Stop>
    requires tokens { AreTokens text.now tokens.now }
    requires at { at ≤ length tokens.now }
    ensures { TermRead (product_class (unary_class depth)) text.now tokens.now at seen.old seen.new result }
{
    let first = match unary(alloc, text, tokens, at, depth, seen) {
        Ok(first) => first,
        Err(stop) => return Err(stop),
    };
    match multiplying(text, tokens, first.next) {
        Some(_) => {}
        None => return Ok(first),
    }
    seen.refuse(first.shape, at);
    let mut parts = Items::new(alloc);
    let mut next = first.next;
    match parts.push(Part {
        op: Op::Times,
        term: first.term,
    }) {
        Ok(()) => {}
        Err(_) => return Err(Stop::Memory),
    }
    'turns: while let Some(op) = multiplying(text, tokens, next) {
        match factor(alloc, text, tokens, next + 1, depth, seen) {
            Ok((term, after)) => {
                match parts.push(Part { op, term }) {
                    Ok(()) => next = after,
                    Err(_) => return Err(Stop::Memory),
                }
            }
            Err(stop) => return Err(stop),
        }
    }
    Ok(other(Term::Product(parts), next))
}

// An operand as a part of a product.
#[cycle(term)]
fn factor(
    alloc: Global,
    text: &[u8],
    tokens: &[Token],
    at: usize,
    depth: usize,
    seen: &mut Seen,
) -> Result<(Term, usize), Stop>
    requires tokens { AreTokens text.now tokens.now }
    requires at { at ≤ length tokens.now }
    ensures { PlainRead (part_class (unary_class depth)) text.now tokens.now at seen.old seen.new result }
{
    match unary(alloc, text, tokens, at, depth, seen) {
        Ok(read) => {
            seen.refuse(read.shape, at);
            Ok((read.term, read.next))
        }
        Err(stop) => Err(stop),
    }
}
