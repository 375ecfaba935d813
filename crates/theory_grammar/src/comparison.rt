// Terms outside of other terms, what they are compared with, and guards. Places are those of words.
ghost use Rattle.std.specs.Prelude.{◌≡◌, ◌+◌, ◌≤◌, ◌&&◌, Some, length};
ghost use Rattle.grammar.specs.Spelled.{AreTokens};
ghost use Rattle.grammar.specs.Word.{words_at};
ghost use Rattle.grammar.specs.Reading.{sign_at};
ghost use Rattle.grammar.specs.Theory.{relation as relation_there};
ghost use Rattle.grammar.specs.Check.{is_equal as is_equal_there};
ghost use Rattle.theory_grammar.specs.State.{TermRead, PlainRead};
ghost use Rattle.theory_grammar.specs.TheoryState.{PlainTake, judged_class, judged_shape as shape_judged, compared_class, guard_class};

use crate::fault::Stop;
use crate::parse::MAX_DEPTH;
use crate::read_term::ReadTerm;
use crate::seen::Seen;
use crate::signs::relation;
use crate::term::term;
use crate::theory_names::is_equal;
use grammar::Shape;
use lexer::Token;
use std::alloc::Global;
use symbols::Rel;
use syntax_tree::Guard;

// What is judged of a term that may be an interval where that is free.
fn judged_shape(free: bool, shape: Shape) -> Shape
    ensures { result ≡ shape_judged free shape }
{
    if free { Shape::Other } else { shape }
}

/// The term at a place, which may be an interval where that is free.
pub fn judged_term(
    alloc: Global,
    text: &[u8],
    tokens: &[Token],
    at: usize,
    free: bool,
    seen: &mut Seen,
) -> Result<ReadTerm, Stop>
    requires tokens { AreTokens text.now tokens.now }
    requires at { at ≤ length tokens.now }
    ensures { TermRead (judged_class free) text.now tokens.now at seen.old seen.new result }
{
    match term(alloc, text, tokens, at, MAX_DEPTH, seen) {
        Ok(read) => {
            seen.refuse(judged_shape(free, read.shape), at);
            Ok(read)
        }
        Err(stop) => Err(stop),
    }
}

// Whether an interval may stand behind a relation.
fn is_free(free: bool, rel: Rel) -> bool
    ensures { result ≡ (free && is_equal_there rel) }
{
    free && is_equal(rel)
}

/// The relation at a place and the term behind it, which may be an interval behind `=` where that is free.
pub fn compared(
    alloc: Global,
    text: &[u8],
    tokens: &[Token],
    at: usize,
    free: bool,
    rel: Rel,
    seen: &mut Seen,
) -> Result<(Guard, usize), Stop>
    requires tokens { AreTokens text.now tokens.now }
    requires at { at + 1 ≤ length tokens.now }
    requires rel { sign_at relation_there (words_at text.now tokens.now at) ≡ Some rel }
    ensures { PlainRead (compared_class free) text.now tokens.now at seen.old seen.new result }
{
    match judged_term(alloc, text, tokens, at + 1, is_free(free, rel), seen) {
        Ok(read) => {
            Ok((
                Guard {
                    rel,
                    right: read.term,
                },
                read.next,
            ))
        }
        Err(stop) => Err(stop),
    }
}

// The guard at a place, where there is one.
pub(crate) fn guard(
    alloc: Global,
    text: &[u8],
    tokens: &[Token],
    at: usize,
    seen: &mut Seen,
) -> Result<(Option<Guard>, usize), Stop>
    requires tokens { AreTokens text.now tokens.now }
    requires at { at ≤ length tokens.now }
    ensures { PlainTake guard_class text.now tokens.now at seen.old seen.new result }
{
    match relation(text, tokens, at) {
        Some(rel) => match compared(alloc, text, tokens, at, false, rel, seen) {
            Ok((guard, next)) => Ok((Some(guard), next)),
            Err(stop) => Err(stop),
        },
        None => Ok((None, at)),
    }
}
