// Heads. Places are those of words.
ghost use Rattle.std.specs.Prelude.{◌≡◌, ◌≤◌, true, length};
ghost use Rattle.grammar.specs.Spelled.{AreTokens};
ghost use Rattle.grammar.specs.Word.{words_at};
ghost use Rattle.grammar.specs.Reading.{starts_next};
ghost use Rattle.grammar.specs.StatementReading.{is_bounding as is_bounding_there};
ghost use Rattle.asp_parser.specs.StatementState.{Taken, bounded_class, led_class, head_class};

use crate::choice::choice;
use crate::kept::Kept;
use crate::literal::theory;
use crate::words::is_bounding;
use grammar::{Mark, Shape, is_mark};
use lexer::Token;
use std::alloc::Global;
use symbols::Rel;
use syntax_tree::{Choice, Guard, Head, Term};
use theory_grammar::{Stop, begins_term, judged_term, relation};

// The choice with this left bound, from the relation or the opening brace behind the bound on. Without a relation
// the bound is at most the count.
fn bounded(
    alloc: Global,
    text: &[u8],
    tokens: &[Token],
    at: usize,
    left: Term,
    kept: &mut Kept,
) -> Result<(Choice, usize), Stop>
    requires tokens { AreTokens text.now tokens.now }
    requires at { at ≤ length tokens.now }
    ensures { Taken (bounded_class left) text.now tokens.now at kept.old kept.new result }
{
    match relation(text, tokens, at) {
        Some(rel) => {
            let guard = Guard { rel, right: left };
            choice(alloc, text, tokens, at + 1, Some(guard), kept)
        }
        None => {
            let guard = Guard {
                rel: Rel::LessEqual,
                right: left,
            };
            choice(alloc, text, tokens, at, Some(guard), kept)
        }
    }
}

// The head at a place that begins with a term: an atom, or a choice with this term as its left bound.
fn led(
    alloc: Global,
    text: &[u8],
    tokens: &[Token],
    at: usize,
    kept: &mut Kept,
) -> Result<(Head, usize), Stop>
    requires tokens { AreTokens text.now tokens.now }
    requires at { at ≤ length tokens.now }
    ensures { Taken led_class text.now tokens.now at kept.old kept.new result }
{
    let before = kept.seen.places.len();
    let left = match judged_term(alloc, text, tokens, at, false, &mut kept.seen) {
        Ok(left) => left,
        Err(stop) => return Err(stop),
    };
    if is_bounding(text, tokens, left.next) {
        return match bounded(alloc, text, tokens, left.next, left.term, kept) {
            Ok((choice, next)) => Ok((Head::Choice(choice), next)),
            Err(stop) => Err(stop),
        };
    }
    match left.shape {
        Shape::Atom => match kept.seen.enter(before, tokens, at) {
            Ok(()) => Ok((Head::Atom(left.term), left.next)),
            Err(_) => Err(Stop::Memory),
        },
        _ => Err(Stop::Expected(left.next)),
    }
}

// The head at a place.
pub(crate) fn head(
    alloc: Global,
    text: &[u8],
    tokens: &[Token],
    at: usize,
    kept: &mut Kept,
) -> Result<(Head, usize), Stop>
    requires tokens { AreTokens text.now tokens.now }
    requires at { at ≤ length tokens.now }
    ensures { Taken head_class text.now tokens.now at kept.old kept.new result }
{
    if is_mark(text, tokens, at, Mark::And) {
        return match theory(alloc, text, tokens, at, kept) {
            Ok((atom, next)) => Ok((Head::Theory(atom), next)),
            Err(stop) => Err(stop),
        };
    }
    if begins_term(text, tokens, at) {
        return led(alloc, text, tokens, at, kept);
    }
    match choice(alloc, text, tokens, at, None, kept) {
        Ok((choice, next)) => Ok((Head::Choice(choice), next)),
        Err(stop) => Err(stop),
    }
}
