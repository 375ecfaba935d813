// Literals. Places are those of words.
ghost use Rattle.std.specs.Prelude.{◌≡◌, ◌+◌, ◌≤◌, true, length};
ghost use Rattle.grammar.specs.Spelled.{AreTokens};
ghost use Rattle.grammar.specs.Word.{words_at};
ghost use Rattle.grammar.specs.Check as checks;
ghost use Rattle.grammar.specs.Reading.{starts_next};
ghost use Rattle.grammar.specs.TheoryReading.{is_negation};
ghost use Rattle.asp_parser.specs.StatementState.{Taken, theory_class, placed_class, literal_class};

use crate::kept::Kept;
use grammar::{Check, Mark, is_mark};
use lexer::Token;
use std::alloc::Global;
use syntax_tree::{Literal, TheoryAtom, TheoryName};
use theory_grammar::{Stop, atom, atom_parts, first_failing, is_not, positive};

// The theory atom at a place, wherever it may stand.
pub(crate) fn theory(
    alloc: Global,
    text: &[u8],
    tokens: &[Token],
    at: usize,
    kept: &mut Kept,
) -> Result<(TheoryAtom, usize), Stop>
    requires tokens { AreTokens text.now tokens.now }
    requires at { at ≤ length tokens.now }
    ensures { Taken theory_class text.now tokens.now at kept.old kept.new result }
{
    let so_far = kept.first();
    kept.settle(so_far);
    match atom_parts(alloc, text, tokens, at, &mut kept.seen) {
        Ok(parts) => {
            kept.settle(first_failing(so_far, &parts, at));
            Ok((
                TheoryAtom {
                    name: parts.name,
                    elements: parts.elements,
                    guard: parts.guard,
                },
                parts.next,
            ))
        }
        Err(stop) => Err(stop),
    }
}

// Whether a theory atom may stand in a body.
fn is_literal(name: TheoryName) -> bool
    ensures { result ≡ checks.is_literal name }
{
    match name {
        TheoryName::Sum | TheoryName::Diff => true,
        _ => false,
    }
}

// The theory atom at a place, as a literal.
fn placed(
    alloc: Global,
    text: &[u8],
    tokens: &[Token],
    at: usize,
    held: bool,
    kept: &mut Kept,
) -> Result<(Literal, usize), Stop>
    requires tokens { AreTokens text.now tokens.now }
    requires at { at ≤ length tokens.now }
    ensures { Taken (placed_class held) text.now tokens.now at kept.old kept.new result }
{
    match theory(alloc, text, tokens, at, kept) {
        Ok((atom, next)) => {
            kept.fail_at(!is_literal(atom.name), Check::WrongPlace, at);
            Ok((Literal::Theory(atom, held), next))
        }
        Err(stop) => Err(stop),
    }
}

// The literal at a place where `not` stands.
fn denied(
    alloc: Global,
    text: &[u8],
    tokens: &[Token],
    at: usize,
    kept: &mut Kept,
) -> Result<(Literal, usize), Stop>
    requires tokens { AreTokens text.now tokens.now }
    requires at { at + 1 ≤ length tokens.now }
    requires not { starts_next is_negation (words_at text.now tokens.now at) ≡ true }
    ensures { Taken literal_class text.now tokens.now at kept.old kept.new result }
{
    if is_mark(text, tokens, at + 1, Mark::And) {
        return placed(alloc, text, tokens, at + 1, false, kept);
    }
    match atom(alloc, text, tokens, at + 1, &mut kept.seen) {
        Ok((term, next)) => Ok((Literal::Atom(term, false), next)),
        Err(stop) => Err(stop),
    }
}

// The literal at a place.
pub(crate) fn literal(
    alloc: Global,
    text: &[u8],
    tokens: &[Token],
    at: usize,
    kept: &mut Kept,
) -> Result<(Literal, usize), Stop>
    requires tokens { AreTokens text.now tokens.now }
    requires at { at ≤ length tokens.now }
    ensures { Taken literal_class text.now tokens.now at kept.old kept.new result }
{
    if is_not(text, tokens, at) {
        return denied(alloc, text, tokens, at, kept);
    }
    if is_mark(text, tokens, at, Mark::And) {
        return placed(alloc, text, tokens, at, true, kept);
    }
    positive(alloc, text, tokens, at, &mut kept.seen)
}
