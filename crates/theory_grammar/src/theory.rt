// The theory atom at a token.
ghost use Rattle.std.specs.Prelude.{◌≡◌, ◌+◌, ◌-◌, ◌<◌, ◌≤◌, ◌∷◌, true, length, None, IfOk, OnErr};
ghost use Rattle.grammar.specs.Check as checks;
ghost use Rattle.grammar.specs.Spelled.{AreTokens, bytes_at as bytes_there, word_by};
ghost use Rattle.grammar.specs.Word.{words_at, is_next};
ghost use Rattle.grammar.specs.declared.mark.Mark.TheVariants as mark;
ghost use Rattle.grammar.specs.declared.words.WordKind.TheVariants as kind;
ghost use Rattle.theory_grammar.specs.TheoryParts.{PartsRead, with_bad, first_by};
ghost use Rattle.lexer.specs.Parts.{IsTokenisation};
ghost use Rattle.theory_grammar.specs.ParsedTheory as spec;

use crate::comparison::guard;
use crate::element::elements;
use crate::fault::{ParseCause, ParseFault, ParseStop, Stop};
use crate::parse::{fault_at, stopped};
use crate::places::add_starts;
use crate::seen::Seen;
use crate::theory_names::{is_bad_guard, is_unknown, relation_of, theory_name};
use grammar::{Check, Failing, Mark, WordKind, bytes_at, is_mark, sooner, word_at};
use lexer::Token;
use sqlite_items::Items;
use std::alloc::Global;
use std::mem::replace;
use symbols::Listed;
use syntax_tree::{Guard, Name, TheoryAtom, TheoryElement, TheoryName};

/// A theory atom that was read.
#[derive(Drop)]
pub struct ParsedTheory {
    /// The atom; an unknown name gives `TheoryName::Unknown`.
    pub atom: TheoryAtom,
    /// The number of the token behind it, from 1.
    pub next: usize,
    /// The failed check inside that comes first: UnknownTheory, BadGuard or BadTerm.
    pub fault: Option<ParseFault>,
}

/// The parts of a theory atom, and what its checks need. Places are those of words, from 0.
#[derive(Drop)]
pub struct AtomParts {
    pub name: TheoryName,
    pub elements: Items<TheoryElement>,
    /// The first bad term in the elements.
    pub in_elements: Option<usize>,
    /// The place of the closing brace.
    pub brace: usize,
    pub guard: Option<Guard>,
    /// The first bad term in the guard.
    pub in_guard: Option<usize>,
    /// The place behind the atom.
    pub next: usize,
}

/// The parts of the theory atom at a place.
pub fn atom_parts(
    alloc: Global,
    text: &[u8],
    tokens: &[Token],
    at: usize,
    seen: &mut Seen,
) -> Result<AtomParts, Stop>
    requires tokens { AreTokens text.now tokens.now }
    requires at { at ≤ length tokens.now }
    requires bad { seen.old.bad ≡ None }
    ensures { PartsRead text.now tokens.now at seen.old seen.new result }
{
    if !is_mark(text, tokens, at, Mark::And) {
        return Err(Stop::Expected(at));
    }
    match word_at(text, tokens, at + 1) {
        Some(kind) => behind_and(alloc, text, tokens, at, seen, kind),
        None => Err(Stop::Expected(at + 1)),
    }
}

// The theory atom at a place, with a word of this kind behind its `&`.
fn behind_and(
    alloc: Global,
    text: &[u8],
    tokens: &[Token],
    at: usize,
    seen: &mut Seen,
    kind: WordKind,
) -> Result<AtomParts, Stop>
    requires tokens { AreTokens text.now tokens.now }
    requires at { at + 1 < length tokens.now }
    requires bad { seen.old.bad ≡ None }
    requires begins { is_next mark.And (words_at text.now tokens.now at) ≡ true }
    requires word { words_at text.now tokens.now (at + 1) ≡ word_by kind (bytes_there text.now tokens.now (at + 1)) ∷ words_at text.now tokens.now (at + 1 + 1) }
    ensures { PartsRead text.now tokens.now at seen.old seen.new result }
{
    match kind {
        WordKind::Name => behind_name(alloc, text, tokens, at, seen),
        _ => Err(Stop::Expected(at + 1)),
    }
}

// The theory atom at a place, with a name behind its `&`.
fn behind_name(
    alloc: Global,
    text: &[u8],
    tokens: &[Token],
    at: usize,
    seen: &mut Seen,
) -> Result<AtomParts, Stop>
    requires tokens { AreTokens text.now tokens.now }
    requires at { at + 1 < length tokens.now }
    requires bad { seen.old.bad ≡ None }
    requires begins { is_next mark.And (words_at text.now tokens.now at) ≡ true }
    requires word { words_at text.now tokens.now (at + 1) ≡ word_by kind.Name (bytes_there text.now tokens.now (at + 1)) ∷ words_at text.now tokens.now (at + 1 + 1) }
    ensures { PartsRead text.now tokens.now at seen.old seen.new result }
{
    if !is_mark(text, tokens, at + 2, Mark::OpenBrace) {
        return Err(Stop::Expected(at + 2));
    }
    let name = theory_name(bytes_at(text, tokens, at + 1));
    let (found, brace) = match elements(alloc, text, tokens, at + 3, name, seen) {
        Ok(read) => read,
        Err(stop) => return Err(stop),
    };
    if !is_mark(text, tokens, brace, Mark::CloseBrace) {
        return Err(Stop::Expected(brace));
    }
    let in_elements = replace(&mut seen.bad, None);
    match guard(alloc, text, tokens, brace + 1, seen) {
        Ok((guard, next)) => {
            Ok(AtomParts {
                name,
                elements: found,
                in_elements,
                brace,
                guard,
                in_guard: seen.bad,
                next,
            })
        }
        Err(stop) => Err(stop),
    }
}

/// The failed check so far, or another, if it fails, where that comes before it.
pub fn sooner_if(so_far: Option<Failing>, fails: bool, check: Check, at: usize) -> Option<Failing>
    ensures { result ≡ checks.first_of so_far (checks.fails_where fails check at) }
{
    if fails {
        sooner(so_far, Failing { check, at })
    } else {
        so_far
    }
}

/// The failed check so far, or a bad term, where that comes before it.
pub fn sooner_term(so_far: Option<Failing>, bad: Option<usize>) -> Option<Failing>
    ensures { result ≡ with_bad so_far bad }
{
    match bad {
        Some(at) => {
            sooner(
                so_far,
                Failing {
                    check: Check::BadTerm,
                    at,
                },
            )
        }
        None => so_far,
    }
}

/// The failed check so far, or the one that fails first in a theory atom that begins at a place, where that comes
/// before it.
pub fn first_failing(so_far: Option<Failing>, parts: &AtomParts, at: usize) -> Option<Failing>
    requires at { at + 1 < parts.now.next }
    requires brace { parts.now.brace < parts.now.next }
    ensures { result ≡ first_by so_far parts.now at }
{
    let unknown = sooner_if(so_far, is_unknown(parts.name), Check::UnknownTheory, at + 1);
    let inside = sooner_term(unknown, parts.in_elements);
    let guarded = sooner_if(
        inside,
        is_bad_guard(parts.name, relation_of(&parts.guard)),
        Check::BadGuard,
        parts.brace + 1,
    );
    sooner_term(guarded, parts.in_guard)
}

fn cause_of(check: Check) -> ParseCause
    ensures { result ≡ spec.cause_of check }
{
    match check {
        Check::UnknownTheory => ParseCause::UnknownTheory,
        Check::BadGuard => ParseCause::BadGuard,
        Check::BadTerm | Check::WrongPlace | Check::TooManyVariables => ParseCause::BadTerm,
    }
}

fn first_fault(text: &[u8], tokens: &[Token], failing: Option<Failing>) -> Option<ParseFault>
    ensures { result ≡ spec.first_fault text.now tokens.now failing }
{
    match failing {
        Some(failing) => { Some(fault_at(text, tokens, failing.at, cause_of(failing.check))) }
        None => None,
    }
}

/// Reads the longest theory atom at the token `&` with the number `from`, counted from 1, and adds the names of
/// its variables, and the places of its variables, of its arguments that are intervals and of its atoms, to
/// those so far. Whether it may stand there is judged by the caller.
///
/// Time is linear in the tokens that are read and in the names so far. A refusal leaves `names` and `places` as they
/// were.
pub fn parse_theory(
    alloc: Global,
    text: &[u8],
    tokens: &[Token],
    from: usize,
    names: &mut Listed<Name>,
    places: &mut Listed<usize>,
) -> Result<ParsedTheory, ParseStop>
    requires tokens { IsTokenisation text.now tokens.now }
    requires from { (1 ≤ from) × (from ≤ length tokens.now + 1) }

    // What is read is a theory atom of the grammar, with its tree, its variables and its first failed check.
    ensures found { IfOk result (λ parsed. spec.FoundTheory text.now tokens.now from names.old places.old names.new places.new parsed) }

    // Where a theory atom stands, one is read, unless memory runs out.
    ensures only { spec.NoTheory text.now tokens.now from result }

    // A fault stands at the first place where no theory atom goes on, and says whether one that nests deeper does.
    ensures fault { spec.IsTheoryFault text.now tokens.now from result }

    // A refusal adds nothing.
    ensures refused { OnErr result ((names.new ≡ names.old) × (places.new ≡ places.old)) }
{
    let mut seen = match Seen::behind(alloc, names.items()) {
        Ok(seen) => seen,
        Err(_) => return Err(ParseStop::Memory),
    };
    match atom_parts(alloc, text, tokens, from - 1, &mut seen) {
        Ok(read) => {
            let Seen {
                names: all_names,
                places: all_places,
                bad: _,
            } = seen;
            match add_starts(alloc, places, all_places) {
                Ok(()) => *names = all_names.into_list(),
                Err(_) => return Err(ParseStop::Memory),
            }
            let fault = first_fault(text, tokens, first_failing(None, &read, from - 1));
            Ok(ParsedTheory {
                next: read.next + 1,
                fault,
                atom: TheoryAtom {
                    name: read.name,
                    elements: read.elements,
                    guard: read.guard,
                },
            })
        }
        Err(stop) => Err(stopped(text, tokens, stop)),
    }
}
