// The term at a token.
ghost use Rattle.std.specs.Prelude.{◌≡◌, ◌+◌, ◌≤◌, length, IfOk, OnErr};
ghost use Rattle.lexer.specs.Parts.{IsTokenisation};
ghost use Rattle.theory_grammar.specs.Kept.{place_of as place_there};
ghost use Rattle.theory_grammar.specs.Parsed as spec;

use crate::fault::{ParseCause, ParseFault, ParseStop, Stop};
use crate::places::add_starts;
use crate::read_term::ReadTerm;
use crate::seen::Seen;
use crate::term::term;
use grammar::Shape;
use lexer::Token;
use std::alloc::Global;
use symbols::Listed;
use syntax_tree::{Name, Term};

/// How deep argument lists, parentheses and signs may nest.
pub const MAX_DEPTH: usize = 64;

/// A term that was read.
#[derive(Drop)]
pub struct ParsedTerm {
    pub term: Term,
    /// The number of the token behind it, from 1.
    pub next: usize,
    /// Whether its words are an atom.
    pub is_atom: bool,
    /// The first place inside where an interval stands that may not.
    pub fault: Option<ParseFault>,
}

// Where a word begins, or where the text ends.
fn place_of(text: &[u8], tokens: &[Token], at: usize) -> usize
    ensures { result ≡ place_there text.now tokens.now at }
{
    if at < tokens.len() {
        tokens[at].start
    } else {
        text.len()
    }
}

// A fault at a word.
pub(crate) fn fault_at(text: &[u8], tokens: &[Token], at: usize, cause: ParseCause) -> ParseFault
    ensures { result ≡ record { at = place_there text.now tokens.now at; cause = cause } }
{
    ParseFault {
        at: place_of(text, tokens, at),
        cause,
    }
}

// The first interval that stands where it may not.
fn bad_term(text: &[u8], tokens: &[Token], bad: Option<usize>) -> Option<ParseFault>
    ensures { result ≡ spec.bad_term text.now tokens.now bad }
{
    match bad {
        Some(at) => Some(fault_at(text, tokens, at, ParseCause::BadTerm)),
        None => None,
    }
}

fn is_atom(shape: Shape) -> bool
    ensures { result ≡ spec.is_atom shape }
{
    match shape {
        Shape::Atom => true,
        _ => false,
    }
}

pub(crate) fn stopped(text: &[u8], tokens: &[Token], stop: Stop) -> ParseStop
    ensures { result ≡ spec.stopped text.now tokens.now stop }
{
    match stop {
        Stop::Expected(at) => { ParseStop::Fault(fault_at(text, tokens, at, ParseCause::Expected)) }
        Stop::TooDeep(at) => ParseStop::Fault(fault_at(text, tokens, at, ParseCause::TooDeep)),
        Stop::Memory => ParseStop::Memory,
    }
}

/// Reads the longest term at the token with the number `from`, counted from 1, and adds the names and places of
/// its variables, and the places of its arguments that are intervals, to those so far. Whether the whole term
/// may be an interval is judged by the caller.
///
/// Time is linear in the tokens that are read and in the names so far. A refusal leaves `names` and `places` as they
/// were.
pub fn parse_term(
    alloc: Global,
    text: &[u8],
    tokens: &[Token],
    from: usize,
    names: &mut Listed<Name>,
    places: &mut Listed<usize>,
) -> Result<ParsedTerm, ParseStop>
    requires tokens { IsTokenisation text.now tokens.now }
    requires from { (1 ≤ from) × (from ≤ length tokens.now + 1) }

    // What is read is a term of the grammar, with its tree, its variables and its first failed check.
    ensures found { IfOk result (λ parsed. spec.FoundTerm text.now tokens.now from names.old places.old names.new places.new parsed) }

    // Where a term stands, one is read, unless memory runs out.
    ensures only { spec.NoTerm text.now tokens.now from result }

    // A fault stands at the first place where no term goes on, and says whether one that nests deeper does.
    ensures fault { spec.IsTermFault text.now tokens.now from result }

    // A refusal adds nothing.
    ensures refused { OnErr result ((names.new ≡ names.old) × (places.new ≡ places.old)) }
{
    let mut seen = match Seen::behind(alloc, names.items()) {
        Ok(seen) => seen,
        Err(_) => return Err(ParseStop::Memory),
    };
    match term(alloc, text, tokens, from - 1, MAX_DEPTH, &mut seen) {
        Ok(read) => {
            let Seen {
                names: all_names,
                places: all_places,
                bad,
            } = seen;
            match add_starts(alloc, places, all_places) {
                Ok(()) => *names = all_names.into_list(),
                Err(_) => return Err(ParseStop::Memory),
            }
            Ok(ParsedTerm {
                term: read.term,
                next: read.next + 1,
                is_atom: is_atom(read.shape),
                fault: bad_term(text, tokens, bad),
            })
        }
        Err(stop) => Err(stopped(text, tokens, stop)),
    }
}
