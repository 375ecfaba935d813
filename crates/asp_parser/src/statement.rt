// Statements. Places are those of words.
ghost use Rattle.std.specs.Prelude.{◌≡◌, ◌+◌, ◌<◌, ◌≤◌, ◌∷◌, true, false, length};
ghost use Rattle.grammar.specs.Spelled.{AreTokens, bytes_at as bytes_there, word_by};
ghost use Rattle.grammar.specs.declared.words.WordKind.TheVariants as kind;
ghost use Rattle.asp_parser.specs.declared.kept.Kept.{Kept};
ghost use Rattle.grammar.specs.Word.{words_at, is_next};
ghost use Rattle.grammar.specs.Word as words;
ghost use Rattle.grammar.specs.declared.mark.Mark.TheVariants as mark;
ghost use Rattle.grammar.specs.Reading.{starts_next};
ghost use Rattle.grammar.specs.StatementReading.{is_const, is_show};
ghost use Rattle.asp_parser.specs.StatementState.{Taken, arrow_class, rule_class, constraint_class, constant_class, show_class, form_class, stands_alone_there};

use crate::body::body;
use crate::head::head;
use crate::kept::Kept;
use crate::variables::sooner_places;
use grammar::{Check, Mark, WordKind, bytes_at, is_mark, number_of, word_at};
use lexer::Token;
use std::alloc::Global;
use symbols::Listed;
use syntax_tree::{Head, Literal, Term, TheoryName};
use theory_grammar::{Stop, judged_term};

// A statement but for its variables and places.
#[derive(Drop)]
pub(crate) enum Draft {
    // A rule's head, its body, and whether `:-` is written.
    Rule(Head, Listed<Literal>, bool),
    Constant(Listed<u8>, Term),
    ShowNothing,
    Show(Listed<u8>, u32),
}

// Whether no `:-` may follow a head.
fn stands_alone(head: &Head) -> bool
    ensures { result ≡ stands_alone_there head.now }
{
    match head {
        Head::Theory(atom) => match atom.name {
            TheoryName::Minimize | TheoryName::Maximize | TheoryName::Show => true,
            _ => false,
        },
        _ => false,
    }
}

// What stands behind a head: the literals of the body, and whether `:-` is written. Where it is refused, `:-` is in
// the wrong place.
fn arrow(
    alloc: Global,
    text: &[u8],
    tokens: &[Token],
    at: usize,
    refused: bool,
    kept: &mut Kept,
) -> Result<((Listed<Literal>, bool), usize), Stop>
    requires tokens { AreTokens text.now tokens.now }
    requires at { at ≤ length tokens.now }
    ensures { Taken (arrow_class refused) text.now tokens.now at kept.old kept.new result }
{
    if !is_mark(text, tokens, at, Mark::Arrow) {
        return Ok(((Listed::new(alloc), false), at));
    }
    kept.fail_at(refused, Check::WrongPlace, at);
    match body(alloc, text, tokens, at + 1, kept) {
        Ok((literals, next)) => Ok(((literals, true), next)),
        Err(stop) => Err(stop),
    }
}

// The rule with a head at a place.
fn rule(
    alloc: Global,
    text: &[u8],
    tokens: &[Token],
    at: usize,
    kept: &mut Kept,
) -> Result<(Draft, usize), Stop>
    requires tokens { AreTokens text.now tokens.now }
    requires at { at ≤ length tokens.now }
    ensures { Taken rule_class text.now tokens.now at kept.old kept.new result }
{
    let (head, behind) = match head(alloc, text, tokens, at, kept) {
        Ok(read) => read,
        Err(stop) => return Err(stop),
    };
    let refused = stands_alone(&head);
    match arrow(alloc, text, tokens, behind, refused, kept) {
        Ok((tail, dot)) => {
            if !is_mark(text, tokens, dot, Mark::Dot) {
                return Err(Stop::Expected(dot));
            }
            Ok((Draft::Rule(head, tail.0, tail.1), dot + 1))
        }
        Err(stop) => Err(stop),
    }
}

// The rule without a head whose `:-` stands at a place.
fn constraint(
    alloc: Global,
    text: &[u8],
    tokens: &[Token],
    at: usize,
    kept: &mut Kept,
) -> Result<(Draft, usize), Stop>
    requires tokens { AreTokens text.now tokens.now }
    requires at { at < length tokens.now }
    requires arrow { is_next mark.Arrow (words_at text.now tokens.now at) ≡ true }
    ensures { Taken constraint_class text.now tokens.now at kept.old kept.new result }
{
    match body(alloc, text, tokens, at + 1, kept) {
        Ok((literals, dot)) => {
            if !is_mark(text, tokens, dot, Mark::Dot) {
                return Err(Stop::Expected(dot));
            }
            Ok((Draft::Rule(Head::Nothing, literals, true), dot + 1))
        }
        Err(stop) => Err(stop),
    }
}

// The constant whose `#const` stands at a place.
fn constant(
    alloc: Global,
    text: &[u8],
    tokens: &[Token],
    at: usize,
    kept: &mut Kept,
) -> Result<(Draft, usize), Stop>
    requires tokens { AreTokens text.now tokens.now }
    requires at { at < length tokens.now }
    requires begins { starts_next is_const (words_at text.now tokens.now at) ≡ true }
    ensures { Taken constant_class text.now tokens.now at kept.old kept.new result }
{
    match word_at(text, tokens, at + 1) {
        Some(kind) => constant_by(alloc, text, tokens, at, kept, kind),
        None => Err(Stop::Expected(at + 1)),
    }
}

// The constant whose `#const` stands at a place, with a word of this kind behind it.
fn constant_by(
    alloc: Global,
    text: &[u8],
    tokens: &[Token],
    at: usize,
    kept: &mut Kept,
    kind: WordKind,
) -> Result<(Draft, usize), Stop>
    requires tokens { AreTokens text.now tokens.now }
    requires at { at + 1 < length tokens.now }
    requires begins { starts_next is_const (words_at text.now tokens.now at) ≡ true }
    requires word { words_at text.now tokens.now (at + 1) ≡ word_by kind (bytes_there text.now tokens.now (at + 1)) ∷ words_at text.now tokens.now (at + 1 + 1) }
    ensures { Taken constant_class text.now tokens.now at kept.old kept.new result }
{
    match kind {
        WordKind::Name => defined(alloc, text, tokens, at, kept),
        _ => Err(Stop::Expected(at + 1)),
    }
}

// The constant whose `#const` stands at a place, with a name behind it.
fn defined(
    alloc: Global,
    text: &[u8],
    tokens: &[Token],
    at: usize,
    kept: &mut Kept,
) -> Result<(Draft, usize), Stop>
    requires tokens { AreTokens text.now tokens.now }
    requires at { at + 1 < length tokens.now }
    requires begins { starts_next is_const (words_at text.now tokens.now at) ≡ true }
    requires word { words_at text.now tokens.now (at + 1) ≡ word_by kind.Name (bytes_there text.now tokens.now (at + 1)) ∷ words_at text.now tokens.now (at + 1 + 1) }
    ensures { Taken constant_class text.now tokens.now at kept.old kept.new result }
{
    if !is_mark(text, tokens, at + 2, Mark::Equal) {
        return Err(Stop::Expected(at + 2));
    }
    let before = kept.seen.places.len();
    let read = match judged_term(alloc, text, tokens, at + 3, false, &mut kept.seen) {
        Ok(read) => read,
        Err(stop) => return Err(stop),
    };
    if !is_mark(text, tokens, read.next, Mark::Dot) {
        return Err(Stop::Expected(read.next));
    }
    kept.failing = sooner_places(kept.failing, &kept.seen.places.items()[before..]);
    match Listed::from_slice(alloc, bytes_at(text, tokens, at + 1)) {
        Ok(name) => Ok((Draft::Constant(name, read.term), read.next + 1)),
        Err(_) => Err(Stop::Memory),
    }
}

// The statement whose `#show` stands at a place.
fn show(alloc: Global, text: &[u8], tokens: &[Token], at: usize) -> Result<(Draft, usize), Stop>
    requires tokens { AreTokens text.now tokens.now }
    requires at { at < length tokens.now }
    requires begins { starts_next is_show (words_at text.now tokens.now at) ≡ true }
    ensures { (kept : Kept) → Taken show_class text.now tokens.now at kept kept result }
{
    if is_mark(text, tokens, at + 1, Mark::Dot) {
        return Ok((Draft::ShowNothing, at + 2));
    }
    match word_at(text, tokens, at + 1) {
        Some(kind) => show_by(alloc, text, tokens, at, kind),
        None => Err(Stop::Expected(at + 1)),
    }
}

// The statement whose `#show` stands at a place, with a word of this kind behind it, which isn't `.`.
fn show_by(
    alloc: Global,
    text: &[u8],
    tokens: &[Token],
    at: usize,
    kind: WordKind,
) -> Result<(Draft, usize), Stop>
    requires tokens { AreTokens text.now tokens.now }
    requires at { at + 1 < length tokens.now }
    requires begins { starts_next is_show (words_at text.now tokens.now at) ≡ true }
    requires no_dot { is_next mark.Dot (words_at text.now tokens.now (at + 1)) ≡ false }
    requires word { words_at text.now tokens.now (at + 1) ≡ word_by kind (bytes_there text.now tokens.now (at + 1)) ∷ words_at text.now tokens.now (at + 1 + 1) }
    ensures { (kept : Kept) → Taken show_class text.now tokens.now at kept kept result }
{
    match kind {
        WordKind::Name => predicate(alloc, text, tokens, at),
        _ => Err(Stop::Expected(at + 1)),
    }
}

// The predicate to show whose `#show` stands at a place, with a name behind it.
fn predicate(
    alloc: Global,
    text: &[u8],
    tokens: &[Token],
    at: usize,
) -> Result<(Draft, usize), Stop>
    requires tokens { AreTokens text.now tokens.now }
    requires at { at + 1 < length tokens.now }
    requires begins { starts_next is_show (words_at text.now tokens.now at) ≡ true }
    requires word { words_at text.now tokens.now (at + 1) ≡ word_by kind.Name (bytes_there text.now tokens.now (at + 1)) ∷ words_at text.now tokens.now (at + 1 + 1) }
    ensures { (kept : Kept) → Taken show_class text.now tokens.now at kept kept result }
{
    if !is_mark(text, tokens, at + 2, Mark::Divide) {
        return Err(Stop::Expected(at + 2));
    }
    match word_at(text, tokens, at + 3) {
        Some(kind) => predicate_by(alloc, text, tokens, at, kind),
        None => Err(Stop::Expected(at + 3)),
    }
}

// The predicate to show whose `#show` stands at a place, with a name, `/` and a word of this kind behind it.
fn predicate_by(
    alloc: Global,
    text: &[u8],
    tokens: &[Token],
    at: usize,
    kind: WordKind,
) -> Result<(Draft, usize), Stop>
    requires tokens { AreTokens text.now tokens.now }
    requires at { at + 3 < length tokens.now }
    requires begins { starts_next is_show (words_at text.now tokens.now at) ≡ true }
    requires name { words_at text.now tokens.now (at + 1) ≡ words.name (bytes_there text.now tokens.now (at + 1)) ∷ words_at text.now tokens.now (at + 1 + 1) }
    requires divide { is_next mark.Divide (words_at text.now tokens.now (at + 2)) ≡ true }
    requires word { words_at text.now tokens.now (at + 3) ≡ word_by kind (bytes_there text.now tokens.now (at + 3)) ∷ words_at text.now tokens.now (at + 3 + 1) }
    ensures { (kept : Kept) → Taken show_class text.now tokens.now at kept kept result }
{
    match kind {
        WordKind::Number => shown(alloc, text, tokens, at),
        _ => Err(Stop::Expected(at + 3)),
    }
}

// The predicate to show whose `#show` stands at a place, with a name, `/` and a number behind it.
fn shown(alloc: Global, text: &[u8], tokens: &[Token], at: usize) -> Result<(Draft, usize), Stop>
    requires tokens { AreTokens text.now tokens.now }
    requires at { at + 3 < length tokens.now }
    requires begins { starts_next is_show (words_at text.now tokens.now at) ≡ true }
    requires name { words_at text.now tokens.now (at + 1) ≡ words.name (bytes_there text.now tokens.now (at + 1)) ∷ words_at text.now tokens.now (at + 1 + 1) }
    requires divide { is_next mark.Divide (words_at text.now tokens.now (at + 2)) ≡ true }
    requires word { words_at text.now tokens.now (at + 3) ≡ word_by kind.Number (bytes_there text.now tokens.now (at + 3)) ∷ words_at text.now tokens.now (at + 3 + 1) }
    ensures { (kept : Kept) → Taken show_class text.now tokens.now at kept kept result }
{
    let arity = number_of(bytes_at(text, tokens, at + 3)) as u32;
    if !is_mark(text, tokens, at + 4, Mark::Dot) {
        return Err(Stop::Expected(at + 4));
    }
    match Listed::from_slice(alloc, bytes_at(text, tokens, at + 1)) {
        Ok(name) => Ok((Draft::Show(name, arity), at + 5)),
        Err(_) => Err(Stop::Memory),
    }
}

// The statement at a place.
pub(crate) fn form(
    alloc: Global,
    text: &[u8],
    tokens: &[Token],
    at: usize,
    kept: &mut Kept,
) -> Result<(Draft, usize), Stop>
    requires tokens { AreTokens text.now tokens.now }
    requires at { at ≤ length tokens.now }
    ensures { Taken form_class text.now tokens.now at kept.old kept.new result }
{
    if is_mark(text, tokens, at, Mark::Arrow) {
        return constraint(alloc, text, tokens, at, kept);
    }
    match word_at(text, tokens, at) {
        Some(kind) => form_by(alloc, text, tokens, at, kept, kind),
        None => rule(alloc, text, tokens, at, kept),
    }
}

// The statement at a place with a word of this kind, which isn't `:-`.
fn form_by(
    alloc: Global,
    text: &[u8],
    tokens: &[Token],
    at: usize,
    kept: &mut Kept,
    kind: WordKind,
) -> Result<(Draft, usize), Stop>
    requires tokens { AreTokens text.now tokens.now }
    requires at { at < length tokens.now }
    requires no_arrow { is_next mark.Arrow (words_at text.now tokens.now at) ≡ false }
    requires word { words_at text.now tokens.now at ≡ word_by kind (bytes_there text.now tokens.now at) ∷ words_at text.now tokens.now (at + 1) }
    ensures { Taken form_class text.now tokens.now at kept.old kept.new result }
{
    match kind {
        WordKind::Const => constant(alloc, text, tokens, at, kept),
        WordKind::Show => show(alloc, text, tokens, at),
        _ => rule(alloc, text, tokens, at, kept),
    }
}
