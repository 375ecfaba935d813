// Operands of one word. Places are those of words.
ghost use Rattle.std.specs.Prelude.{◌≡◌, ◌+◌, ◌<◌, ◌∷◌, length};
ghost use Rattle.grammar.specs.Spelled.{AreTokens, bytes_at as bytes_there, word_by};
ghost use Rattle.grammar.specs.Word.{words_at};
ghost use Rattle.grammar.specs.declared.words.WordKind.TheVariants as kind;
ghost use Rattle.theory_grammar.specs.State.{TermRead, unary_class};

use crate::fault::Stop;
use crate::read_term::{ReadTerm, other};
use crate::seen::Seen;
use grammar::{bytes_at, number_of, string_content};
use lexer::Token;
use std::alloc::Global;
use syntax_tree::Term;

// The number at a place.
pub(crate) fn number(
    text: &[u8],
    tokens: &[Token],
    at: usize,
    depth: usize,
    seen: &mut Seen,
) -> Result<ReadTerm, Stop>
    requires tokens { AreTokens text.now tokens.now }
    requires at { at < length tokens.now }
    requires word { words_at text.now tokens.now at ≡ word_by kind.Number (bytes_there text.now tokens.now at) ∷ words_at text.now tokens.now (at + 1) }
    ensures { TermRead (unary_class depth) text.now tokens.now at seen.old seen.new result }
{
    Ok(other(Term::Number(number_of(bytes_at(text, tokens, at))), at + 1))
}

// The string at a place.
pub(crate) fn string(
    alloc: Global,
    text: &[u8],
    tokens: &[Token],
    at: usize,
    depth: usize,
    seen: &mut Seen,
) -> Result<ReadTerm, Stop>
    requires tokens { AreTokens text.now tokens.now }
    requires at { at < length tokens.now }
    requires word { words_at text.now tokens.now at ≡ word_by kind.Text (bytes_there text.now tokens.now at) ∷ words_at text.now tokens.now (at + 1) }
    ensures { TermRead (unary_class depth) text.now tokens.now at seen.old seen.new result }
{
    match string_content(alloc, bytes_at(text, tokens, at)) {
        Ok(content) => Ok(other(Term::Text(content), at + 1)),
        Err(_) => Err(Stop::Memory),
    }
}

// The variable at a place.
pub(crate) fn variable(
    alloc: Global,
    text: &[u8],
    tokens: &[Token],
    at: usize,
    depth: usize,
    seen: &mut Seen,
) -> Result<ReadTerm, Stop>
    requires tokens { AreTokens text.now tokens.now }
    requires at { at < length tokens.now }
    requires word { words_at text.now tokens.now at ≡ word_by kind.Variable (bytes_there text.now tokens.now at) ∷ words_at text.now tokens.now (at + 1) }
    ensures { TermRead (unary_class depth) text.now tokens.now at seen.old seen.new result }
{
    match seen.number(alloc, tokens, at, bytes_at(text, tokens, at)) {
        Ok(number) => Ok(other(Term::Variable(number), at + 1)),
        Err(_) => Err(Stop::Memory),
    }
}

// The variable without a name at a place.
pub(crate) fn anonymous(
    text: &[u8],
    tokens: &[Token],
    at: usize,
    depth: usize,
    seen: &mut Seen,
) -> Result<ReadTerm, Stop>
    requires tokens { AreTokens text.now tokens.now }
    requires at { at < length tokens.now }
    requires word { words_at text.now tokens.now at ≡ word_by kind.Anonymous (bytes_there text.now tokens.now at) ∷ words_at text.now tokens.now (at + 1) }
    ensures { TermRead (unary_class depth) text.now tokens.now at seen.old seen.new result }
{
    match seen.see(tokens, at, true) {
        Ok(()) => Ok(other(Term::Anonymous, at + 1)),
        Err(_) => Err(Stop::Memory),
    }
}
